// Phrases put at a place: words with a number past them, and the names of titles and entries.
#![tactic(auto)]

ghost use Rattle.std.specs.Prelude.{◌+◌, ◌≤◌, length, ◌++◌};
ghost use Rattle.text.specs.Text.{digit_most, Placed};
ghost use Rattle.text_names.specs.Names.{word_width};
ghost use Rattle.text_phrases.specs.Phrases.{numbered, name_in, entry_name};
ghost use Rattle.text_phrases.specs.Working.{entry_name_most};

// Words, and a number just past them.
pub fn put_numbered(out: &mut [u8], at: usize, words: &[u8], number: u32) -> usize
    requires { at + length words.now + digit_most ≤ length out.old }
    ensures placed { Placed out.old at (numbered words.now number) out.new result }
    ensures most { result ≤ at + length words.now + digit_most }
{
    let end = text::put_bytes(out, at, words);
    text::put_number(out, end, number)
}

// The name in a row of the table of words; nothing, if the table has no such row.
pub fn put_name(out: &mut [u8], at: usize, row: u32) -> usize
    requires { at + word_width ≤ length out.old }
    ensures { Placed out.old at (name_in row) out.new result × (result ≤ at + word_width) }
{
    if row < text_names::WORDS {
        return text_names::put_word(out, at, row);
    }
    at
}

// The title and the kind of an entry.
pub fn put_entry_name(out: &mut [u8], at: usize, entry: u32) -> usize
    requires { at + entry_name_most ≤ length out.old }
    ensures { Placed out.old at (entry_name entry) out.new result × (result ≤ at + entry_name_most) }
{
    let title = text_names::title_of(entry);
    let kind = text_names::kind_of(entry);
    let titled = put_name(out, at, title);
    let parted = text::put_byte(out, titled, b' ');
    put_name(out, parted, text_names::TITLES + kind)
}

// A name, and words just past it.
pub fn put_named(out: &mut [u8], at: usize, row: u32, what: &[u8]) -> usize
    requires { at + word_width + length what.now ≤ length out.old }
    ensures { Placed out.old at (name_in row ++ what.now) out.new result × (result ≤ at + word_width + length what.now) }
{
    let named = put_name(out, at, row);
    text::put_bytes(out, named, what)
}
