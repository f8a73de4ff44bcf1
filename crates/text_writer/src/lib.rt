// A junction's entries as text: a line for each title, with the names and values of its entries.
#![tactic(auto)]

ghost use Rattle.std.specs.Prelude.{◌≡◌, ◌+◌, ◌<◌, ◌≤◌, length};
ghost use Rattle.layout.specs.Entries.{entry_count};
ghost use Rattle.lists.specs.Lists.{over};
ghost use Rattle.text.specs.Text.{Placed};
ghost use Rattle.text_writer.specs.Writer.{opening, closing, named, entry_text, junction_text};
ghost use Rattle.text_writer.specs.Working.{opening_most, named_most, entry_most};

use kinds::Kind;

// A title, a name, and a value, each with the byte past it.
const ENTRY_MOST: usize = 2 * (text_names::WIDTH + 1) + (text_values::VALUE_MOST + 1);

// Room for the text of any entries.
pub const TEXT_BYTES: usize = ENTRY_MOST * layout::ENTRIES;

// The title whose first entry this is.
fn put_opening(out: &mut [u8], at: usize, entry: u32) -> usize
    requires { (entry < entry_count) × (at + opening_most ≤ length out.old) }
    ensures { Placed out.old at (opening entry) out.new result }
{
    if !text_names::is_first(entry) {
        return at;
    }
    let end = text_names::put_word(out, at, text_names::title_of(entry));
    text::put_byte(out, end, b' ')
}

fn closing(entry: u32) -> u8
    ensures { result ≡ closing entry }
{
    if text_names::is_last(entry) {
        return b'\n';
    }
    b' '
}

// An entry's name, after its title if it is the first.
fn put_named(out: &mut [u8], at: usize, entry: u32) -> usize
    requires { (entry < entry_count) × (at + named_most ≤ length out.old) }
    ensures { Placed out.old at (named entry) out.new result × (result ≤ at + named_most) }
{
    let row = text_names::TITLES + text_names::kind_of(entry);
    let opened = put_opening(out, at, entry);
    let end = text_names::put_word(out, opened, row);
    text::put_byte(out, end, b' ')
}

fn put_entry(out: &mut [u8], at: usize, entry: u32, value: u32) -> usize
    requires { (entry < entry_count) × (at + entry_most ≤ length out.old) }
    ensures { Placed out.old at (entry_text entry value) out.new result }
{
    let byte = closing(entry);
    let named = put_named(out, at, entry);
    let end = text_values::put_value(out, named, Kind::at(entry as usize), value);
    text::put_byte(out, end, byte)
}

// Writes the text of any entries to the front of the lent bytes, and tells its length; the bytes past it stay.
pub fn write(entries: &[u32; layout::ENTRIES], out: &mut [u8; TEXT_BYTES]) -> usize
    ensures out_after { out.new ≡ over out.old 0 (junction_text entries.now) }
    ensures value { result ≡ length (junction_text entries.now) }
{
    let mut at: usize = 0;
    let mut entry: usize = 0;
    while entry < layout::ENTRIES {
        at = put_entry(out, at, entry as u32, entries[entry]);
        entry += 1;
    }
    at
}
