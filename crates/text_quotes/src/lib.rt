// A word of a text, quoted in what is said of it.
#![tactic(auto)]

ghost use Rattle.std.specs.Prelude.{◌≡◌, ◌+◌, ◌≤◌, min, length};
ghost use Rattle.text.specs.Text.{Placed, first_in};
ghost use Rattle.text_titles.specs.Blanks.{ends_word};
ghost use Rattle.text_quotes.specs.Quotes.{first_word, word_at, shown_most, shown_byte, shown, rest_mark, quoted};
ghost use Rattle.text_quotes.specs.Working.{quoted_most};

// The most bytes of a word that are shown.
const SHOWN_MOST: usize = 24;

// The first of ASCII's signs.
const FIRST_SIGN: u8 = b'!';

// The bytes of the word with which a text begins.
fn word_size(text: &[u8]) -> usize
    ensures { (result ≡ first_in ends_word text.now) × (result ≤ length text.now) }
{
    let mut at: usize = 0;
    while at < text.len() {
        if text_titles::ends_word(text[at]) {
            return at;
        }
        at += 1;
    }
    at
}

// The word with which a text begins.
fn first_word(text: &[u8]) -> &[u8]
    ensures { result.now ≡ first_word text.now }
{
    let end = word_size(text);
    &text[..end]
}

// The word that begins at a place of a text; nothing, past its end.
pub fn word_at(text: &[u8], place: usize) -> &[u8]
    ensures { result.now ≡ word_at text.now place }
{
    if text.len() <= place {
        return &text[..0];
    }
    first_word(&text[place..])
}

fn shown_byte(byte: u8) -> u8
    ensures { result ≡ shown_byte byte }
{
    if byte < FIRST_SIGN {
        return b'?';
    }
    if b'~' < byte {
        return b'?';
    }
    byte
}

fn shown_size(word: &[u8]) -> usize
    ensures { result ≡ min (length word.now) shown_most }
{
    if word.len() < SHOWN_MOST {
        return word.len();
    }
    SHOWN_MOST
}

fn put_shown(out: &mut [u8], at: usize, word: &[u8]) -> usize
    requires { at + shown_most ≤ length out.old }
    ensures { Placed out.old at (shown word.now) out.new result × (result ≤ at + shown_most) }
{
    let size = shown_size(word);
    let mut end = at;
    let mut i: usize = 0;
    while i < size {
        end = text::put_byte(out, end, shown_byte(word[i]));
        i += 1;
    }
    end
}

// Two points where not all is shown.
fn put_rest_mark(out: &mut [u8], at: usize, word: &[u8]) -> usize
    requires { at + 2 ≤ length out.old }
    ensures { Placed out.old at (rest_mark word.now) out.new result × (result ≤ at + 2) }
{
    if word.len() <= SHOWN_MOST {
        return at;
    }
    text::put_bytes(out, at, b"..")
}

// A word in quotes.
pub fn put_quoted(out: &mut [u8], at: usize, word: &[u8]) -> usize
    requires { at + quoted_most ≤ length out.old }
    ensures { Placed out.old at (quoted word.now) out.new result × (result ≤ at + quoted_most) }
{
    let opened = text::put_byte(out, at, b'"');
    let shown = put_shown(out, opened, word);
    let end = put_rest_mark(out, shown, word);
    text::put_byte(out, end, b'"')
}
