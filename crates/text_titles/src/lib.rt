// What may stand at the front of a junction's text before its entries: blanks and comments, and a title in quotes.
#![tactic(auto)]

ghost use Rattle.std.specs.Prelude.{◌≡◌, false, ◌+◌, ◌≤◌, length, get_or, take, drop};
ghost use Rattle.text.specs.Text.{first_in};
ghost use Rattle.text_titles.specs.Blanks.{is_blank, ends_word, is_lead, goes_on, lead_size};
ghost use Rattle.text_titles.specs.Titles.{steers, ends_title, ends_gap, is_title_size, is_quoted, titled_at, titling_of, title_of};

// The most bytes of a title.
pub const TITLE_MOST: usize = 60;

// The bytes of the word `title`.
const WORD_BYTES: usize = 5;

// Each byte below it steers a terminal.
const FIRST_PRINTED: u8 = b' ';

// Where a text's title stands: its place, its bytes, and the place past its quote.
#[derive(Clone, Copy, PartialEq, Eq, Debug)]
pub struct Title {
    pub from: usize,
    pub size: usize,
    pub past: usize,
}

pub fn is_blank(byte: u8) -> bool
    ensures { result ≡ is_blank byte }
{
    matches!(byte, b' ' | b'\t' | b'\r' | b'\n')
}

// Whether a byte ends the word before it.
pub fn ends_word(byte: u8) -> bool
    ensures { result ≡ ends_word byte }
{
    is_blank(byte) || byte == b'#'
}

// Whether past a byte a comment goes on, or begins there.
pub fn goes_on(comments: bool, byte: u8) -> bool
    ensures { result ≡ goes_on comments byte }
{
    if comments {
        byte != b'\n'
    } else {
        byte == b'#'
    }
}

// The byte at a place; 0 past the end.
fn byte_at(text: &[u8], place: usize) -> u8
    ensures { result ≡ get_or text.now place 0 }
{
    text.get(place).copied().unwrap_or(0)
}

// A text past some of its bytes; nothing, where it has no more.
fn past(text: &[u8], bytes: usize) -> &[u8]
    ensures { result.now ≡ drop bytes text.now }
{
    &text[bytes.min(text.len())..]
}

// The bytes from a place on, so many as there are.
fn part_of(text: &[u8], from: usize, size: usize) -> &[u8]
    ensures { result.now ≡ take size (drop from text.now) }
{
    let rest = past(text, from);
    &rest[..size.min(rest.len())]
}

// Whether a byte is passed over at the front of a text.
fn is_lead(comments: bool, byte: u8) -> bool
    ensures { result ≡ is_lead comments byte }
{
    comments || ends_word(byte)
}

// The blanks and comments at the front of a text.
fn lead_size(text: &[u8]) -> usize
    ensures { (result ≡ lead_size false text.now) × (result ≤ length text.now) }
{
    let mut comments = false;
    for (at, byte) in text.iter().enumerate() {
        if !is_lead(comments, *byte) {
            return at;
        }
        comments = goes_on(comments, *byte);
    }
    text.len()
}

// Whether a byte steers a terminal.
pub fn is_steering(byte: u8) -> bool
    ensures { result ≡ steers byte }
{
    byte < FIRST_PRINTED || byte == b'\x7F'
}

// Whether a byte may not stand in a title: a quote, and what steers a terminal.
fn ends_title(byte: u8) -> bool
    ensures { result ≡ ends_title byte }
{
    is_steering(byte) || byte == b'"'
}

// The blanks at the front of a text.
fn gap_size(text: &[u8]) -> usize
    ensures { (result ≡ first_in ends_gap text.now) × (result ≤ length text.now) }
{
    let end = text.iter().position(|byte| !is_blank(*byte));
    end.unwrap_or(text.len())
}

// The bytes of a title, which stand at the front of a text.
fn title_size(text: &[u8]) -> usize
    ensures { (result ≡ first_in ends_title text.now) × (result ≤ length text.now) }
{
    let end = text.iter().position(|byte| ends_title(*byte));
    end.unwrap_or(text.len())
}

// Whether a title may have so many bytes.
fn is_title_size(size: usize) -> bool
    ensures { result ≡ is_title_size size }
{
    size != 0 && size <= TITLE_MOST
}

// Whether what stands past the word `title` is blanks, a quote, a title's bytes, and a quote.
#[tactic(auto, unfolding(crate::specs::Titles::is_quoted))]
fn is_quoted(rest: &[u8], gap: usize, inner: &[u8], size: usize) -> bool
    ensures { result ≡ is_quoted rest.now gap inner.now size }
{
    gap != 0 && byte_at(rest, gap) == b'"' && is_title_size(size) && byte_at(inner, size) == b'"'
}

// A title past blanks and comments, the word `title`, blanks and a quote.
fn titled(text: &[u8], lead: usize, gap: usize, size: usize) -> Title
    requires { lead + gap + size ≤ length text.now }
    ensures { result ≡ titled_at lead gap size }
{
    let from = lead + WORD_BYTES + gap + 1;
    Title {
        from,
        size,
        past: from + size + 1,
    }
}

// Where a text's title stands, if it has one; else the place of the word `title` that no title in quotes follows.
pub fn titling_of(text: &[u8]) -> Result<Option<Title>, usize>
    ensures { result ≡ titling_of text.now }
{
    let lead = lead_size(text);
    let word = past(text, lead);
    let Some(rest) = word.strip_prefix(b"title") else {
        return Ok(None);
    };
    let gap = gap_size(rest);
    let inner = past(rest, gap + 1);
    let size = title_size(inner);
    if !is_quoted(rest, gap, inner, size) {
        return Err(lead);
    }
    Ok(Some(titled(text, lead, gap, size)))
}

// The title of a text, a part of the lent text; nothing, if it has none.
pub fn title_in(text: &[u8]) -> &[u8]
    ensures { result.now ≡ title_of text.now }
{
    match titling_of(text) {
        Ok(Some(title)) => part_of(text, title.from, title.size),
        Ok(None) | Err(_) => &[],
    }
}
