// Where a byte of a text stands, told in words.
#![tactic(auto)]

ghost use Rattle.std.specs.Prelude.{◌≡◌, ◌≤◌, length};
ghost use Rattle.text.specs.Text.{Placed};
ghost use Rattle.text_places.specs.Places.{more, line_at, column_at, within, place_text};
ghost use Rattle.text_places.specs.Working.{place_most};

// A line and a column of a text, from 1.
#[derive(Clone, Copy)]
struct Position {
    line: u32,
    column: u32,
}

// The largest number of 32 bits.
const LAST: u32 = u32::MAX;

// One more, as far as 32 bits go.
fn more(n: u32) -> u32
    ensures { result ≡ more n }
{
    if n == LAST {
        return n;
    }
    n + 1
}

// A place in a text, or its end for one that lies past it.
fn within(text: &[u8], byte: usize) -> usize
    ensures { result ≡ within text.now byte }
{
    if byte < text.len() {
        return byte;
    }
    text.len()
}

fn position_of(text: &[u8], byte: usize) -> Position
    requires { byte ≤ length text.now }
    ensures { (result.line ≡ line_at text.now byte) × (result.column ≡ column_at text.now byte) }
{
    let mut line: u32 = 1;
    let mut column: u32 = 1;
    let mut i: usize = 0;
    while i < byte {
        if text[i] == b'\n' {
            line = more(line);
            column = 1;
        } else {
            column = more(column);
        }
        i += 1;
    }
    Position { line, column }
}

// The line and the column of a byte, in words, at the front.
pub fn put_place(out: &mut [u8], text: &[u8], byte: usize) -> usize
    requires { place_most ≤ length out.old }
    ensures { Placed out.old 0 (place_text text.now byte) out.new result × (result ≤ place_most) }
{
    let position = position_of(text, within(text, byte));
    let lined = text_phrases::put_numbered(out, 0, b"line ", position.line);
    let placed = text_phrases::put_numbered(out, lined, b", column ", position.column);
    text::put_bytes(out, placed, b": ")
}
