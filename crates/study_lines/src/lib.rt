// The lines of a listing: one for a site, rated or refused, or the one of a bad file.
#![tactic(auto)]

ghost use Rattle.std.specs.Prelude.{◌≡◌, ◌+◌, ◌≤◌, length};
ghost use Rattle.text.specs.Text.{Placed};
ghost use Rattle.study_lines.specs.Lines.{letter_byte, phasing_byte, rated_line, refused_line, line_of, file_line};
ghost use Rattle.study_lines.specs.Working.{letter_most, line_most, Lettered};

use answers::Refusal;

// No line is longer: three numbers, each with a byte past it, and a byte.
pub const LINE_BYTES: usize = 3 * (text::DIGITS_MOST + 1) + 1;

// The ICU and its letter, and the picks of EB–WB and NB–SB.
#[derive(Clone, Copy)]
pub struct Rating {
    pub icu: u32,
    pub letter: u32,
    pub first: u32,
    pub second: u32,
}

// Why a site has no rating, and at which place.
#[derive(Clone, Copy)]
pub struct Refused {
    pub why: Refusal,
    pub place: u32,
}

fn letter_byte(letter: u32) -> u8
    requires { letter ≤ letter_most }
    ensures { result ≡ letter_byte letter }
{
    b'A' + letter as u8
}

fn phasing_byte(pick: u32) -> u8
    ensures { result ≡ phasing_byte pick }
{
    match pick {
        0 => b'P',
        1 => b'M',
        _ => b'S',
    }
}

fn put_rated(out: &mut [u8], at: usize, number: u32, rating: Rating) -> usize
    requires { (rating.letter ≤ letter_most) × (at + line_most ≤ length out.old) }
    ensures { Placed out.old at (rated_line number rating) out.new result }
{
    let letter = letter_byte(rating.letter);
    let first = phasing_byte(rating.first);
    let second = phasing_byte(rating.second);
    let numbered = text::put_number_then(out, at, number, b' ');
    let rated = text::put_number_then(out, numbered, rating.icu, b' ');
    text::put_bytes(out, rated, &[letter, b' ', first, second, b'\n'])
}

fn put_refused(out: &mut [u8], at: usize, number: u32, site: Refused) -> usize
    requires { at + line_most ≤ length out.old }
    ensures { Placed out.old at (refused_line number site.why site.place) out.new result }
{
    let refusal = site.why.number();
    let numbered = text::put_number_then(out, at, number, b' ');
    let marked = text::put_byte(out, numbered, b'R');
    let refused = text::put_number_then(out, marked, refusal, b' ');
    text::put_number_then(out, refused, site.place, b'\n')
}

// A site's line: its rating, or why it has none.
pub fn put_line(out: &mut [u8], at: usize, number: u32, site: Result<Rating, Refused>) -> usize
    requires { Lettered site × (at + line_most ≤ length out.old) }
    ensures { Placed out.old at (line_of number site) out.new result }
{
    match site {
        Ok(rating) => put_rated(out, at, number, rating),
        Err(refused) => put_refused(out, at, number, refused),
    }
}

pub fn put_bad_file(out: &mut [u8], place: u32) -> usize
    requires { line_most ≤ length out.old }
    ensures { Placed out.old 0 (file_line place) out.new result }
{
    let marked = text::put_bytes(out, 0, b"file R6 ");
    text::put_number_then(out, marked, place, b'\n')
}
