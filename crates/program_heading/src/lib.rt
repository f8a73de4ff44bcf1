// The line over a printed sheet, which tells whose it is.
#![tactic(auto)]

ghost use Rattle.std.specs.Prelude.{◌≡◌, ◌++◌, ◌+◌, ◌≤◌, ◌<◌, length};
ghost use Rattle.text.specs.Text.{Placed};
ghost use Rattle.program_outcome.specs.Outcome.{word_most};
ghost use Rattle.text_numbers.specs.Numbers.{too_large};
ghost use Rattle.program_heading.specs.Headings.{shown_byte, shown, shown_name, titled, worksheet_title, text_heading};
ghost use Rattle.program_heading.specs.Headings.{site_title, feed, site_heading, side_line, diamond_heading};
ghost use Rattle.program_heading.specs.Working.{titled_most, worksheet_most, site_title_most, heading_most, side_most, side_line_most, diamond_most};

use layout::Worksheet;
use program_outcome::WORD_BYTES;

// "single point: ".
const WORKSHEET_BYTES: usize = 14;

// Room for a heading: that, a name, ": ", a title and the lines' ends.
pub const HEADING_BYTES: usize = WORKSHEET_BYTES + WORD_BYTES + text_titles::TITLE_MOST + 4;

// "east: ", on a new line.
const SIDE_BYTES: usize = 7;

// Room for a diamond's: for each junction that, a name, ": " and a title; and the lines' ends.
pub const DIAMOND_BYTES: usize = 2 * (SIDE_BYTES + WORD_BYTES + 2 + text_titles::TITLE_MOST) + 2;

// Which of a study's sites a page is of, from 0; how many there are; and whether the page follows another.
#[derive(Clone, Copy)]
pub struct Spot {
    pub site: u32,
    pub sites: u32,
    pub follows: bool,
}

fn shown_byte(byte: u8) -> u8
    ensures { result ≡ shown_byte byte }
{
    if text_titles::is_steering(byte) {
        return b'?';
    }
    byte
}

fn put_shown(out: &mut [u8], at: usize, name: &[u8]) -> usize
    requires { at + length name.now ≤ length out.old }
    ensures { Placed out.old at (shown name.now) out.new result × (result ≡ at + length name.now) }
{
    for i in 0..name.len() {
        text::put_byte(out, at + i, shown_byte(name[i]));
    }
    at + name.len()
}

fn put_name(out: &mut [u8], at: usize, name: &[u8]) -> usize
    requires { at + word_most ≤ length out.old }
    ensures { Placed out.old at (shown_name name.now) out.new result × (result ≤ at + word_most) }
{
    put_shown(out, at, program_outcome::front(name, WORD_BYTES))
}

fn put_titled(out: &mut [u8], at: usize, title: &[u8]) -> usize
    requires { at + titled_most ≤ length out.old }
    ensures { Placed out.old at (titled title.now) out.new result × (result ≤ at + titled_most) }
{
    if title.len() == 0 {
        return at;
    }
    let parted = text::put_bytes(out, at, b": ");
    text::put_bytes(
        out,
        parted,
        program_outcome::front(title, text_titles::TITLE_MOST),
    )
}

// Puts which worksheet it is, where it is not a junction's.
fn put_worksheet(kind: Worksheet, out: &mut [u8], at: usize) -> usize
    requires { at + worksheet_most ≤ length out.old }
    ensures { Placed out.old at (worksheet_title kind) out.new result × (result ≤ at + worksheet_most) }
{
    let Worksheet::Point = kind else {
        return at;
    };
    text::put_bytes(out, at, b"single point: ")
}

fn put_site_title(out: &mut [u8], at: usize, name: &[u8], site: u32) -> usize
    requires { (at + site_title_most ≤ length out.old) × (site + 1 < too_large) }
    ensures { Placed out.old at (site_title name.now site) out.new result × (result ≤ at + site_title_most) }
{
    let named = put_name(out, at, name);
    text_phrases::put_numbered(out, named, b", site ", site + 1)
}

fn put_feed(out: &mut [u8], spot: Spot) -> usize
    requires { 1 ≤ length out.old }
    ensures { Placed out.old 0 (feed spot) out.new result × (result ≤ 1) }
{
    if spot.follows {
        return text::put_byte(out, 0, b'\x0C');
    }
    0
}

// Puts what stands before the name: the form feed, and past it which worksheet it is.
fn put_begin(kind: Worksheet, out: &mut [u8], spot: Spot) -> usize
    requires { 1 + worksheet_most ≤ length out.old }
    ensures { Placed out.old 0 (feed spot ++ worksheet_title kind) out.new result × (result ≤ 1 + worksheet_most) }
{
    let fed = put_feed(out, spot);
    put_worksheet(kind, out, fed)
}

// Puts the line of a diamond's junction: which it is, the text's name and its title.
fn put_side(out: &mut [u8], at: usize, side: &[u8], name: &[u8], title: &[u8]) -> usize
    requires { (at + side_line_most ≤ length out.old) × (length side.now ≤ side_most) }
    ensures { Placed out.old at (side_line side.now name.now title.now) out.new result
        × (result ≤ at + side_line_most) }
{
    let told = text::put_bytes(out, at, side);
    let named = put_name(out, told, name);
    put_titled(out, named, title)
}

// The heading of the sheet of a text: its name, and its title if it has one.
pub fn head_text(
    kind: Worksheet,
    name: &[u8],
    title: &[u8],
    heading: &mut [u8; HEADING_BYTES],
) -> usize
    ensures { Placed heading.old 0 (text_heading kind name.now title.now) heading.new result
        × (result ≤ heading_most) }
{
    let begun = put_worksheet(kind, heading, 0);
    let named = put_name(heading, begun, name);
    let told = put_titled(heading, named, title);
    text::put_bytes(heading, told, b"\n\n")
}

// What a refusal is said of: a site of a study.
pub fn name_site(name: &[u8], site: u32, title: &mut [u8; HEADING_BYTES]) -> usize
    requires { site + 1 < too_large }
    ensures { Placed title.old 0 (site_title name.now site) title.new result }
{
    put_site_title(title, 0, name, site)
}

// The heading of a site's sheet.
pub fn head_site(
    kind: Worksheet,
    name: &[u8],
    spot: Spot,
    heading: &mut [u8; HEADING_BYTES],
) -> usize
    requires { spot.site + 1 < too_large }
    ensures { Placed heading.old 0 (site_heading kind name.now spot) heading.new result × (result ≤ heading_most) }
{
    let begun = put_begin(kind, heading, spot);
    let told = put_site_title(heading, begun, name, spot.site);
    let counted = text_phrases::put_numbered(heading, told, b" of ", spot.sites);
    text::put_bytes(heading, counted, b"\n\n")
}

// The heading of a diamond's sheet: of each junction the name of its text, and the title if it has one.
pub fn head_diamond(
    west: &[u8],
    westtitle: &[u8],
    east: &[u8],
    easttitle: &[u8],
    heading: &mut [u8; DIAMOND_BYTES],
) -> usize
    ensures { Placed heading.old 0
        (diamond_heading west.now westtitle.now east.now easttitle.now) heading.new result
        × (result ≤ diamond_most) }
{
    let first = put_side(heading, 0, b"west: ", west, westtitle);
    let both = put_side(heading, first, b"\neast: ", east, easttitle);
    text::put_bytes(heading, both, b"\n\n")
}
