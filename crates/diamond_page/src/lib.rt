// A diamond's printed page, byte by byte, from the list of the page's numbers.
#![tactic(auto)]

ghost use Rattle.std.specs.Prelude.{◌≡◌, ◌<◌};
ghost use Rattle.page.specs.Worksheet.{star_over};
ghost use Rattle.diamond_form.specs.Form.{row_count, row_width};
ghost use Rattle.diamond_page.specs.Page.{answer_byte, value_byte, starred, starred_at, field_byte, row_byte, diamond_text};

use diamond_form::{Column, Line, PART_ROWS, ROW_END, ROW_WIDTH};
use page_fields::{FIELD_WIDTH, LAST_PLACE, Place};
use page_form::TITLE_WIDTH;
use page_stars::value_of;

pub const PAGE_BYTES: usize = diamond_form::ROWS * ROW_WIDTH;

// Whether a ratio is below 1.
const NO: [u8; FIELD_WIDTH] = *b"         no";

const YES: [u8; FIELD_WIDTH] = *b"        yes";

// The cell that says which of the plans before it is picked.
const PICK_PLACE: usize = layout::PAGE_DIAMOND + layout::PLAN_PICK;

// A place of an answer: no for 0, else yes.
fn answer_byte(value: u32, place: Place) -> u8
    ensures { result ≡ answer_byte value place.from_right }
{
    if value == 0 {
        NO[LAST_PLACE - place.from_right]
    } else {
        YES[LAST_PLACE - place.from_right]
    }
}

// A place of a number by its unit.
fn value_byte(unit: u8, value: u32, place: Place) -> u8
    ensures { result ≡ value_byte unit value place.from_right }
{
    if unit == b'y' {
        return answer_byte(value, place);
    }
    page_fields::shown(unit, value, place)
}

// Whether the number at a place is the picked plan's time.
fn is_starred(numbers: &[u32], place: usize) -> bool
    ensures { result ≡ starred numbers.now place }
{
    let picked = value_of(numbers, PICK_PLACE) as usize;
    place < PICK_PLACE && place == layout::PAGE_DIAMOND + layout::PLAN_FROM + picked
}

// A place of a number's field, which is such a byte; the star goes over a blank only.
fn star_byte(numbers: &[u32], number: usize, place: Place, byte: u8) -> u8
    ensures { result ≡ star_over (starred_at numbers.now number place.from_right) byte }
{
    let star = place.from_right == page::STAR_PLACE && is_starred(numbers, number);
    page::star_over(star, byte)
}

// A place of a field: a number where the row has a mark in the column, else blank.
#[tactic(auto, unfolding(crate::specs::Page::field_byte))]
fn field_byte(numbers: &[u32], line: Line, column: Column, place: Place) -> u8
    ensures { result ≡ field_byte numbers.now line.number column.side column.number place.from_right }
{
    if line.mark_in(column) == b' ' {
        return b' ';
    }
    let number = line.number_in(column);
    let byte = value_byte(line.unit(), value_of(numbers, number), place);
    star_byte(numbers, number, place, byte)
}

// Byte i of a row: the line feed, a byte of a heading, of a title or of a field.
#[tactic(auto, unfolding(crate::specs::Page::row_byte))]
fn row_byte(numbers: &[u32], row: usize, i: usize) -> u8
    requires { (row < row_count) × (i < row_width) }
    ensures { result ≡ row_byte numbers.now row i }
{
    if i == ROW_END {
        return b'\n';
    }
    let part = row / PART_ROWS;
    if row % PART_ROWS == 0 {
        return diamond_form::heading_byte(part, i);
    }
    let line = Line::of(row);
    if i < TITLE_WIDTH {
        return line.byte(i);
    }
    let at = i - TITLE_WIDTH;
    let column = Column::new(part, at / FIELD_WIDTH);
    field_byte(numbers, line, column, Place::at(at))
}

// Writes the page of a diamond, from the list of its numbers.
pub fn print(numbers: &[u32], out: &mut [u8; PAGE_BYTES])
    ensures { out.new ≡ diamond_text numbers.now }
{
    for i in 0..PAGE_BYTES {
        out[i] = row_byte(numbers, i / ROW_WIDTH, i % ROW_WIDTH);
    }
}
