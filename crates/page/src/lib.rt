// A sheet of a kind as a printed worksheet, and what an amendment changed, byte by byte.
#![tactic(auto)]

ghost use Rattle.std.specs.Prelude.{◌≡◌, ◌+◌, ◌≤◌, length};
ghost use Rattle.lists.specs.Lists.{table, over};
ghost use Rattle.text.specs.Text.{Placed};
ghost use Rattle.page.specs.Worksheet.{star_over, starred_at, field_byte, row_width, in_row, row_byte, sheet_text};
ghost use Rattle.page.specs.Worksheet.{shown_cell, held_cell, change_field, change_byte, is_listed, change_text};

use layout::Worksheet;
use page_fields::Place;
use page_form::Row;
use page_stars::{Sheet, value_of};

// A row is a title, a field for each approach and a line feed.
const ROW_END: usize = page_form::TITLE_WIDTH + page_fields::FIELD_WIDTH * layout::APPROACHES;

pub const ROW_WIDTH: usize = ROW_END + 1;

// Room for the larger page, a junction's.
pub const SHEET_BYTES: usize = page_form::ROWS * ROW_WIDTH;

// Room for a heading and a row for each cell of the larger sheet.
pub const CHANGE_BYTES: usize = ROW_WIDTH * (layout::CELLS + 1);

const CHANGE_HEAD: [u8; ROW_WIDTH] =
    *b"no changed cell              book :      where     before      after           \n";

// Before the star stands a blank, which parts its field from the one at its left.
pub const STAR_PLACE: usize = page_fields::LAST_PLACE - 1;

// The ICU and the letter are a sheet's last cells.
const TO_ICU: usize = layout::ICU_CELL - layout::LAST_FROM;

// The star goes over a blank only.
pub fn star_over(star: bool, byte: u8) -> u8
    ensures { result ≡ star_over star byte }
{
    if star && byte == b' ' { b'*' } else { byte }
}

// A place of a cell's field, which is such a byte, with the star where the cell has one.
fn star_byte(sheet: Sheet, cell: usize, place: Place, byte: u8) -> u8
    ensures { result
        ≡ star_over (starred_at sheet.entry.kind sheet.entry.cells.now cell place.from_right) byte }
{
    let star = place.from_right == STAR_PLACE && sheet.is_starred(cell);
    star_over(star, byte)
}

// A place of a field: a heading's name, a cell's value, or blank past the last column.
#[tactic(auto, unfolding(crate::specs::Worksheet::field_byte))]
fn field_byte(row: Row, cells: &[u32], column: usize, place: Place) -> u8
    ensures { result ≡ field_byte row.kind cells.now row.number column place.from_right }
{
    let section = row.section();
    let unit = row.unit();
    if section.columns <= column {
        return b' ';
    }
    if unit == b':' {
        return page_fields::field_text(page_fields::column_field(section.columns, column), place);
    }
    let cell = row.cell_in(column);
    let byte = page_fields::shown(unit, value_of(cells, cell), place);
    let sheet = Sheet {
        kind: row.kind,
        cells,
    };
    star_byte(sheet, cell, place, byte)
}

// Byte i of a row: of its title, of a field, or the line feed.
#[tactic(auto, unfolding(crate::specs::Worksheet::in_row))]
fn in_row(row: Row, i: usize, field: u8) -> u8
    ensures { result ≡ in_row row.kind row.number i field }
{
    if i == ROW_END {
        return b'\n';
    }
    if i < page_form::TITLE_WIDTH {
        return page_form::title_byte(row.kind, page_form::TITLE_WIDTH * row.number + i);
    }
    field
}

#[tactic(auto, unfolding(crate::specs::Worksheet::row_byte))]
fn row_byte(row: Row, cells: &[u32], i: usize) -> u8
    ensures { result ≡ row_byte row.kind cells.now row.number i }
{
    let at = i.saturating_sub(page_form::TITLE_WIDTH);
    let field = field_byte(row, cells, at / page_fields::FIELD_WIDTH, Place::at(at));
    in_row(row, i, field)
}

// Writes a sheet as a worksheet: its cells, and after them in the list what stands beside them; and says how many bytes.
pub fn print(kind: Worksheet, cells: &[u32], out: &mut [u8; SHEET_BYTES]) -> usize
    ensures { Placed out.old 0 (sheet_text kind cells.now) out.new result }
{
    let bytes = page_form::rows(kind) * ROW_WIDTH;
    for i in 0..bytes {
        out[i] = row_byte(Row::new(kind, i / ROW_WIDTH), cells, i % ROW_WIDTH);
    }
    bytes
}

// A place of a cell, as its row shows it.
fn shown_cell(kind: Worksheet, cells: &[u32], cell: usize, place: Place) -> u8
    ensures { result ≡ shown_cell kind cells.now cell place.from_right }
{
    page_fields::shown(Row::of(kind, cell).unit(), value_of(cells, cell), place)
}

// Of the sheet before, which has no cells where there was none.
fn held_cell(kind: Worksheet, before: &[u32], cell: usize, place: Place) -> u8
    ensures { result ≡ held_cell kind before.now cell place.from_right }
{
    if before.len() <= cell {
        return page_fields::field_text(page_fields::NO_SHEET, place);
    }
    shown_cell(kind, before, cell, place)
}

// A sheet before and after an amendment.
#[derive(Clone, Copy)]
struct Amended<'a> {
    kind: Worksheet,
    before: &'a [u32],
    after: &'a [u32],
}

impl Amended<'_> {
    // Whose the cell is, what it held and what it holds.
    #[tactic(auto, unfolding(crate::specs::Worksheet::change_field))]
    fn field_byte(self, cell: usize, field: usize, place: Place) -> u8
        ensures { result
            ≡ change_field self.entry.kind self.entry.before.now self.entry.after.now cell field place.from_right }
    {
        match field {
            0 => {
                let columns = page_form::Section::of(self.kind, cell).columns;
                let column = page_form::column_of(self.kind, cell);
                page_fields::field_text(page_fields::column_field(columns, column), place)
            }
            1 => held_cell(self.kind, self.before, cell, place),
            2 => shown_cell(self.kind, self.after, cell, place),
            _ => b' ',
        }
    }

    #[tactic(auto, unfolding(crate::specs::Worksheet::change_byte))]
    fn row_byte(self, cell: usize, i: usize) -> u8
        ensures { result
            ≡ change_byte self.entry.kind self.entry.before.now self.entry.after.now cell i }
    {
        let at = i.saturating_sub(page_form::TITLE_WIDTH);
        let field = self.field_byte(cell, at / page_fields::FIELD_WIDTH, Place::at(at));
        in_row(Row::of(self.kind, cell), i, field)
    }

    // The ICU and the letter are listed also where they stay; every cell, where there was no sheet before.
    fn is_listed(self, cell: usize) -> bool
        ensures { result
            ≡ is_listed self.entry.kind self.entry.before.now self.entry.after.now cell }
    {
        let icu = self.kind.last_from() + TO_ICU;
        self.before.len() <= cell
            || value_of(self.before, cell) != value_of(self.after, cell)
            || icu <= cell
    }

    // Writes a cell's row at a place.
    fn put_row(self, cell: usize, out: &mut [u8], at: usize)
        requires { at + row_width ≤ length out.old }
        ensures { out.new
            ≡ over out.old at (table (change_byte self.entry.kind self.entry.before.now self.entry.after.now cell) row_width) }
    {
        for i in 0..ROW_WIDTH {
            out[at + i] = self.row_byte(cell, i);
        }
    }
}

// Writes a row for each cell in which two sheets differ, and for the ICU and the letter; and says how many bytes.
pub fn changes(
    kind: Worksheet,
    before: &[u32],
    after: &[u32],
    out: &mut [u8; CHANGE_BYTES],
) -> usize
    ensures out_after { out.new ≡ over out.old 0 (change_text kind before.now after.now) }
    ensures value { result ≡ length (change_text kind before.now after.now) }
{
    let amended = Amended {
        kind,
        before,
        after,
    };
    let mut at = text::put_bytes(out, 0, &CHANGE_HEAD);
    for cell in 0..kind.cells() {
        if amended.is_listed(cell) {
            amended.put_row(cell, out, at);
            at += ROW_WIDTH;
        }
    }
    at
}
