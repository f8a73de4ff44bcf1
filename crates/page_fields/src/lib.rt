// A field of the printed page: a number with its decimals, or a text, at the field's right end. Places count from the right.
#![tactic(auto)]

ghost use Rattle.std.specs.Prelude.{◌≡◌, ◌-◌, ◌%◌, ◌≤◌, ◌<◌};
ghost use Rattle.page_fields.specs.Fields.{field_width, last_place, no_name, dropped, digit_byte, number_byte, decimals_of};
ghost use Rattle.page_fields.specs.Fields.{field_text, pick_field, column_field, shown};

// Room for every digit of a number and the point.
pub const FIELD_WIDTH: usize = 11;

// The place at its left end.
pub const LAST_PLACE: usize = FIELD_WIDTH - 1;

// A place of a field, so many from its right end.
#[derive(Clone, Copy)]
pub struct Place {
    pub from_right: usize,
    pub ghost in_field: { from_right < field_width },
}

impl Place {
    // The place of byte i of fields that stand side by side.
    pub fn at(i: usize) -> Place
        ensures { result.from_right ≡ last_place - i % field_width }
    {
        Place {
            from_right: LAST_PLACE - i % FIELD_WIDTH,
        }
    }
}

// Where the texts of each sort begin. A text is told by its row of the table: an enum would name the rows a second time.
const NOT_ALLOWED: usize = 0;

const PICK_NAMES: usize = NOT_ALLOWED + 1;

const APPROACH_NAMES: usize = PICK_NAMES + layout::PICK;

const PAIR_NAMES: usize = APPROACH_NAMES + layout::APPROACHES;

pub const NO_SHEET: usize = PAIR_NAMES + layout::PAIRS;

const FROM_TABLE: usize = NO_SHEET + 1;

const NO_NAME: usize = FROM_TABLE + 1;

const FIELDS: [u8; FIELD_WIDTH * (NO_NAME + 1)] = *b"\x20        NA\
    \x20 protected\
    \x20 permitted\
    \x20     split\
    \x20        EB\
    \x20        WB\
    \x20        NB\
    \x20        SB\
    \x20     EB-WB\
    \x20     NB-SB\
    \x20      none\
    \x20     table\
    \x20          ";

// A to H.
const LETTERS: u32 = 8;

// A number without its last digits.
fn dropped(number: u32, digits: usize) -> u32
    ensures { result ≡ dropped number digits }
{
    let mut left = number;
    for _ in 0..digits {
        left /= 10;
    }
    left
}

// The digit that has so many after it; a blank before the first that is shown.
#[tactic(auto, unfolding(crate::specs::Fields::digit_byte))]
fn digit_byte(number: u32, decimals: usize, place: usize) -> u8
    ensures { result ≡ digit_byte number decimals place }
{
    let left = dropped(number, place);
    if decimals < place && left == 0 {
        return b' ';
    }
    b'0' + (left % 10) as u8
}

// Place p of a number with decimals.
#[tactic(auto, unfolding(crate::specs::Fields::number_byte))]
fn number_byte(number: u32, decimals: usize, p: usize) -> u8
    ensures { result ≡ number_byte number decimals p }
{
    if decimals == 0 || p < decimals {
        return digit_byte(number, decimals, p);
    }
    if p == decimals {
        return b'.';
    }
    digit_byte(number, decimals, p - 1)
}

// Times are ms and shown in seconds, factors and shares ten-thousandths, a measured lane factor thousandths, flows parts of a vehicle per
// hour, the ICU tenths of a percent.
fn decimals_of(unit: u8) -> usize
    ensures { result ≡ decimals_of unit }
{
    match unit {
        b's' => 3,
        b'f' => 4,
        b'F' => 3,
        b'V' => units::FLOW_DECIMALS,
        b'%' => 1,
        _ => 0,
    }
}

// A place of one of the texts.
pub fn field_text(field: usize, place: Place) -> u8
    requires { field ≤ no_name }
    ensures { result ≡ field_text field place.from_right }
{
    FIELDS[FIELD_WIDTH * field + (LAST_PLACE - place.from_right)]
}

// The name of a pick: protected, permitted, split.
fn pick_field(value: u32) -> usize
    ensures { (result ≡ pick_field value) × (result ≤ no_name) }
{
    PICK_NAMES + (value as usize).min(layout::PICK - 1)
}

// A column's name: an approach, a pair, or none for the junction.
pub fn column_field(columns: usize, column: usize) -> usize
    ensures { (result ≡ column_field columns column) × (result ≤ no_name) }
{
    match columns {
        layout::APPROACHES => APPROACH_NAMES + column % layout::APPROACHES,
        layout::PAIRS => PAIR_NAMES + column % layout::PAIRS,
        _ => NO_NAME,
    }
}

// A place of a cell's value. Units are the bytes that the titles print: an enum of them would be one table more.
#[tactic(auto, unfolding(crate::specs::Fields::shown))]
pub fn shown(unit: u8, value: u32, place: Place) -> u8
    ensures { result ≡ shown unit value place.from_right }
{
    match unit {
        b'*' => field_text(pick_field(value), place),
        b'A' if place.from_right == 0 => b'A' + (value % LETTERS) as u8,
        b'A' => b' ',
        b's' if value == layout::BLANK => field_text(NOT_ALLOWED, place),
        b'F' if value == 0 => field_text(FROM_TABLE, place),
        _ => number_byte(value, decimals_of(unit), place.from_right),
    }
}
