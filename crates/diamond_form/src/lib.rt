// The form of a diamond's printed page: tables of its rows, and which number of the page's list stands in a column of a row.
#![tactic(auto)]

ghost use Rattle.std.specs.Prelude.{◌≡◌, ◌≤◌, ◌<◌};
ghost use Rattle.layout.specs.Entries.{movement_count};
ghost use Rattle.layout.specs.Diamond.{side_count, side_times};
ghost use Rattle.diamond_form.specs.Form.{row_end, heading_byte, movement_in, place_of};
ghost use Rattle.diamond_form.specs.Form.{form_width, form_byte, unit_of, mark_in, first_of, number_in};
ghost use Rattle.diamond_form.specs.Form.{row_count, line_of, form_row};
ghost use Rattle.diamond_form.specs.Working.{Near, form_count};

use layout::{EB, GROUPS, NB, SB, WB};
use page_fields::FIELD_WIDTH;
use page_form::TITLE_WIDTH;

// A row is a title, a field for each column of a side and a line feed.
pub const ROW_END: usize = TITLE_WIDTH + FIELD_WIDTH * layout::SIDE_TIMES;

pub const ROW_WIDTH: usize = ROW_END + 1;

// The rows under a side's heading, and under that of the whole.
const SIDE_LINES: usize = 24;

const WHOLE_LINES: usize = 12;

const FORM_ROWS: usize = SIDE_LINES + WHOLE_LINES;

const MARKS_FROM: usize = TITLE_WIDTH + 1;

const FORM_WIDTH: usize = MARKS_FROM + layout::SIDE_TIMES;

// A heading and the rows of a side.
pub const PART_ROWS: usize = 1 + SIDE_LINES;

pub const ROWS: usize = PART_ROWS * layout::SIDES + (1 + WHOLE_LINES);

// The west junction, the east and the whole.
const PARTS: usize = layout::SIDES + 1;

// Over the rows of each part.
const HEADINGS: [u8; ROW_END * PARTS] =
    *b"no west junction             book :        EBT        EBR        WBL        WBT        SBL        SBT        SBR\
    no east junction             book :        WBT        WBR        EBL        EBT        NBL        NBT        NBR\
    no interchange               book :       west       east                                                       ";

// Each row under them: its title, which is its number in the rules, its name, its line in the book and its unit; a blank; and a
// mark for each column, which says what stands there.
const FORM: [u8; FORM_WIDTH * FORM_ROWS] = *b"\x20  lanes                        2 n mmmmmmm\
    \x20  shared lane                  3 n a  a a \
    \x20  volume                       4 v mmmmmmm\
    \x20  pedestrians                  5 p a  a a \
    \x20  push button                  6 n a  a a \
    \x20  pedestrian time              7 s a  a a \
    \x20  free right                   8 n  a    a\
    \x20  ideal flow                   9 v mmmmmmm\
    \x20  storage                     10 n   s s  \
    \x20  lost time                   11 s mmmmmmm\
    \x20  minimum green               12 s mmmmmmm\
    1  volume combined             16 v ggggggg\
    \x20  lane factor                 17 F mmmmmmm\
    4  turning factor              18 f l  l l \
    5  flow                        19 V ggggggg\
    10 interference, right         20 s  l    l\
    11 interference, through       20 s l  l l \
    12 pedestrian frequency        21 f l  l l \
    13 reference time              22 s ggggggg\
    16 adjusted time               23 s ggggggg\
    \x20  interchange time            24 s ttttttt\
    \x20  left volume x cycle, N      25 n   s s  \
    \x20  3600 x storage              26 n   s s  \
    \x20  ratio below 1               27 y   s s  \
    \x20  isolated time 1             28 s ww     \
    \x20  isolated alternate          29 s ww     \
    \x20  isolated combined           30 s ww     \
    \x20  overlap                     31 s ww     \
    \x20  cycle, in seconds           13 n w      \
    \x20  travel time                 14 s w      \
    \x20  leading alternate           32 s w      \
    \x20  lagging                     33 s w      \
    \x20  lead-lag                    34 s w      \
    \x20  best                        35 s w      \
    \x20  ICU                         36 % w      \
    \x20  level of service            37 A w      ";

// Where in the page's list the numbers of each row begin, or which entry or line of a movement or an approach they are.
const FIRSTS: [usize; FORM_ROWS] = [
    layout::LANES_NO,
    layout::SHARED_NO,
    layout::VOLUME_NO,
    layout::WALKERS_NO,
    layout::BUTTON_NO,
    layout::CROSSING_NO,
    layout::FREE_NO,
    layout::IDEAL_NO,
    layout::PAGE_OWN,
    layout::LOST_NO,
    layout::GREEN_NO,
    1,
    layout::FACTOR_NO,
    4,
    5,
    10,
    11,
    12,
    13,
    16,
    layout::PAGE_DIAMOND,
    layout::PAGE_VOLUMES,
    layout::PAGE_ROOMS,
    layout::PAGE_FITS,
    layout::PAGE_DIAMOND + layout::ISOLATED_CELL,
    layout::PAGE_DIAMOND + layout::ALTERNATE_CELL,
    layout::PAGE_DIAMOND + layout::COMBINED_FROM,
    layout::PAGE_DIAMOND + layout::OVERLAP_CELL,
    layout::CYCLE_ENTRY,
    layout::PAGE_OWN + layout::STORAGES,
    layout::PAGE_DIAMOND + layout::PLAN_FROM,
    layout::PAGE_DIAMOND + layout::PLAN_FROM + 1,
    layout::PAGE_DIAMOND + layout::PLAN_FROM + 2,
    layout::PAGE_DIAMOND + layout::BEST_CELL,
    layout::PAGE_DIAMOND + layout::DIAMOND_ICU,
    layout::PAGE_DIAMOND + layout::DIAMOND_LETTER,
];

// Left, through and right.
const LEFT: usize = 0;

const THROUGH: usize = 1;

const RIGHT: usize = 2;

// The movements that the columns of a side are of: the west's, then the east's.
const MOVEMENTS: [usize; layout::SIDE_TIMES * layout::SIDES] = [
    GROUPS * EB + THROUGH,
    GROUPS * EB + RIGHT,
    GROUPS * WB + LEFT,
    GROUPS * WB + THROUGH,
    GROUPS * SB + LEFT,
    GROUPS * SB + THROUGH,
    GROUPS * SB + RIGHT,
    GROUPS * WB + THROUGH,
    GROUPS * WB + RIGHT,
    GROUPS * EB + LEFT,
    GROUPS * EB + THROUGH,
    GROUPS * NB + LEFT,
    GROUPS * NB + THROUGH,
    GROUPS * NB + RIGHT,
];

// The lefts stand two columns apart, from this one on.
const FIRST_LEFT: usize = 2;

// Byte i of the heading of a part.
pub fn heading_byte(part: usize, i: usize) -> u8
    requires { (part ≤ side_count) × (i < row_end) }
    ensures { result ≡ heading_byte part i }
{
    HEADINGS[ROW_END * part + i]
}

// A column of a side; the whole is told by the number past the last side's.
#[derive(Clone, Copy)]
pub struct Column {
    pub side: usize,
    pub number: usize,
    pub ghost of_part: { side ≤ side_count },
    pub ghost in_side: { number < side_times },
}

impl Column {
    pub fn new(side: usize, number: usize) -> Column
        requires { (side ≤ side_count) × (number < side_times) }
        ensures { (result.side ≡ side) × (result.number ≡ number) }
    {
        Column { side, number }
    }

    // The movement that it is of.
    fn movement(self) -> usize
        ensures { (result ≡ movement_in self.side self.number) × (result < movement_count) }
    {
        let at = layout::SIDE_TIMES * self.side + self.number;
        MOVEMENTS.get(at).copied().unwrap_or(0)
    }
}

// A row of the form, which is no heading.
#[derive(Clone, Copy)]
pub struct Line {
    pub number: usize,
    pub ghost in_form: { number < form_count },
}

impl Line {
    // Of a row of the page.
    pub fn of(row: usize) -> Line
        requires { (row < row_count) × (0 < line_of row) }
        ensures { result.number ≡ form_row row }
    {
        let line = row % PART_ROWS - 1;
        let before = if row / PART_ROWS < layout::SIDES {
            0
        } else {
            SIDE_LINES
        };
        Line {
            number: before + line,
        }
    }

    // Byte i of it.
    pub fn byte(self, i: usize) -> u8
        requires { i < form_width }
        ensures { result ≡ form_byte self.number i }
    {
        FORM[FORM_WIDTH * self.number + i]
    }

    // Its unit is its title's last byte.
    pub fn unit(self) -> u8
        ensures { result ≡ unit_of self.number }
    {
        self.byte(TITLE_WIDTH - 1)
    }

    // What stands in a column. The marks are the form's own bytes: an enum of them would be one table more.
    pub fn mark_in(self, column: Column) -> u8
        ensures { result ≡ mark_in self.number column.number }
    {
        self.byte(MARKS_FROM + column.number)
    }

    fn first(self) -> usize
        ensures { (result ≡ first_of self.number) × Near result }
    {
        FIRSTS[self.number]
    }

    // Where in the page's list the number in a column stands.
    pub fn number_in(self, column: Column) -> usize
        ensures { result ≡ number_in self.number column.side column.number }
    {
        place_of(self.mark_in(column), self.first(), column)
    }
}

// The place in the page's list of what a mark says.
#[tactic(auto, unfolding(crate::specs::Form::place_of))]
fn place_of(mark: u8, first: usize, column: Column) -> usize
    requires { Near first }
    ensures { result ≡ place_of mark first column.side column.number }
{
    let sheet = layout::CELLS * column.side;
    let movement = column.movement();
    let approach = movement / GROUPS;
    let line = layout::LINES_FROM + layout::LINES * approach + first.saturating_sub(1);
    match mark {
        b'm' => sheet + (layout::MOVEMENT_ENTRIES * movement + first),
        b'a' => sheet + (layout::APPROACHES_FROM + layout::APPROACH_ENTRIES * approach + first),
        b'g' => sheet + (line + movement % GROUPS),
        b'l' => sheet + line,
        b't' => first + layout::SIDE_TIMES * column.side + column.number,
        b's' => first + column.side + column.number.saturating_sub(FIRST_LEFT),
        _ => first + column.number,
    }
}
