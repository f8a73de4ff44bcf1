// The form of the printed worksheet, over the kind of sheet: a table of its rows, and which cells stand in them: a sheet's, and
// those beside it.
#![tactic(auto)]

ghost use Rattle.std.specs.Prelude.{◌≡◌, cond, ◌<◌, ltb};
ghost use Rattle.layout.specs.Entries.{approach_count};
ghost use Rattle.page_form.specs.Form.{titles, title_byte, unit_of, lines, pairs, rights, whole, beside, row_count, end_of, section_by};
ghost use Rattle.page_form.specs.Form.{section_at, section_of, cell_in, row_of, column_of};
ghost use Rattle.page_form.specs.Working.{most_rows, Small};

use layout::Worksheet;

pub const TITLE_WIDTH: usize = 35;

// The rows of a junction's page, the larger: to the last line, then the pairs', the last cells' and those beside, each headed.
pub const ROWS: usize = LINES_ROW
    + layout::LINES
    + (HEADING + layout::PAIR_CELLS)
    + (HEADING + 1 + WHOLE_CELLS)
    + (HEADING + layout::BESIDE_NUMBERS);

const TITLE_BYTES: usize = TITLE_WIDTH * ROWS;

// Each row: its number in the rules, its name, its line in the book and its unit.
static TITLES: [u8; TITLE_BYTES] = *b"no entry                     book :\
    L  lanes                        2 n\
    L  volume                       4 v\
    L  ideal flow                   9 v\
    L  lost time                   10 s\
    L  minimum green               11 s\
    L  lane factor                 15 F\
    T  lanes                        2 n\
    T  volume                       4 v\
    T  ideal flow                   9 v\
    T  lost time                   10 s\
    T  minimum green               11 s\
    T  lane factor                 15 F\
    R  lanes                        2 n\
    R  volume                       4 v\
    R  ideal flow                   9 v\
    R  lost time                   10 s\
    R  minimum green               11 s\
    R  lane factor                 15 F\
    A  shared lane                  3 n\
    A  pedestrians                  5 p\
    A  push button                  6 n\
    A  pedestrian time              7 s\
    A  free right                   8 n\
    J  cycle, in seconds           12 n\
    no line                      book :\
    1  volume, left                13 v\
    2  volume, through             13 v\
    3  volume, right               13 v\
    4  turning factor              16 f\
    5  flow, left                  17 V\
    6  flow, through               17 V\
    7  flow, right                 17 V\
    8  flow, separate through      18 V\
    9  flow, separate left         18 V\
    10 interference, right         19 s\
    11 interference, through       19 s\
    12 pedestrian frequency        20 f\
    13 reference, left             22 s\
    14 reference, through          22 s\
    15 reference, right            22 s\
    16 adjusted, left              23 s\
    17 adjusted, through           23 s\
    18 adjusted, right             23 s\
    19 volume of left lane         25 v\
    20 lefts in left lane          26 f\
    21 left equivalents            27 f\
    22 saturation A                29 V\
    23 permitted option A          30 s\
    24 permitted option B       32-33 s\
    25 permitted reference         34 s\
    26 permitted adjusted          35 s\
    27 split reference          36-38 s\
    28 split adjusted              39 s\
    no pair                      book :\
    P  protected                   40 s\
    P  permitted                   41 s\
    P  split                       42 s\
    P  picked                      43 *\
    no junction                  book :\
    R  right turns              45-50 s\
    J  combined                    44 s\
    J  required                    51 s\
    J  ICU                         51 %\
    J  level of service            52 A\
    no beside the lines          book :\
    23 own volume of left lane     25 v\
    23 own left equivalents        27 f\
    23 own saturation A            29 V\
    R  cross through               47 s\
    R  oncoming left               49 s";

// And those of a single point's page.
const POINT_ROWS: usize = 55;

const POINT_TITLE_BYTES: usize = TITLE_WIDTH * POINT_ROWS;

static POINT_TITLES: [u8; POINT_TITLE_BYTES] = *b"no entry                     book :\
    L  lanes                        2 n\
    L  volume                       3 v\
    L  ideal flow                   8 v\
    L  lost time                    9 s\
    L  minimum green               10 s\
    L  lane factor                 13 F\
    T  lanes                        2 n\
    T  volume                       3 v\
    T  ideal flow                   8 v\
    T  lost time                    9 s\
    T  minimum green               10 s\
    T  lane factor                 13 F\
    R  lanes                        2 n\
    R  volume                       3 v\
    R  ideal flow                   8 v\
    R  lost time                    9 s\
    R  minimum green               10 s\
    R  lane factor                 13 F\
    A  shared lane                  - n\
    A  pedestrians                  4 p\
    A  push button                  5 n\
    A  pedestrian time              6 s\
    A  free right                   7 n\
    J  cycle, in seconds           11 n\
    no line                      book :\
    1  volume, left                12 v\
    2  volume, through             12 v\
    3  volume, right               12 v\
    4  turning factor              14 f\
    5  flow, left                  15 V\
    6  flow, through               15 V\
    7  flow, right                 15 V\
    8  flow, separate through       - V\
    9  flow, separate left          - V\
    10 interference, right         16 s\
    11 interference, through       16 s\
    12 pedestrian frequency        17 f\
    13 reference, left             18 s\
    14 reference, through          18 s\
    15 reference, right            18 s\
    16 adjusted, left              19 s\
    17 adjusted, through           19 s\
    18 adjusted, right             19 s\
    no pair                      book :\
    P  protected                   20 s\
    no junction                  book :\
    R  right turns              22-27 s\
    J  combined                    21 s\
    J  required                    28 s\
    J  ICU                         28 %\
    J  level of service            29 A\
    no beside the lines          book :\
    R  cross through               24 s\
    R  oncoming left               26 s";

// Rows that go together. The cells of a column stand one after the other, a row each.
#[derive(Clone, Copy)]
pub struct Section {
    pub row: usize,
    pub cell: usize,
    pub step: usize,
    pub columns: usize,
}

// What a section is found by. Not a closure that tells an end: `section_by` goes by this, and each clause would say which end it is.
#[derive(Clone, Copy)]
enum Counted {
    Rows,
    Cells,
}

// A heading stands over the entries, the lines, the pairs, the last cells and what stands beside them.
const HEADING: usize = 1;

// The lines' first row, the same on each kind's page.
const LINES_ROW: usize = Section::CYCLE.row + Section::CYCLE.step + HEADING;

// Combined, required, the ICU and its letter.
const WHOLE_CELLS: usize = layout::LAST_CELLS - layout::APPROACHES;

impl Section {
    const MOVEMENTS: Section = Section {
        row: HEADING,
        cell: 0,
        step: layout::GROUPS * layout::MOVEMENT_ENTRIES,
        columns: layout::APPROACHES,
    };

    const APPROACHES: Section = Section {
        row: Section::MOVEMENTS.row + Section::MOVEMENTS.step,
        cell: layout::APPROACHES_FROM,
        step: layout::APPROACH_ENTRIES,
        columns: layout::APPROACHES,
    };

    const CYCLE: Section = Section {
        row: Section::APPROACHES.row + Section::APPROACHES.step,
        cell: layout::CYCLE_ENTRY,
        step: 1,
        columns: 1,
    };

    fn lines(kind: Worksheet) -> Section
        ensures { (result ≡ lines kind) × Small result }
    {
        Section {
            row: LINES_ROW,
            cell: layout::LINES_FROM,
            step: kind.lines(),
            columns: layout::APPROACHES,
        }
    }

    fn pairs(kind: Worksheet) -> Section
        ensures { (result ≡ pairs kind) × Small result }
    {
        Section {
            row: Section::lines(kind).end(Counted::Rows) + HEADING,
            cell: kind.pairs_from(),
            step: kind.pair_cells(),
            columns: layout::PAIRS,
        }
    }

    fn rights(kind: Worksheet) -> Section
        ensures { (result ≡ rights kind) × Small result }
    {
        Section {
            row: Section::pairs(kind).end(Counted::Rows) + HEADING,
            cell: kind.last_from(),
            step: 1,
            columns: layout::APPROACHES,
        }
    }

    fn whole(kind: Worksheet) -> Section
        ensures { (result ≡ whole kind) × Small result }
    {
        Section {
            row: Section::rights(kind).end(Counted::Rows),
            cell: kind.last_from() + layout::APPROACHES,
            step: WHOLE_CELLS,
            columns: 1,
        }
    }

    fn beside(kind: Worksheet) -> Section
        ensures { (result ≡ beside kind) × Small result }
    {
        Section {
            row: Section::whole(kind).end(Counted::Rows) + HEADING,
            cell: kind.cells(),
            step: kind.beside_numbers(),
            columns: layout::APPROACHES,
        }
    }

    // The row or the cell past this section's.
    fn end(self, counted: Counted) -> usize
        requires { Small self }
        ensures { result ≡ end_of counted self }
    {
        match counted {
            Counted::Rows => self.row + self.step,
            Counted::Cells => self.cell + self.step * self.columns,
        }
    }

    // This section for what stands before its end, else another.
    fn or(self, counted: Counted, i: usize, other: Section) -> Section
        requires { Small self × Small other }
        ensures { (result ≡ cond (ltb i (end_of counted self)) self other) × Small result }
    {
        if i < self.end(counted) {
            return self;
        }
        other
    }

    // The first section that has what stands at i before its end, else the last.
    fn by(kind: Worksheet, counted: Counted, i: usize) -> Section
        ensures { (result ≡ section_by kind counted i) × Small result }
    {
        let from_whole = Section::whole(kind).or(counted, i, Section::beside(kind));
        let from_rights = Section::rights(kind).or(counted, i, from_whole);
        let from_pairs = Section::pairs(kind).or(counted, i, from_rights);
        let from_lines = Section::lines(kind).or(counted, i, from_pairs);
        let from_cycle = Section::CYCLE.or(counted, i, from_lines);
        let from_approaches = Section::APPROACHES.or(counted, i, from_cycle);
        Section::MOVEMENTS.or(counted, i, from_approaches)
    }

    // The section of a row; a heading goes with the rows under it.
    fn at(kind: Worksheet, row: usize) -> Section
        ensures { (result ≡ section_at kind row) × Small result }
    {
        Section::by(kind, Counted::Rows, row)
    }

    // The section of a cell.
    pub fn of(kind: Worksheet, cell: usize) -> Section
        ensures { (result ≡ section_of kind cell) × Small result }
    {
        Section::by(kind, Counted::Cells, cell)
    }
}

// The rows of a page.
pub fn rows(kind: Worksheet) -> usize
    ensures { result ≡ row_count kind }
{
    Section::beside(kind).end(Counted::Rows)
}

fn titles(kind: Worksheet) -> &'static [u8]
    ensures { result.now ≡ titles kind }
{
    match kind {
        Worksheet::Junction => &TITLES,
        Worksheet::Point => &POINT_TITLES,
    }
}

// A byte of the titles, row after row; 0 past them.
pub fn title_byte(kind: Worksheet, i: usize) -> u8
    ensures { result ≡ title_byte kind i }
{
    titles(kind).get(i).copied().unwrap_or(0)
}

// A row of a kind's page.
#[derive(Clone, Copy)]
pub struct Row {
    pub kind: Worksheet,
    pub number: usize,
    pub ghost on_page: { number < most_rows },
}

impl Row {
    pub fn new(kind: Worksheet, number: usize) -> Row
        requires { number < most_rows }
        ensures { (result.kind ≡ kind) × (result.number ≡ number) }
    {
        Row { kind, number }
    }

    // The row in which a cell stands.
    pub fn of(kind: Worksheet, cell: usize) -> Row
        ensures { (result.kind ≡ kind) × (result.number ≡ row_of kind cell) }
    {
        let section = Section::of(kind, cell);
        Row {
            kind,
            number: section.row + cell.saturating_sub(section.cell) % section.step,
        }
    }

    // The unit is the title's last byte.
    pub fn unit(self) -> u8
        ensures { result ≡ unit_of self.kind self.number }
    {
        title_byte(self.kind, TITLE_WIDTH * self.number + (TITLE_WIDTH - 1))
    }

    pub fn section(self) -> Section
        ensures { (result ≡ section_at self.kind self.number) × Small result }
    {
        Section::at(self.kind, self.number)
    }

    // The cell in a column.
    pub fn cell_in(self, column: usize) -> usize
        requires { column < approach_count }
        ensures { result ≡ cell_in self.kind self.number column }
    {
        let section = self.section();
        section.cell + self.number.saturating_sub(section.row) + section.step * column
    }
}

pub fn column_of(kind: Worksheet, cell: usize) -> usize
    ensures { result ≡ column_of kind cell }
{
    let section = Section::of(kind, cell);
    cell.saturating_sub(section.cell) / section.step
}
