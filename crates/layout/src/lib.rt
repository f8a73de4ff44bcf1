// Where each entry and each cell of a sheet stands: every number from those before it.
//
// The definitions of the same names in specs/ say what the rules say; each function that leans on a number here is proved
// against the definition.
#![tactic(auto)]

ghost use Rattle.std.specs.Prelude.{◌≡◌, ◌/◌, ◌<◌};
ghost use Rattle.layout.specs.Entries.{approach_count};
ghost use Rattle.layout.specs.Sheet.{line_count, lines_of, pair_cells, in_pair, pairs_from, pair_of, last_from, sheet_count, beside_numbers};

// EB, WB, NB, SB.
pub const APPROACHES: usize = 4;

pub const EB: usize = 0;

pub const WB: usize = 1;

pub const NB: usize = 2;

pub const SB: usize = 3;

// Left, through and right of each.
pub const GROUPS: usize = 3;

pub const MOVEMENTS: usize = GROUPS * APPROACHES;

// The entries of a movement, by number.
pub const LANES_NO: usize = 0;

pub const VOLUME_NO: usize = 1;

pub const IDEAL_NO: usize = 2;

pub const LOST_NO: usize = 3;

pub const GREEN_NO: usize = 4;

pub const FACTOR_NO: usize = 5;

pub const MOVEMENT_ENTRIES: usize = 6;

// The first entry of the first approach.
pub const APPROACHES_FROM: usize = MOVEMENT_ENTRIES * MOVEMENTS;

// An approach's own entries, by number.
pub const SHARED_NO: usize = 0;

pub const WALKERS_NO: usize = 1;

pub const BUTTON_NO: usize = 2;

pub const CROSSING_NO: usize = 3;

pub const FREE_NO: usize = 4;

pub const APPROACH_ENTRIES: usize = 5;

pub const CYCLE_ENTRY: usize = APPROACHES_FROM + APPROACH_ENTRIES * APPROACHES;

pub const ENTRIES: usize = CYCLE_ENTRY + 1;

// A sheet's kind: the book's two worksheets with entries of their own.
#[derive(Clone, Copy, PartialEq, Eq, Debug)]
pub enum Worksheet {
    Junction,
    // a single point interchange, protected phasing only
    Point,
}

// The lines of an approach, on a junction's sheet and on a single point's.
pub const LINES: usize = 28;

pub const POINT_LINES: usize = 18;

// The first line of the first approach.
pub const LINES_FROM: usize = ENTRIES;

pub const PAIRS: usize = 2;

// The approaches of a pair.
pub const IN_PAIR: usize = APPROACHES / PAIRS;

// Protected, permitted, split, and which of them is picked; of a single point, protected.
pub const PAIR_CELLS: usize = 4;

const POINT_PAIR_CELLS: usize = 1;

// The right totals, combined, required, the ICU and its letter.
pub const LAST_CELLS: usize = APPROACHES + 4;

// What a pair's cells hold its pick in.
pub const PICK: usize = 3;

// The numbers of each approach that a page shows beside the sheet's cells, past them in one list.
pub const BESIDE_NUMBERS: usize = 5;

const POINT_BESIDE_NUMBERS: usize = 2;

// Where the pairs and the last cells of a junction's sheet stand.
pub const PAIRS_FROM: usize = LINES_FROM + LINES * APPROACHES;

pub const LAST_FROM: usize = PAIRS_FROM + PAIR_CELLS * PAIRS;

pub const ICU_CELL: usize = LAST_FROM + APPROACHES + 2;

pub const LETTER_CELL: usize = ICU_CELL + 1;

pub const CELLS: usize = LAST_FROM + LAST_CELLS;

// The most that a page shows: a junction's.
pub const PAGE_CELLS: usize = CELLS + BESIDE_NUMBERS * APPROACHES;

// And those of a single point's.
const POINT_PAIRS_FROM: usize = LINES_FROM + POINT_LINES * APPROACHES;

const POINT_LAST_FROM: usize = POINT_PAIRS_FROM + POINT_PAIR_CELLS * PAIRS;

pub const POINT_CELLS: usize = POINT_LAST_FROM + LAST_CELLS;

// One match for each number: a struct of six by kind would name the same twelve constants, and hide each behind a field.
impl Worksheet {
    // The lines of an approach.
    pub fn lines(self) -> usize
        ensures { result ≡ line_count self }
    {
        match self {
            Worksheet::Junction => LINES,
            Worksheet::Point => POINT_LINES,
        }
    }

    pub fn pair_cells(self) -> usize
        ensures { result ≡ pair_cells self }
    {
        match self {
            Worksheet::Junction => PAIR_CELLS,
            Worksheet::Point => POINT_PAIR_CELLS,
        }
    }

    pub fn beside_numbers(self) -> usize
        ensures { result ≡ beside_numbers self }
    {
        match self {
            Worksheet::Junction => BESIDE_NUMBERS,
            Worksheet::Point => POINT_BESIDE_NUMBERS,
        }
    }

    // The first cell of the first pair.
    pub fn pairs_from(self) -> usize
        ensures { result ≡ pairs_from self }
    {
        match self {
            Worksheet::Junction => PAIRS_FROM,
            Worksheet::Point => POINT_PAIRS_FROM,
        }
    }

    // The cell of an approach's first line.
    pub fn lines_of(self, approach: usize) -> usize
        requires { approach < approach_count }
        ensures { result ≡ lines_of self approach }
    {
        LINES_FROM + self.lines() * approach
    }

    // The first cell of an approach's pair.
    pub fn pair_of(self, approach: usize) -> usize
        requires { approach < approach_count }
        ensures { result ≡ pair_of self (approach / in_pair) }
    {
        self.pairs_from() + self.pair_cells() * (approach / IN_PAIR)
    }

    // The first of the last cells.
    pub fn last_from(self) -> usize
        ensures { result ≡ last_from self }
    {
        match self {
            Worksheet::Junction => LAST_FROM,
            Worksheet::Point => POINT_LAST_FROM,
        }
    }

    // All cells.
    pub fn cells(self) -> usize
        ensures { result ≡ sheet_count self }
    {
        match self {
            Worksheet::Junction => CELLS,
            Worksheet::Point => POINT_CELLS,
        }
    }
}

// What a cell holds where an option is not allowed; the largest number of 32 bits.
pub const BLANK: u32 = 4_294_967_295;

// A diamond's record: the west junction's entries, the east's, four storages and the travel time.
pub const EAST_FROM: usize = ENTRIES;

pub const EAST_CYCLE: usize = EAST_FROM + CYCLE_ENTRY;

pub const STORAGES_FROM: usize = EAST_FROM + ENTRIES;

// WB left and EB left, which leave the arterial; the road eastbound and westbound, for the lefts off the ramps.
pub const STORAGES: usize = 4;

pub const TRAVEL_PLACE: usize = STORAGES_FROM + STORAGES;

pub const RECORD: usize = TRAVEL_PLACE + 1;

// The west junction and the east.
pub const SIDES: usize = 2;

// The interchange times of a side.
pub const SIDE_TIMES: usize = 7;

// Past them, of each side its isolated time, its alternate, the larger and its overlap.
pub const ISOLATED_CELL: usize = SIDE_TIMES * SIDES;

pub const ALTERNATE_CELL: usize = ISOLATED_CELL + SIDES;

pub const COMBINED_FROM: usize = ALTERNATE_CELL + SIDES;

pub const OVERLAP_CELL: usize = COMBINED_FROM + SIDES;

// Leading alternate, lagging, lead-lag, and which of them is picked.
pub const PLAN_FROM: usize = OVERLAP_CELL + SIDES;

pub const PLANS: usize = 3;

pub const PLAN_PICK: usize = PLAN_FROM + PLANS;

pub const BEST_CELL: usize = PLAN_PICK + 1;

pub const DIAMOND_ICU: usize = BEST_CELL + 1;

pub const DIAMOND_LETTER: usize = DIAMOND_ICU + 1;

pub const DIAMOND_CELLS: usize = DIAMOND_LETTER + 1;

// What a diamond's page shows, in one list: both sheets, the record's own numbers, the cells, and three numbers of each storage.
pub const PAGE_OWN: usize = CELLS * SIDES;

pub const PAGE_DIAMOND: usize = PAGE_OWN + STORAGES + 1;

pub const PAGE_VOLUMES: usize = PAGE_DIAMOND + DIAMOND_CELLS;

pub const PAGE_ROOMS: usize = PAGE_VOLUMES + STORAGES;

pub const PAGE_FITS: usize = PAGE_ROOMS + STORAGES;

pub const DIAMOND_PAGE: usize = PAGE_FITS + STORAGES;

// An open study: its places, and the numbers of all their blocks.
pub const PLACES: usize = 165;

pub const BLOCKS: usize = ENTRIES * PLACES;
