// What an amendment of one entry reaches, on a sheet of either kind.
#![tactic(auto)]

ghost use Rattle.std.specs.Prelude.{◌≡◌, true, ◌+◌, ◌/◌, ◌≤◌, ◌<◌, min, length};
ghost use Rattle.layout.specs.Entries.{approach_count, cycle_entry, entry_count};
ghost use Rattle.layout.specs.Sheet.{line_count, sheet_count};
ghost use Rattle.sheet_cells.specs.Cells.{opposite};
ghost use Rattle.amend_reach.specs.Reach.{among, names, last_facing, own as own_row, every_line, reach_of, approach_at, merged_from, merged};
ghost use Rattle.amend_reach.specs.Working.{run, run_if, lines_named, are_lines, SameRow, street_cells};

use kinds::Kind;
use layout::Worksheet;

// Lines of an approach that the rules name together.
#[derive(Clone, Copy, PartialEq, Eq, Debug)]
pub enum Named {
    All,
    // of lost time and minimum green
    Times,
    // of pedestrians, their button and the time they take
    Walkers,
    Button,
    Crossing,
}

// Those of each name that does not name all.
const TIMES: &[usize] = &[16, 17, 18, 26, 28];

const WALKERS: &[usize] = &[10, 11, 12, 14, 15, 17, 18, 23, 24, 25, 26, 27, 28];

const BUTTON: &[usize] = &[12, 17, 26, 28];

const CROSSING: &[usize] = &[17, 26, 28];

// The first and the last of the lines that look at the approach opposite.
const FACING_FROM: usize = 21;

const FACING_TO: usize = 26;

// What an amendment of an entry reaches, besides the entry itself and the last cells.
#[derive(Clone, Copy)]
pub struct Reach {
    pub own: Option<Named>,
    // the lines of the approach opposite that look at it
    pub facing: bool,
    // the cells of the approach's pair
    pub pair: bool,
    // every line and pair cell, of either street
    pub everywhere: bool,
}

impl Reach {
    const NONE_MORE: Reach = Reach {
        own: None,
        facing: false,
        pair: false,
        everywhere: false,
    };

    const BOTH_WAYS: Reach = Reach {
        own: Some(Named::All),
        facing: true,
        pair: true,
        everywhere: false,
    };

    // Own lines, and the pair cells.
    fn own(lines: Named) -> Reach
        ensures { SameRow result (own_row lines) }
    {
        Reach {
            own: Some(lines),
            pair: true,
            ..Reach::NONE_MORE
        }
    }

    // Every line and pair cell.
    fn everywhere() -> Reach
        ensures { SameRow result every_line }
    {
        Reach {
            everywhere: true,
            ..Reach::BOTH_WAYS
        }
    }

    // The row of a kind.
    fn of(kind: Kind) -> Reach
        ensures { SameRow result (reach_of kind) }
    {
        match kind {
            Kind::Lanes => Reach::BOTH_WAYS,
            Kind::Volume => Reach::BOTH_WAYS,
            Kind::IdealFlow => Reach::BOTH_WAYS,
            Kind::LostTime => Reach::own(Named::Times),
            Kind::MinimumGreen => Reach::own(Named::Times),
            Kind::LaneFactor => Reach::BOTH_WAYS,
            Kind::SharedLane => Reach::BOTH_WAYS,
            Kind::Pedestrians => Reach::own(Named::Walkers),
            Kind::PushButton => Reach::own(Named::Button),
            Kind::PedestrianTime => Reach::own(Named::Crossing),
            Kind::FreeRight => Reach::NONE_MORE, // it goes into its right total alone
            Kind::Cycle => Reach::everywhere(),
            Kind::Storage => Reach::NONE_MORE, // no sheet has one
            Kind::TravelTime => Reach::NONE_MORE,
        }
    }
}

// The approach of an entry that is not the cycle.
fn approach_at(entry: usize) -> usize
    requires { entry < cycle_entry }
    ensures { (result ≡ approach_at entry) × (result < approach_count) }
{
    if entry < layout::APPROACHES_FROM {
        return entry / layout::MOVEMENT_ENTRIES / layout::GROUPS;
    }
    (entry - layout::APPROACHES_FROM) / layout::APPROACH_ENTRIES
}

fn opposite_of(approach: usize) -> usize
    requires { approach < approach_count }
    ensures { (result ≡ opposite approach) × (result < approach_count) }
{
    if approach % 2 == 0 {
        approach + 1
    } else {
        approach - 1
    }
}

// Writes the fresh cells from one on and before another.
fn copy_run(sheet: &mut [u32], fresh: &[u32], from: usize, to: usize)
    requires { (length fresh.now ≡ length sheet.old) × (to ≤ length sheet.old) }
    ensures { sheet.new ≡ merged_from (run from to) 0 fresh.now sheet.old }
{
    if from < to {
        lists::put(sheet, from, &fresh[from..to]);
    }
}

// Writes them if they are wanted.
fn copy_if(wanted: bool, sheet: &mut [u32], fresh: &[u32], from: usize, to: usize)
    requires { (length fresh.now ≡ length sheet.old) × (to ≤ length sheet.old) }
    ensures { sheet.new ≡ merged_from (run_if wanted from to) 0 fresh.now sheet.old }
{
    if wanted {
        copy_run(sheet, fresh, from, to);
    }
}

// Writes the fresh lines that a list names, of those whose first stands at a cell; a line that the kind has not is passed over.
fn copy_lines(kind: Worksheet, sheet: &mut [u32], fresh: &[u32], first: usize, lines: &[usize])
    requires { (length fresh.now ≡ length sheet.old) × (first + line_count kind ≤ length sheet.old) × (are_lines lines.now ≡ true) }
    ensures { sheet.new
        ≡ merged_from (lines_named (line_count kind) first (λ n. among n lines.now)) 0 fresh.now sheet.old }
{
    let last = kind.lines();
    for &line in lines {
        if line <= last {
            let cell = first + line - 1;
            sheet[cell] = fresh[cell];
        }
    }
}

// Writes the lines that are named together, of those of the kind whose first stands at a cell.
fn copy_named(kind: Worksheet, sheet: &mut [u32], fresh: &[u32], named: Option<Named>, first: usize)
    requires { (length fresh.now ≡ length sheet.old) × (first + line_count kind ≤ length sheet.old) }
    ensures { sheet.new ≡ merged_from (lines_named (line_count kind) first (names named)) 0 fresh.now sheet.old }
{
    let Some(named) = named else {
        return;
    };
    match named {
        Named::All => copy_run(sheet, fresh, first, first + kind.lines()),
        Named::Times => copy_lines(kind, sheet, fresh, first, TIMES),
        Named::Walkers => copy_lines(kind, sheet, fresh, first, WALKERS),
        Named::Button => copy_lines(kind, sheet, fresh, first, BUTTON),
        Named::Crossing => copy_lines(kind, sheet, fresh, first, CROSSING),
    }
}

// Where the facing lines end: with the kind's last line at the latest, so that a single point has none of them.
fn facing_to(kind: Worksheet) -> usize
    ensures { result ≡ min last_facing (line_count kind) }
{
    FACING_TO.min(kind.lines())
}

// Writes the fresh cells that an entry of an approach reaches, but for the entry itself.
fn renew_street(kind: Worksheet, sheet: &mut [u32], fresh: &[u32], reach: Reach, approach: usize)
    requires { (length sheet.old ≡ sheet_count kind) × (length fresh.now ≡ sheet_count kind) × (approach < approach_count) }
    ensures { sheet.new ≡ merged_from (street_cells kind reach approach) 0 fresh.now sheet.old }
{
    let own = reach.own;
    copy_named(kind, sheet, fresh, own, kind.lines_of(approach));
    let across = kind.lines_of(opposite_of(approach));
    copy_if(
        reach.facing,
        sheet,
        fresh,
        across + FACING_FROM - 1,
        across + facing_to(kind),
    );
    let pair = kind.pair_of(approach);
    copy_if(reach.pair, sheet, fresh, pair, pair + kind.pair_cells());
    let last = kind.last_from();
    copy_run(sheet, fresh, last, kind.cells());
}

// Writes the fresh cells that the amendment of an entry reaches; the others stay, whatever they held.
pub fn renew(kind: Worksheet, sheet: &mut [u32], fresh: &[u32], entry: usize)
    requires { (length sheet.old ≡ sheet_count kind) × (length fresh.now ≡ sheet_count kind) × (entry < entry_count) }
    ensures { sheet.new ≡ merged kind entry fresh.now sheet.old }
{
    sheet[entry] = fresh[entry];
    let reach = Reach::of(Kind::at(entry));
    if reach.everywhere {
        copy_run(sheet, fresh, layout::LINES_FROM, kind.cells());
        return;
    }
    renew_street(kind, sheet, fresh, reach, approach_at(entry));
}
