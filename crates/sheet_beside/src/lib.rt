// What the engineers work by hand beside the sheet's cells: the left group's own lane, and what a right total adds.
#![tactic(auto)]

ghost use Rattle.std.specs.Prelude.{◌≡◌, ◌++◌, ◌+◌, ◌*◌, ◌/◌, ◌<◌, ◌≤◌, length, get_or, take, drop};
ghost use Rattle.answers.specs.Answers.{left_by};
ghost use Rattle.answers.specs.declared.Answer.TheVariants.{Accepted};
ghost use Rattle.lists.specs.Lists.{over};
ghost use Rattle.layout.specs.Entries.{approach_count};
ghost use Rattle.layout.specs.Sheet.{sheet_count, beside_numbers, page_count};
ghost use Rattle.entries.specs.Judging.{judged_for, judged};
ghost use Rattle.procedure.specs.Ranges.{Fair, FairCycle};
ghost use Rattle.procedure.specs.Approach.{read_approach};
ghost use Rattle.procedure.specs.Sheet.{sheet_for};
ghost use Rattle.entries.specs.Layout.{cycle as cycle_of};
ghost use Rattle.procedure.specs.Pairs.{pick_of};
ghost use Rattle.sheet_pairs.specs.Picks.{pick_at};
ghost use Rattle.sheet_beside.specs.Beside.{own_lane, lane_for, line_in, pair_in, through_in, left_in, added};
ghost use Rattle.sheet_beside.specs.Beside.{beside_at, beside_of, beside, filled_beside};

use answers::Answer;
use kinds::Cycle;
use layout::{EB, NB, PAGE_CELLS, SB, WB, Worksheet};
use procedure::Approach;
use sheet_pairs::Pick;

// Of the left group's own lane: its volume, its equivalents and its flow.
const LANE_NUMBERS: usize = 3;

// Of a right total: the cross through and the oncoming left.
const ADDED_NUMBERS: usize = 2;

// The lane of lefts alone behind line 23.
fn own_lane(s: Approach, o: Approach, cycle: Cycle) -> [u32; LANE_NUMBERS]
    requires { Fair s × Fair o × FairCycle cycle.0 }
    ensures { result ≡ own_lane s o cycle.0 }
{
    let volumes = line_flows::volumes_of(s);
    if volumes.left.0 == 0 {
        return [0, 0, 0];
    }
    let share = line_meeting::meeting_of(s, o, line_flows::volumes_of(o)).share;
    let equivalent = line_left_lane::equivalent_of(units::WHOLE, share, cycle);
    let flow = line_flows::flows_of(s, volumes).left;
    let carried = line_left_lane::flow_a(flow, units::WHOLE, equivalent, s.left.lanes);
    let lane = line_left_lane::share_out(volumes.left.0, s.left.lanes.0);
    [lane, equivalent, carried.0]
}

// Of so many cells from a place on, cell i; past them 0.
fn cell_in(cells: &[u32], from: usize, count: usize, i: usize) -> u32
    requires { from + count ≤ length cells.now }
    ensures { result ≡ get_or (take count (drop from cells.now)) i 0 }
{
    if count <= i {
        return 0;
    }
    cells[from + i]
}

// A line of an approach; 0 where the sheet ends before it.
fn line_in(kind: Worksheet, cells: &[u32], a: usize, line: usize) -> u32
    requires { (length cells.now ≡ sheet_count kind) × (a < approach_count) × (0 < line) }
    ensures { result ≡ line_in kind cells.now a line }
{
    cell_in(cells, kind.lines_of(a), kind.lines(), line - 1)
}

// The pick of an approach's pair; protected where there is nothing to pick.
fn pick_in(kind: Worksheet, cells: &[u32], a: usize) -> Pick
    requires { (length cells.now ≡ sheet_count kind) × (a < approach_count) }
    ensures { result ≡ pick_at (pick_of (pair_in kind cells.now a)) }
{
    Pick::at(cell_in(cells, kind.pair_of(a), kind.pair_cells(), layout::PICK))
}

// The time of an approach's through, by the pick of its pair.
fn through_in(kind: Worksheet, cells: &[u32], a: usize) -> u32
    requires { (length cells.now ≡ sheet_count kind) × (a < approach_count) }
    ensures { result ≡ through_in kind cells.now a }
{
    pick_in(kind, cells, a).choose(
        line_in(kind, cells, a, 17),
        line_in(kind, cells, a, 26),
        line_in(kind, cells, a, 28),
    )
}

// The time of an approach's left, by the pick of its pair.
fn left_in(kind: Worksheet, cells: &[u32], a: usize) -> u32
    requires { (length cells.now ≡ sheet_count kind) × (a < approach_count) }
    ensures { result ≡ left_in kind cells.now a }
{
    pick_in(kind, cells, a).choose(line_in(kind, cells, a, 16), 0, line_in(kind, cells, a, 28))
}

// What the right total of an approach adds to line 18, with o opposite it and c's through across it.
fn added_in(kind: Worksheet, cells: &[u32], a: usize, o: usize, c: usize) -> [u32; ADDED_NUMBERS]
    requires { (length cells.now ≡ sheet_count kind) × (a < approach_count) × (o < approach_count) × (c < approach_count) }
    ensures { result ≡ added kind cells.now a o c }
{
    if line_in(kind, cells, a, 3) == 0 {
        return [0, 0];
    }
    if cells[layout::APPROACHES_FROM + layout::APPROACH_ENTRIES * a + layout::FREE_NO] == 1 {
        return [0, 0];
    }
    [through_in(kind, cells, c), left_in(kind, cells, o)]
}

// The lane of lefts alone of an approach of acceptable entries, with o opposite it.
fn lane_at(entries: &[u32], a: usize, o: usize) -> [u32; LANE_NUMBERS]
    requires { (judged entries.now ≡ Accepted) × (a < approach_count) × (o < approach_count) }
    ensures { result ≡ own_lane (read_approach entries.now a) (read_approach entries.now o) (cycle_of entries.now) }
{
    let s = procedure::read_approach(entries, a);
    let t = procedure::read_approach(entries, o);
    own_lane(s, t, procedure::read_cycle(entries))
}

// Where the numbers of an approach stand.
fn beside_from(kind: Worksheet, a: usize) -> usize
    requires { a < approach_count }
    ensures { result ≡ sheet_count kind + beside_numbers kind * a }
{
    kind.cells() + kind.beside_numbers() * a
}

// Puts the lane of lefts alone, where the sheet has a line 23; and says where what is added stands.
fn put_lane(kind: Worksheet, entries: &[u32], all: &mut [u32], a: usize, o: usize) -> usize
    requires { (judged_for kind entries.now ≡ Accepted) × (page_count kind ≤ length all.old) × (a < approach_count) × (o < approach_count) }
    ensures all_after { all.new ≡ over all.old (sheet_count kind + beside_numbers kind * a)
        (lane_for kind (read_approach entries.now a) (read_approach entries.now o) (cycle_of entries.now)) }
    ensures result_value { result + 2 ≡ sheet_count kind + beside_numbers kind * a + beside_numbers kind }
{
    let at = beside_from(kind, a);
    let Worksheet::Junction = kind else {
        return at;
    };
    let lane = lane_at(entries, a, o);
    lists::put(all, at, &lane);
    at + LANE_NUMBERS
}

// Puts the numbers of an approach in their place.
fn put_beside(
    kind: Worksheet,
    entries: &[u32],
    cells: &[u32],
    all: &mut [u32],
    a: usize,
    o: usize,
    c: usize,
)
    requires entries_value { (judged_for kind entries.now ≡ Accepted) × (length cells.now ≡ sheet_count kind) × (page_count kind ≤ length all.old) }
    requires a_lt_approach_count { (a < approach_count) × (o < approach_count) × (c < approach_count) }
    ensures { all.new ≡ over all.old (sheet_count kind + beside_numbers kind * a)
        (beside_at kind entries.now cells.now a o c) }
{
    let added = added_in(kind, cells, a, o, c);
    let at = put_lane(kind, entries, all, a, o);
    lists::put(all, at, &added);
}

// Those of every approach.
fn put_each(kind: Worksheet, entries: &[u32], cells: &[u32], all: &mut [u32])
    requires { (judged_for kind entries.now ≡ Accepted) × (length cells.now ≡ sheet_count kind) × (page_count kind ≤ length all.old) }
    ensures { all.new ≡ over all.old (sheet_count kind) (beside_of kind entries.now cells.now) }
{
    put_beside(kind, entries, cells, all, EB, WB, SB);
    put_beside(kind, entries, cells, all, WB, EB, NB);
    put_beside(kind, entries, cells, all, NB, SB, EB);
    put_beside(kind, entries, cells, all, SB, NB, WB);
}

// The cells of a filled sheet, then what stands beside them.
fn put_all(kind: Worksheet, entries: &[u32], cells: &[u32], all: &mut [u32])
    requires { (judged_for kind entries.now ≡ Accepted) × (cells.now ≡ sheet_for kind entries.now) × (page_count kind ≤ length all.old) }
    ensures { all.new ≡ over all.old 0 (sheet_for kind entries.now ++ beside kind entries.now) }
{
    lists::put(all, 0, cells);
    put_each(kind, entries, cells, all);
}

// The same, where the cells are at the front of an area.
fn put_front(kind: Worksheet, entries: &[u32], area: &[u32], all: &mut [u32])
    requires entries_value { (judged_for kind entries.now ≡ Accepted) × (take (sheet_count kind) area.now ≡ sheet_for kind entries.now) }
    requires kind_in_bounds { (sheet_count kind ≤ length area.now) × (page_count kind ≤ length all.old) }
    ensures { all.new ≡ over all.old 0 (sheet_for kind entries.now ++ beside kind entries.now) }
{
    put_all(kind, entries, &area[..kind.cells()], all);
}

// Fills the sheet at the front of an area.
fn fill_front(kind: Worksheet, entries: &[u32], area: &mut [u32]) -> Answer
    requires { sheet_count kind ≤ length area.old }
    ensures value { result ≡ judged_for kind entries.now }
    ensures area_after { take (sheet_count kind) area.new
        ≡ left_by (judged_for kind entries.now) (sheet_for kind entries.now) (take (sheet_count kind) area.old) }
{
    sheet::fill(kind, entries, &mut area[..kind.cells()])
}

// Fills the sheet from the entries, and what stands beside it, at the front of the list; where they are refused, the list stays as it was.
pub fn fill(kind: Worksheet, entries: &[u32], all: &mut [u32; PAGE_CELLS]) -> Answer
    ensures value { result ≡ judged_for kind entries.now }
    ensures all_after { all.new ≡ filled_beside kind entries.now all.old }
{
    let mut cells = [0u32; layout::CELLS];
    let answer = fill_front(kind, entries, &mut cells);
    let Answer::Accepted = answer else {
        return answer;
    };
    put_front(kind, entries, &cells, all);
    Answer::Accepted
}
