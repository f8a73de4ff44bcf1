// The sheet filled from its entries.
#![tactic(auto)]

ghost use Rattle.std.specs.Prelude.{◌≡◌, ◌++◌, ◌+◌, ◌*◌, ◌<◌, ◌≤◌, length};
ghost use Rattle.answers.specs.declared.Answer.TheVariants.{Accepted};
ghost use Rattle.lists.specs.Lists.{over};
ghost use Rattle.layout.specs.Entries.{approach_count, entry_count, EB, WB, NB, SB};
ghost use Rattle.layout.specs.Sheet.{line_count, pair_cells as pair_cell_count, pairs_from, sheet_count};
ghost use Rattle.entries.specs.Judging.{judged_for, judged};
ghost use Rattle.procedure.specs.Approach.{read_approach};
ghost use Rattle.procedure.specs.Pairs.{picked_time};
ghost use Rattle.procedure.specs.Sheet.{last_at, sheet_for};
ghost use Rattle.line_bounds.specs.Bounds.{most_picked};
ghost use Rattle.line_stages.specs.Cells.{cells_for};
ghost use Rattle.sheet_pairs.specs.Cells.{pair_cells, pair_in};
ghost use Rattle.sheet_street.specs.Street.{StreetAt};
ghost use Rattle.sheet.specs.Working.{RightsAt, SmallPair, rest_at};
ghost use Rattle.sheet.specs.Fill.{fill_answer, filled};

use answers::Answer;
use kinds::FreeRight;
use layout::{EB, NB, SB, WB, Worksheet};
use line_stages::Lines;
use sheet_pairs::Pair;
use sheet_street::Street;
use sheet_totals::{Rights, right_of};
use units::Ms;

fn free_at(entries: &[u32], a: usize) -> FreeRight
    requires { (judged entries.now ≡ Accepted) × (a < approach_count) }
    ensures { result.0 ≡ (read_approach entries.now a).free.0 }
{
    FreeRight::new(entries::approach_value(entries, a, layout::FREE_NO))
}

// The right totals: each with the through that crosses it from its left hand and the left that comes towards it.
fn rights_at(kind: Worksheet, entries: &[u32], along: Street, across: Street) -> Rights
    requires { (judged_for kind entries.now ≡ Accepted) × StreetAt kind entries.now EB WB along × StreetAt kind entries.now NB SB across }
    ensures { RightsAt kind entries.now result }
{
    let eb = along.one;
    let wb = along.other;
    let nb = across.one;
    let sb = across.other;
    Rights {
        eb: right_of(free_at(entries, EB), eb, wb, along.pair, sb, across.pair),
        wb: right_of(free_at(entries, WB), wb, eb, along.pair, nb, across.pair),
        nb: right_of(free_at(entries, NB), nb, sb, across.pair, eb, along.pair),
        sb: right_of(free_at(entries, SB), sb, nb, across.pair, wb, along.pair),
    }
}

// The two picked times added.
fn combined(along: Pair, across: Pair) -> Ms
    requires { SmallPair along × SmallPair across }
    ensures { result.0 ≡ picked_time (pair_cells along) + picked_time (pair_cells across) }
{
    Ms(sheet_totals::picked_time(along).0 + sheet_totals::picked_time(across).0)
}

// The last eight cells, from the two streets.
fn last_at(
    kind: Worksheet,
    entries: &[u32],
    along: Street,
    across: Street,
) -> [u32; layout::LAST_CELLS]
    requires { (judged_for kind entries.now ≡ Accepted) × StreetAt kind entries.now EB WB along × StreetAt kind entries.now NB SB across }
    ensures { result ≡ last_at kind entries.now }
{
    let rights = rights_at(kind, entries, along, across);
    let both = combined(along.pair, across.pair);
    sheet_totals::last_of(rights, both, procedure::read_cycle(entries))
}

// The lines that a sheet of a kind has: 1–18, and past them a junction's others.
fn put_lines(kind: Worksheet, all: &mut [u32], at: usize, lines: Lines)
    requires { at + line_count kind ≤ length all.old }
    ensures { all.new ≡ over all.old at (cells_for kind lines) }
{
    lists::put(all, at, &lines::first_cells(lines.first));
    if let Worksheet::Junction = kind {
        lists::put(
            all,
            at + layout::POINT_LINES,
            &lines::later_cells(lines.later),
        );
    }
}

fn put_pair(kind: Worksheet, all: &mut [u32], at: usize, pair: Pair)
    requires { at + pair_cell_count kind ≤ length all.old }
    ensures { all.new ≡ over all.old at (pair_in kind pair) }
{
    let cells = sheet_pairs::cells_of(pair);
    lists::put(all, at, &cells[..kind.pair_cells()]);
}

// The lines of a street's approaches, one after the other.
fn put_both(kind: Worksheet, all: &mut [u32], at: usize, one: Lines, other: Lines)
    requires { at + 2 * line_count kind ≤ length all.old }
    ensures { all.new ≡ over all.old at (cells_for kind one ++ cells_for kind other) }
{
    put_lines(kind, all, at, one);
    put_lines(kind, all, at + kind.lines(), other);
}

// The entries and all lines; put before the streets are made, they need not be kept.
fn put_front(
    kind: Worksheet,
    all: &mut [u32],
    entries: &[u32],
    eb: Lines,
    wb: Lines,
    nb: Lines,
    sb: Lines,
)
    requires { (length all.old ≡ sheet_count kind) × (length entries.now ≡ entry_count) }
    ensures { all.new ≡ over all.old 0
        (entries.now ++ (cells_for kind eb ++ cells_for kind wb) ++ (cells_for kind nb ++ cells_for kind sb)) }
{
    lists::put(all, 0, entries);
    put_both(kind, all, layout::LINES_FROM, eb, wb);
    put_both(kind, all, layout::LINES_FROM + 2 * kind.lines(), nb, sb);
}

fn put_pairs(kind: Worksheet, all: &mut [u32], along: Pair, across: Pair)
    requires { length all.old ≡ sheet_count kind }
    ensures { all.new ≡ over all.old (pairs_from kind) (pair_in kind along ++ pair_in kind across) }
{
    let from = kind.pairs_from();
    put_pair(kind, all, from, along);
    put_pair(kind, all, from + kind.pair_cells(), across);
}

// The pairs' cells and the last.
fn put_rest(
    kind: Worksheet,
    all: &mut [u32],
    along: Pair,
    across: Pair,
    last: [u32; layout::LAST_CELLS],
)
    requires { length all.old ≡ sheet_count kind }
    ensures { all.new ≡ over all.old (pairs_from kind) (pair_in kind along ++ pair_in kind across ++ last) }
{
    put_pairs(kind, all, along, across);
    lists::put(all, kind.last_from(), &last);
}

// The pairs' cells and the last of the two streets.
fn put_streets(kind: Worksheet, entries: &[u32], all: &mut [u32], along: Street, across: Street)
    requires entries_value { (judged_for kind entries.now ≡ Accepted) × (length all.old ≡ sheet_count kind) }
    requires street_at { StreetAt kind entries.now EB WB along × StreetAt kind entries.now NB SB across }
    ensures { all.new ≡ over all.old (pairs_from kind) (rest_at kind entries.now) }
{
    let last = last_at(kind, entries, along, across);
    put_rest(kind, all, along.pair, across.pair, last);
}

// Writes the sheet of entries that are acceptable for its kind.
pub fn write_fresh(kind: Worksheet, entries: &[u32], sheet: &mut [u32])
    requires { (judged_for kind entries.now ≡ Accepted) × (length sheet.old ≡ sheet_count kind) }
    ensures { sheet.new ≡ sheet_for kind entries.now }
{
    let eb = sheet_street::lines_at(kind, entries, EB, WB);
    let wb = sheet_street::lines_at(kind, entries, WB, EB);
    let nb = sheet_street::lines_at(kind, entries, NB, SB);
    let sb = sheet_street::lines_at(kind, entries, SB, NB);
    put_front(kind, sheet, entries, eb, wb, nb, sb);
    let along = sheet_street::street_at(kind, entries, EB, WB, eb, wb);
    let across = sheet_street::street_at(kind, entries, NB, SB, nb, sb);
    put_streets(kind, entries, sheet, along, across);
}

// Fills a sheet of a kind from the entries; where either is refused, the sheet stays as it was.
pub fn fill(kind: Worksheet, entries: &[u32], sheet: &mut [u32]) -> Answer
    ensures value { result ≡ fill_answer kind entries.now sheet.old }
    ensures sheet_after { sheet.new ≡ filled kind entries.now sheet.old }
{
    let size = sheet_cells::check_sheet(kind, sheet);
    let Answer::Accepted = size else {
        return size;
    };
    let judged = entries::judge(kind, entries);
    let Answer::Accepted = judged else {
        return judged;
    };
    write_fresh(kind, entries, sheet);
    Answer::Accepted
}
