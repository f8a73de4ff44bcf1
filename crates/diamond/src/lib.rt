// A diamond's record rated: the 29 cells of its worksheet.
#![tactic(auto)]

ghost use Rattle.std.specs.Prelude.{◌≡◌, ◌++◌, length};
ghost use Rattle.lists.specs.Lists.{over};
ghost use Rattle.layout.specs.Diamond.{diamond_count};
ghost use Rattle.diamond_rules.specs.Record.{cells_size, diamond_answer};
ghost use Rattle.diamond_rules.specs.Lines.{lagging_allowed, lead_lag_allowed, times_of, sides_of, plans_of, diamond as diamond_of, rated};
ghost use Rattle.diamond_plans.specs.Working.{SmallSide};

use answers::{Answer, Refusal};
use diamond_plans::BEST_CELLS;
use diamond_rules::{Record, Side};
use diamond_storage::fits_at;
use kinds::TravelTime;
use layout::{EB, NB, SB, WB};

#[tactic(auto, unfolding(diamond_rules::specs::Record::cells_size))]
fn check_cells(cells: &[u32]) -> Answer
    ensures { result ≡ cells_size cells.now }
{
    if cells.len() != layout::DIAMOND_CELLS {
        return Answer::Refused(Refusal::Size, 0);
    }
    Answer::Accepted
}

// The two off the ramps.
#[tactic(auto, unfolding(diamond_rules::specs::Lines::lead_lag_allowed))]
fn is_leadlag_allowed(given: Record) -> bool
    ensures { result ≡ lead_lag_allowed given.entry.numbers.now }
{
    fits_at(given, 2) && fits_at(given, 3)
}

// All four.
#[tactic(auto, unfolding(diamond_rules::specs::Lines::lagging_allowed, diamond_rules::specs::Lines::lead_lag_allowed))]
fn is_lagging_allowed(given: Record) -> bool
    ensures { result ≡ lagging_allowed given.entry.numbers.now }
{
    fits_at(given, 0) && fits_at(given, 1) && is_leadlag_allowed(given)
}

// Lines 32–37 of the record, from its sides.
fn best_at(given: Record, w: Side, e: Side) -> [u32; BEST_CELLS]
    requires { SmallSide w × SmallSide e }
    ensures { result ≡ plans_of given.entry.numbers.now w e }
{
    let four = is_lagging_allowed(given);
    let two = is_leadlag_allowed(given);
    let plans = diamond_plans::plans_of(given.travel(), w, e, four, two);
    let cycle = procedure::read_cycle(given.west());
    diamond_plans::best_of(plans, cycle)
}

// Lines 24–31: the times of both sides, and what is made of them.
fn put_front(cells: &mut [u32], travel: TravelTime, w: Side, e: Side)
    requires { (length cells.old ≡ diamond_count) × SmallSide w × SmallSide e }
    ensures { cells.new ≡ over cells.old 0 ((times_of w ++ times_of e) ++ sides_of travel.0.0 w e) }
{
    lists::put(cells, 0, &diamond_plans::times_of(w));
    lists::put(cells, layout::SIDE_TIMES, &diamond_plans::times_of(e));
    lists::put(
        cells,
        layout::ISOLATED_CELL,
        &diamond_plans::sides_of(travel, w, e),
    );
}

// Writes the cells of the record.
fn write_cells(given: Record, cells: &mut [u32])
    requires { length cells.old ≡ diamond_count }
    ensures { cells.new ≡ diamond_of given.entry.numbers.now }
{
    let w = diamond_sides::side_at(given.west(), EB, WB, SB);
    let e = diamond_sides::side_at(given.east(), WB, EB, NB);
    put_front(cells, given.travel(), w, e);
    lists::put(cells, layout::PLAN_FROM, &best_at(given, w, e));
}

// Rates the record; where it or the cells are refused, the cells stay as they were.
pub fn rate(numbers: &[u32], cells: &mut [u32]) -> Answer
    ensures value { result ≡ diamond_answer numbers.now cells.old }
    ensures cells_after { cells.new ≡ rated numbers.now cells.old }
{
    let size = check_cells(cells);
    let Answer::Accepted = size else {
        return size;
    };
    let judged = diamond_judging::judge(numbers);
    let Answer::Accepted = judged else {
        return judged;
    };
    write_cells(Record::new(numbers), cells);
    Answer::Accepted
}
