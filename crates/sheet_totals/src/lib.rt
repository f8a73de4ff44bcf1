// The last eight cells: right totals, combined, required, ICU and letter.
#![tactic(auto)]

ghost use Rattle.std.specs.Prelude.{◌≡◌, ◌+◌, ◌≤◌, max, eqb, get_or};
ghost use Rattle.kinds.specs.declared.Kind.TheVariants.{Cycle as CycleKind};
ghost use Rattle.kinds.specs.Kinds.{Within};
ghost use Rattle.procedure.specs.Pairs.{line, picked_time, through_time, left_time, right_total, icu_of, ends_passed, letter_of};
ghost use Rattle.procedure.specs.Sheet.{last_of};
ghost use Rattle.line_bounds.specs.Bounds.{most_adjusted, most_picked};
ghost use Rattle.line_stages.specs.Cells.{cells_of};
ghost use Rattle.sheet_pairs.specs.Cells.{pair_cells};

use kinds::{Cycle, FreeRight};
use line_stages::Lines;
use sheet_pairs::{Pair, Pick};
use units::Ms;

// The time of an approach's through, by the pick of its pair.
fn through_time(pair: Pair, lines: Lines) -> Ms
    ensures { result.0 ≡ through_time (pair_cells pair) (cells_of lines) }
{
    Pick::at(pair.picked).choose(
        lines.first.times.adjustedthrough,
        lines.later.permitted.weighted,
        lines.later.split.weighted,
    )
}

// The time of an approach's left, by the pick of its pair.
fn left_time(pair: Pair, lines: Lines) -> Ms
    ensures { result.0 ≡ left_time (pair_cells pair) (cells_of lines) }
{
    Pick::at(pair.picked).choose(
        lines.first.times.adjustedleft,
        Ms(0),
        lines.later.split.weighted,
    )
}

// A right turn's total, with the through that crosses it and the left that comes towards it.
fn right_total(free: FreeRight, lines: Lines, cross: Ms, left: Ms) -> Ms
    requires { (line 18 (cells_of lines) ≤ most_adjusted) × (cross.0 ≤ most_picked) × (left.0 ≤ most_adjusted) }
    ensures { result.0 ≡ right_total (eqb free.0 1) (cells_of lines) cross.0 left.0 }
{
    if lines.first.volumes.right.0 == 0 {
        return Ms(0);
    }
    let right = lines.first.times.adjustedright;
    if free.0 == 1 {
        return right;
    }
    Ms(right.0 + cross.0 + left.0)
}

// The right total of an approach, from its own pair and the pair that crosses it.
pub fn right_of(
    free: FreeRight,
    lines: Lines,
    oncoming: Lines,
    pair: Pair,
    cross: Lines,
    crosspair: Pair,
) -> Ms
    requires { (line 18 (cells_of lines) ≤ most_adjusted) × (through_time (pair_cells crosspair) (cells_of cross) ≤ most_picked)
        × (left_time (pair_cells pair) (cells_of oncoming) ≤ most_adjusted) }
    ensures { result.0 ≡ right_total (eqb free.0 1) (cells_of lines) (through_time (pair_cells crosspair) (cells_of cross))
        (left_time (pair_cells pair) (cells_of oncoming)) }
{
    right_total(
        free,
        lines,
        through_time(crosspair, cross),
        left_time(pair, oncoming),
    )
}

// The cell of a number; 0 past the last.
fn cell_at(cells: &[u32], number: u32) -> u32
    ensures { result ≡ get_or cells.now number 0 }
{
    cells.get(number as usize).copied().unwrap_or(0)
}

// The time of a pair's picked phasing: its cell of that number.
pub fn picked_time(pair: Pair) -> Ms
    ensures { result.0 ≡ picked_time (pair_cells pair) }
{
    let cells = sheet_pairs::cells_of(pair);
    Ms(cell_at(&cells, pair.picked))
}

// Where the letters A to G end, in tenths of a percent; H is above.
const ENDS: [u32; 7] = [550, 640, 730, 820, 910, 1_000, 1_090];

// How many of the ends a number has passed.
fn passed(ends: &[u32], number: u32) -> usize
    ensures { result ≡ ends_passed ends.now number }
{
    for (i, end) in ends.iter().enumerate() {
        if number <= *end {
            return i;
        }
    }
    ends.len()
}

// A to H as 0 to 7.
pub fn letter_of(icu: u32) -> u32
    ensures { result ≡ letter_of icu }
{
    passed(&ENDS, icu) as u32
}

// Tenths of a percent, up.
pub fn icu_of(required: Ms, cycle: Cycle) -> u32
    requires { Within CycleKind cycle.0 }
    ensures { result ≡ icu_of required.0 cycle.0 }
{
    units::divide_up(required.0 as u64, cycle.0 as u64) as u32
}

// The right totals of the four approaches.
#[derive(Clone, Copy)]
pub struct Rights {
    pub eb: Ms,
    pub wb: Ms,
    pub nb: Ms,
    pub sb: Ms,
}

// The last cells, from the right totals and the combined time.
pub fn last_of(rights: Rights, combined: Ms, cycle: Cycle) -> [u32; layout::LAST_CELLS]
    requires { Within CycleKind cycle.0 }
    ensures { result ≡ last_of rights.eb.0 rights.wb.0 rights.nb.0 rights.sb.0 combined.0 cycle.0 }
{
    let right = rights.eb.max(rights.wb).max(rights.nb.max(rights.sb));
    let required = combined.max(right);
    let icu = icu_of(required, cycle);
    [
        rights.eb.0,
        rights.wb.0,
        rights.nb.0,
        rights.sb.0,
        combined.0,
        required.0,
        icu,
        letter_of(icu),
    ]
}
