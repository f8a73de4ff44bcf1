// The four cells of a pair of opposite approaches: protected, permitted, split, and the one that is picked.
#![tactic(auto)]

ghost use Rattle.std.specs.Prelude.{◌≡◌, cond, ◌||◌, [], ◌∷◌, ◌+◌, ◌≤◌, max, eqb};
ghost use Rattle.layout.specs.Sheet.{BLANK as blank};
ghost use Rattle.procedure.specs.Pairs.{protected, picked, pair, pair_for, pick_of};
ghost use Rattle.line_bounds.specs.Bounds.{most_adjusted, Bounded};
ghost use Rattle.line_stages.specs.Cells.{cells_of, cells_for};
ghost use Rattle.sheet_pairs.specs.Picks.{pick_number, pick_at, chosen};
ghost use Rattle.sheet_pairs.specs.Cells.{pair_cells, pair_in};

use layout::Worksheet;
use line_stages::{Lines, Times};
use units::Ms;

// Where a phasing is not allowed, as its cell holds it by the rules; a pick compares the cells, in which it is the largest.
pub const BLANK: Ms = Ms(layout::BLANK);

// Which phasing of a pair is picked.
#[derive(Clone, Copy, PartialEq, Eq, Debug)]
pub enum Pick {
    Protected,
    Permitted,
    Split,
}

// The number that stands for it in the pair's cell.
impl From<Pick> for u32 {
    ghost from_gives = { λ pick number. number ≡ pick_number pick };

    fn from(pick: Pick) -> u32 {
        match pick {
            Pick::Protected => 0,
            Pick::Permitted => 1,
            Pick::Split => 2,
        }
    }
}

impl Pick {
    // The pick that a cell's number stands for: any past the first two is split.
    pub fn at(number: u32) -> Pick
        ensures { result ≡ pick_at number }
    {
        match number {
            0 => Pick::Protected,
            1 => Pick::Permitted,
            _ => Pick::Split,
        }
    }

    // The least of the three, the earlier on a tie. BLANK is larger than any time.
    pub fn least(protected: Ms, permitted: Ms, split: Ms) -> Pick
        ensures { pick_number result ≡ picked protected.0 permitted.0 split.0 }
    {
        if protected.0 <= permitted.0 && protected.0 <= split.0 {
            Pick::Protected
        } else if permitted.0 <= split.0 {
            Pick::Permitted
        } else {
            Pick::Split
        }
    }

    // What goes by the pick.
    pub fn choose<T: Copy>(self, protected: T, permitted: T, split: T) -> T
        ensures { result ≡ chosen self protected permitted split }
    {
        match self {
            Pick::Protected => protected,
            Pick::Permitted => permitted,
            Pick::Split => split,
        }
    }
}

// The totals of a pair, and the number of the one that is picked, as their cells hold them.
#[derive(Clone, Copy)]
pub struct Pair {
    pub protected: Ms,
    pub permitted: Ms,
    pub split: Ms,
    pub picked: u32,
}

// One approach's left with the other's through, whichever is larger; not where a lane is shared.
fn protected_time(shared: bool, x: Times, y: Times) -> Ms
    requires { (x.adjustedleft.0 ≤ most_adjusted) × (x.adjustedthrough.0 ≤ most_adjusted) × (y.adjustedleft.0 ≤ most_adjusted)
        × (y.adjustedthrough.0 ≤ most_adjusted) }
    ensures { result.0 ≡ cond shared blank (max (x.adjustedleft.0 + y.adjustedthrough.0) (y.adjustedleft.0 + x.adjustedthrough.0)) }
{
    if shared {
        return BLANK;
    }
    let one = Ms(x.adjustedleft.0 + y.adjustedthrough.0);
    one.max(Ms(y.adjustedleft.0 + x.adjustedthrough.0))
}

fn permitted_time(x: Ms, y: Ms) -> Ms
    ensures { result.0 ≡ cond (eqb x.0 blank || eqb y.0 blank) blank (max x.0 y.0) }
{
    if x.0 == BLANK.0 {
        return BLANK;
    }
    if y.0 == BLANK.0 {
        return BLANK;
    }
    x.max(y)
}

// The cells of a junction's pair, from the lines of its two approaches.
fn choice_of(shared: bool, x: Lines, y: Lines) -> Pair
    requires { Bounded (cells_of x) × Bounded (cells_of y) }
    ensures { pair_cells result ≡ pair shared (cells_of x) (cells_of y) }
{
    let protected = protected_time(shared, x.first.times, y.first.times);
    let permitted = permitted_time(x.later.permitted.weighted, y.later.permitted.weighted);
    let split = Ms(x.later.split.weighted.0 + y.later.split.weighted.0);
    Pair {
        protected,
        permitted,
        split,
        picked: u32::from(Pick::least(protected, permitted, split)),
    }
}

// Of a single point's: protected is the only phasing, and so the one that is picked.
fn protected_of(shared: bool, x: Lines, y: Lines) -> Pair
    requires { Bounded (cells_of x) × Bounded (cells_of y) }
    ensures { (result.protected.0 ≡ protected shared (cells_of x) (cells_of y)) × (result.picked ≡ pick_number Pick.Protected) }
{
    Pair {
        protected: protected_time(shared, x.first.times, y.first.times),
        permitted: BLANK,
        split: BLANK,
        picked: u32::from(Pick::Protected),
    }
}

// The cells of a pair on a sheet of a kind, and its pick, from the lines of its two approaches.
pub fn pair_of(kind: Worksheet, shared: bool, x: Lines, y: Lines) -> Pair
    requires { Bounded (cells_of x) × Bounded (cells_of y) }
    ensures result_value { pair_in kind result ≡ pair_for kind shared (cells_for kind x) (cells_for kind y) }
    ensures picked_value { result.picked ≡ pick_of (pair_in kind result) }
{
    match kind {
        Worksheet::Junction => choice_of(shared, x, y),
        Worksheet::Point => protected_of(shared, x, y),
    }
}

// The cells in their order.
pub fn cells_of(pair: Pair) -> [u32; layout::PAIR_CELLS]
    ensures { result ≡ pair_cells pair }
{
    [
        pair.protected.0,
        pair.permitted.0,
        pair.split.0,
        pair.picked,
    ]
}
