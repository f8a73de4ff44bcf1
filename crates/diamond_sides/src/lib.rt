// The interchange times of a diamond's sides: the adjusted times of lines 16–18, but for free rights.
#![tactic(auto)]

ghost use Rattle.std.specs.Prelude.{◌≡◌, cond, ◌<◌, eqb};
ghost use Rattle.answers.specs.declared.Answer.TheVariants.{Accepted};
ghost use Rattle.layout.specs.Entries.{approach_count};
ghost use Rattle.entries.specs.Layout.{cycle};
ghost use Rattle.entries.specs.Judging.{judged};
ghost use Rattle.procedure.specs.Approach.{read_approach};
ghost use Rattle.diamond_rules.specs.Lines.{side_at};
ghost use Rattle.diamond_sides.specs.Working.{served_of};

use diamond_rules::Side;
use kinds::FreeRight;
use layout::Worksheet;
use units::Ms;

// The interchange times of an approach.
#[derive(Clone, Copy)]
struct Served {
    left: Ms,
    through: Ms,
    right: Ms,
}

// A free right takes no time of the signal's.
fn unless_free(free: FreeRight, right: Ms) -> Ms
    ensures { result.0 ≡ cond (eqb free.0 1) 0 right.0 }
{
    if free.0 == 1 {
        return Ms(0);
    }
    right
}

// Lines 1–18 look at the approach alone, whatever is opposite; they are asked for as of a single point, whose sheet has no more lines.
fn served_at(entries: &[u32], approach: usize) -> Served
    requires { (judged entries.now ≡ Accepted) × (approach < approach_count) }
    ensures { result ≡ served_of (read_approach entries.now approach) (cycle entries.now) }
{
    let lines = sheet_street::lines_at(Worksheet::Point, entries, approach, approach);
    let times = lines.first.times;
    let free = FreeRight::new(entries::approach_value(entries, approach, layout::FREE_NO));
    Served {
        left: times.adjustedleft,
        through: times.adjustedthrough,
        right: unless_free(free, times.adjustedright),
    }
}

// A side of acceptable entries: the approach from outside, the one from the other junction and the one off the ramp.
pub fn side_at(entries: &[u32], outer: usize, inner: usize, ramp: usize) -> Side
    requires { (judged entries.now ≡ Accepted) × (outer < approach_count) × (inner < approach_count) × (ramp < approach_count) }
    ensures { result ≡ side_at entries.now outer inner ramp }
{
    let x = served_at(entries, outer);
    let y = served_at(entries, inner);
    let z = served_at(entries, ramp);
    Side {
        through: x.through,
        right: x.right,
        onramp: y.left,
        inner: y.through,
        rampleft: z.left,
        rampthrough: z.through,
        rampright: z.right,
    }
}
