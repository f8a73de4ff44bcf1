// Lines 27 and 28: the approach by itself, with every movement in one phase.
#![tactic(auto)]

ghost use Rattle.std.specs.Prelude.{◌≡◌};
ghost use Rattle.procedure.specs.Ranges.{Fair, FairCycle};
ghost use Rattle.procedure.specs.Lines.{line27};
ghost use Rattle.line_stages.specs.Stages.{first_of, split_of};

use kinds::Cycle;
use line_stages::{First, Split};
use procedure::Approach;
use units::Ms;

// Line 27; without folded lefts its parts are lines 13 and 14.
fn largest_of(s: Approach, x: First, cycle: Cycle) -> Ms
    requires { Fair s × (x ≡ first_of s cycle.0) × FairCycle cycle.0 }
    ensures { result.0 ≡ line27 s cycle.0 }
{
    if x.volumes.foldedleft.0 == 0 {
        return x.times.through.max(x.times.left);
    }
    let straight = line_formulas::part_time(
        x.volumes.straight,
        cycle,
        x.flows.straight,
        x.walking.through,
    );
    let lefts = line_formulas::part_time(s.left.volume.0, cycle, x.flows.lefts, Ms(0));
    x.times.through.max(straight.max(lefts))
}

// Lines 27 and 28; where nobody drives line 28 is for those who cross.
pub fn split_of(s: Approach, x: First, cycle: Cycle) -> Split
    requires { Fair s × (x ≡ first_of s cycle.0) × FairCycle cycle.0 }
    ensures { result ≡ split_of s cycle.0 }
{
    let largest = largest_of(s, x, cycle);
    if x.volumes.left.0 + x.volumes.through.0 == 0 {
        let crossing = line_formulas::weigh_nobody(s, x.walking.frequency);
        return Split {
            largest,
            weighted: crossing,
        };
    }
    Split {
        largest,
        weighted: line_formulas::weigh(s, x.walking.frequency, largest),
    }
}
