// The times that the groups of an approach take: lines 13–18.
#![tactic(auto)]

ghost use Rattle.std.specs.Prelude.{◌≡◌, cond, ◌≤◌, eqb};
ghost use Rattle.kinds.specs.declared.Kind.TheVariants.{LostTime, MinimumGreen};
ghost use Rattle.kinds.specs.Kinds.{Within};
ghost use Rattle.procedure.specs.Ranges.{Fair, FairCycle};
ghost use Rattle.procedure.specs.Lines.{part, adjusted_of};
ghost use Rattle.units.specs.Unit.{whole};
ghost use Rattle.line_bounds.specs.Bounds.{most_reference};
ghost use Rattle.line_formulas.specs.Working.{weighed_by, nobody_by};
ghost use Rattle.line_stages.specs.Stages.{volumes_of, flows_of, walking_of, times_of};

use kinds::Cycle;
use line_stages::{Flows, Times, Volumes, Walking};
use procedure::{Approach, Movement};
use units::{Ms, Vph};

// Lines 16 and 18: with lost time, and at least the minimum; a part without volume takes no time.
fn adjusted_time(volume: Vph, m: Movement, reference: Ms) -> Ms
    requires { (Within LostTime m.lost.0.0) × (Within MinimumGreen m.green.0.0) × (reference.0 ≤ most_reference) }
    ensures { result.0 ≡ part volume.0 (adjusted_of m.lost.0.0 m.green.0.0 reference.0) }
{
    if volume.0 == 0 {
        return Ms(0);
    }
    line_formulas::adjust(m.lost.0, m.green.0, reference)
}

// Line 17: the same, weighted by how often there are walkers, whose time is left where nobody drives.
fn weighted_time(volume: Vph, s: Approach, frequency: u32, reference: Ms) -> Ms
    requires { Fair s × (frequency ≤ whole) × (reference.0 ≤ most_reference) }
    ensures { result.0 ≡ cond (eqb volume.0 0) (nobody_by s frequency) (weighed_by s frequency reference.0) }
{
    if volume.0 == 0 {
        return line_formulas::weigh_nobody(s, frequency);
    }
    line_formulas::weigh(s, frequency, reference)
}

// Lines 13–18.
pub fn times_of(s: Approach, v: Volumes, f: Flows, w: Walking, cycle: Cycle) -> Times
    requires { Fair s × (v ≡ volumes_of s) × (f ≡ flows_of s) × (w ≡ walking_of s cycle.0) × FairCycle cycle.0 }
    ensures { result ≡ times_of s cycle.0 }
{
    let left = line_formulas::part_time(v.left, cycle, f.left, Ms(0));
    let through = line_formulas::part_time(v.through, cycle, f.through, w.through);
    let right = line_formulas::part_time(v.right, cycle, f.right, w.right);
    Times {
        left,
        through,
        right,
        adjustedleft: adjusted_time(v.left, s.left, left),
        adjustedthrough: weighted_time(v.through, s, w.frequency, through),
        adjustedright: adjusted_time(v.right, s.right, right),
    }
}
