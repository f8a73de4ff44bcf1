// Formulas that several lines share: a time from a volume and its flow, and the two ways in which a time is adjusted.
#![tactic(auto)]

ghost use Rattle.std.specs.Prelude.{◌≡◌, ◌*◌, ◌+◌, ◌≤◌};
ghost use Rattle.units.specs.Unit.{flow_unit, whole};
ghost use Rattle.kinds.specs.declared.Kind.TheVariants.{LostTime, MinimumGreen, Cycle as CycleKind};
ghost use Rattle.kinds.specs.Working.{most_of};
ghost use Rattle.procedure.specs.Lines.{time, part, adjusted_of, crossed};
ghost use Rattle.procedure.specs.Ranges.{Fair};
ghost use Rattle.line_bounds.specs.Bounds.{most_volume, most_held, most_mixed, most_mixed_served, most_reference, most_option, Passes};
ghost use Rattle.line_formulas.specs.Working.{weighed_by, nobody_by};

use kinds::Cycle;
use procedure::Approach;
use units::{Flow, Ms, Vph};

// Milliseconds of a second, times the parts of a flow that make a vehicle per hour.
const TIME_SCALE: u64 = 1000 * units::FLOW_UNIT;

// 10,000·v·CL over a flow in tenths, up; the flow carries at least a small part of the volume.
pub fn time_for(volume: Vph, cycle: Cycle, flow: Flow) -> Ms
    requires { (volume.0 ≤ most_volume) × (cycle.0 ≤ most_of CycleKind) × (flow_unit * volume.0 ≤ most_mixed_served * flow.0) × (flow.0 ≤ most_mixed) }
    ensures { result.0 ≡ time volume.0 cycle.0 flow.0 }
{
    Ms(units::divide_up(
        TIME_SCALE * (volume.0 as u64) * (cycle.0 as u64),
        flow.0 as u64,
    ) as u32)
}

// The time of a part of an approach, with what holds it up; a part without volume takes none.
pub fn part_time(volume: Vph, cycle: Cycle, flow: Flow, held: Ms) -> Ms
    requires { Passes volume.0 cycle.0 flow.0 × (held.0 ≤ most_held) }
    ensures { result.0 ≡ part volume.0 (time volume.0 cycle.0 flow.0 + held.0) }
{
    if volume.0 == 0 {
        return Ms(0);
    }
    Ms(time_for(volume, cycle, flow).0 + held.0)
}

// Lost time, and the larger of the minimum and the reference time.
pub fn adjust(lost: Ms, minimum: Ms, reference: Ms) -> Ms
    requires { (lost.0 ≤ most_of LostTime) × (minimum.0 ≤ most_of MinimumGreen) × (reference.0 ≤ most_reference) }
    ensures { result.0 ≡ adjusted_of lost.0 minimum.0 reference.0 }
{
    Ms(lost.0 + minimum.max(reference).0)
}

// The same of an approach's through, with the time that walkers need, weighted by how often they come.
pub fn weigh(s: Approach, frequency: u32, reference: Ms) -> Ms
    requires { Fair s × (frequency ≤ whole) × (reference.0 ≤ most_option) }
    ensures { result.0 ≡ weighed_by s frequency reference.0 }
{
    let a = s.through.green.0.max(reference);
    let b = a.max(s.crossing.0);
    let walking = units::divide_up((b.0 - a.0) as u64 * frequency as u64, units::WHOLE as u64);
    Ms(s.through.lost.0.0 + a.0 + walking as u32)
}

// Whether people cross here: there are through lanes, and pedestrians.
fn is_crossed(s: Approach) -> bool
    ensures { result ≡ crossed s }
{
    0 < s.through.lanes.0 && 0 < s.walkers.0
}

// Where nobody drives: the time of those who cross, weighed as any other from a reference time of 0.
pub fn weigh_nobody(s: Approach, frequency: u32) -> Ms
    requires { Fair s × (frequency ≤ whole) }
    ensures { result.0 ≡ nobody_by s frequency }
{
    if is_crossed(s) {
        return weigh(s, frequency, Ms(0));
    }
    Ms(0)
}
