// What those who walk take from those who turn right: lines 10–12 of an approach.
#![tactic(auto)]

ghost use Rattle.std.specs.Prelude.{◌≡◌, ◌*◌, ◌≤◌, eqb};
ghost use Rattle.units.specs.Rounding.{up};
ghost use Rattle.kinds.specs.declared.Kind.TheVariants.{Pedestrians as Walkers};
ghost use Rattle.kinds.specs.Kinds.{Within};
ghost use Rattle.procedure.specs.Ranges.{Fair, FairCycle};
ghost use Rattle.procedure.specs.Lines.{G, frequency};
ghost use Rattle.line_bounds.specs.Bounds.{most_volume, most_held};
ghost use Rattle.line_stages.specs.Stages.{volumes_of, walking_of};

use kinds::{Cycle, Pedestrians, PushButton};
use line_stages::{Volumes, Walking};
use procedure::Approach;
use units::{Ms, Vph};

// G, the part of a cycle that walkers take; where nobody walks no decay number is asked for.
fn walkers_part(p: Pedestrians, cycle: Cycle) -> Ms
    requires { (Within Walkers p.0) × (FairCycle cycle.0) }
    ensures { result.0 ≡ G p.0 cycle.0 }
{
    if p.0 == 0 {
        return Ms(0);
    }
    let waiting = line_decay::decay_number(p.0 as u64 * (cycle.0 - 8) as u64);
    let coming = line_decay::decay_number(4 * p.0 as u64);
    Ms(24_000 - ((8 * waiting + 16 * coming) / 1_000_000) as u32)
}

// The share of some vehicles in what the whole volume would bear, up.
fn share(part: Ms, some: Vph, volume: Vph) -> Ms
    requires { (part.0 ≤ most_held) × (some.0 ≤ volume.0) × (volume.0 ≤ most_volume) }
    ensures { result.0 ≡ up (part.0 * some.0) volume.0 }
{
    Ms(units::divide_up(part.0 as u64 * some.0 as u64, volume.0 as u64) as u32)
}

// Line 12: how often there are walkers in a cycle, in ten-thousandths.
fn walkers_frequency(p: Pedestrians, button: PushButton, cycle: Cycle) -> u32
    requires { (Within Walkers p.0) × (FairCycle cycle.0) }
    ensures { result ≡ frequency p.0 (eqb button.0 1) cycle.0 }
{
    if p.0 == 0 {
        return 0;
    }
    if button.0 != 1 {
        return units::WHOLE;
    }
    units::WHOLE - (line_decay::decay_number(2 * p.0 as u64 * cycle.0 as u64) / 100_000) as u32
}

// Lines 10–12. G is asked for once: the right lanes bear it, or without them the through lanes, by the share of the rights in them.
pub fn walking_of(s: Approach, v: Volumes, cycle: Cycle) -> Walking
    requires { Fair s × (v ≡ volumes_of s) × FairCycle cycle.0 }
    ensures { result ≡ walking_of s cycle.0 }
{
    let frequency = walkers_frequency(s.walkers, s.button, cycle);
    let rights = s.right.volume.0;
    if s.right.lanes.0 + rights.0 == 0 {
        return Walking {
            right: Ms(0),
            through: Ms(0),
            frequency,
        };
    }
    let part = walkers_part(s.walkers, cycle);
    if 0 < s.right.lanes.0 {
        return Walking {
            right: part,
            through: Ms(0),
            frequency,
        };
    }
    Walking {
        right: Ms(0),
        through: share(part, rights, v.through),
        frequency,
    }
}
