// Lines 1–9 of an approach: the volumes of its groups, and the flows that serve them.
#![tactic(auto)]

ghost use Rattle.std.specs.Prelude.{◌≡◌, cond, ◌≤◌};
ghost use Rattle.kinds.specs.declared.Kind.TheVariants.{Lanes as LaneKind, IdealFlow, LaneFactor as FactorKind};
ghost use Rattle.kinds.specs.declared.Group.TheVariants.{Left, Through};
ghost use Rattle.kinds.specs.Working.{most_of};
ghost use Rattle.line_factors.specs.Factors.{factor_of};
ghost use Rattle.procedure.specs.Lines.{turning_t, turning_st, flow_of, flow, s_st, s_sl};
ghost use Rattle.procedure.specs.Ranges.{Fair};
ghost use Rattle.units.specs.Unit.{whole};
ghost use Rattle.line_bounds.specs.Bounds.{most_volume};
ghost use Rattle.line_stages.specs.Stages.{volumes_of, flows_of};

use kinds::{Group, LaneFactor, Lanes};
use line_stages::{Flows, Volumes};
use procedure::{Approach, Movement};
use units::{Flow, Vph};

// What the product of a flow is divided by: factors in thousandths and ten-thousandths, in the flows' unit.
const PRODUCT: u64 = 10_000_000 / units::FLOW_UNIT;

// Where all turn left.
const LEFT: u32 = 9_500;

// Where all turn right.
const RIGHT: u32 = 8_500;

// Lines 1–3: without a lane of its own a right turn counts as through, and so does a left turn from a shared lane.
pub fn volumes_of(s: Approach) -> Volumes
    requires { Fair s }
    ensures { result ≡ volumes_of s }
{
    let shared = s.shared.0 == 1;
    let laneless = s.right.lanes.0 == 0;
    let foldedleft = if shared { s.left.volume.0 } else { Vph(0) };
    let foldedright = if laneless { s.right.volume.0 } else { Vph(0) };
    let through = Vph(s.through.volume.0.0 + foldedleft.0 + foldedright.0);
    Volumes {
        left: if shared { Vph(0) } else { s.left.volume.0 },
        through,
        right: if laneless { Vph(0) } else { s.right.volume.0 },
        foldedright,
        foldedleft,
        straight: Vph(through.0 - foldedleft.0),
    }
}

// What the right turns alone leave of a flow, for line 8.
fn straight_turning_of(straight: Vph, right: Vph) -> u32
    requires { (straight.0 ≤ most_volume) × (right.0 ≤ straight.0) }
    ensures { result ≡ turning_st straight.0 right.0 }
{
    if right.0 == 0 {
        return units::WHOLE;
    }
    100 * (100 * straight.0 - 15 * right.0) / straight.0
}

// Line 4: what the turns among the through leave of its flow; without left turns as line 8 has it.
fn turning_of(through: Vph, right: Vph, left: Vph) -> u32
    requires { (through.0 ≤ most_volume) × (right.0 ≤ through.0) × (left.0 ≤ through.0) }
    ensures { result ≡ turning_t through.0 right.0 left.0 }
{
    if left.0 == 0 {
        return straight_turning_of(through, right);
    }
    let v = through.0 as u64;
    let rights = 100 * v - 15 * right.0 as u64;
    let lefts = 100 * v - 5 * left.0 as u64;
    (rights * lefts / (v * v)) as u32
}

// The flow of a group's lanes, down; without a lane there is none.
fn flow_of(group: Group, ideal: Vph, lanes: Lanes, measured: LaneFactor, turning: u32) -> Flow
    requires { (ideal.0 ≤ most_of IdealFlow) × (lanes.0 ≤ most_of LaneKind) × (measured.0 ≤ most_of FactorKind) × (turning ≤ whole) }
    ensures { result.0 ≡ flow_of ideal.0 lanes.0 (factor_of group lanes.0 measured.0) turning }
{
    if lanes.0 == 0 {
        return Flow(0);
    }
    let share = line_factors::factor_of(group, lanes, measured) as u64;
    let scaled = ideal.0 as u64 * lanes.0 as u64 * share * turning as u64;
    Flow((scaled / PRODUCT) as u32)
}

// The same of a movement's own lanes.
fn group_flow(group: Group, m: Movement, turning: u32) -> Flow
    requires { (m.ideal.0.0 ≤ most_of IdealFlow) × (m.lanes.0 ≤ most_of LaneKind) × (m.measured.0 ≤ most_of FactorKind) × (turning ≤ whole) }
    ensures { result.0 ≡ flow_of m.ideal.0.0 m.lanes.0 (factor_of group m.lanes.0 m.measured.0) turning }
{
    flow_of(group, m.ideal.0, m.lanes, m.measured, turning)
}

// Line 9: line 5, but the left of a shared lane has that lane, and what was measured of the left.
fn lefts_of(s: Approach, left: Flow) -> Flow
    requires { Fair s × (left.0 ≡ flow s Left) }
    ensures { result.0 ≡ s_sl s }
{
    if s.shared.0 == 1 {
        return flow_of(
            Group::Left,
            s.left.ideal.0,
            Lanes::new(1),
            s.left.measured,
            LEFT,
        );
    }
    left
}

// Line 8: line 6, but without the folded left turns.
fn straight_of(s: Approach, v: Volumes, through: Flow) -> Flow
    requires { Fair s × (v ≡ volumes_of s) × (through.0 ≡ flow s Through) }
    ensures { result.0 ≡ s_st s }
{
    if v.foldedleft.0 == 0 {
        return through;
    }
    let rights = straight_turning_of(v.straight, v.foldedright);
    group_flow(Group::Through, s.through, rights)
}

// Lines 4–9.
pub fn flows_of(s: Approach, v: Volumes) -> Flows
    requires { Fair s × (v ≡ volumes_of s) }
    ensures { result ≡ flows_of s }
{
    let turns = turning_of(v.through, v.foldedright, v.foldedleft);
    let left = group_flow(Group::Left, s.left, LEFT);
    let through = group_flow(Group::Through, s.through, turns);
    Flows {
        turning: turns,
        left,
        through,
        right: group_flow(Group::Right, s.right, RIGHT),
        straight: straight_of(s, v, through),
        lefts: lefts_of(s, left),
    }
}
