// Lines 19–22: the heaviest lane, its share of lefts, and what that lane carries through oncoming traffic.
#![tactic(auto)]

ghost use Rattle.std.specs.Prelude.{◌≡◌, ◌+◌, ◌-◌, ◌*◌, ◌/◌, ◌^◌, ◌≤◌, ◌<◌};
ghost use Rattle.units.specs.Rounding.{up};
ghost use Rattle.kinds.specs.declared.Kind.TheVariants.{Lanes as LaneKind};
ghost use Rattle.kinds.specs.Working.{most_of};
ghost use Rattle.procedure.specs.Ranges.{Fair, FairCycle};
ghost use Rattle.procedure.specs.Lines.{heaviest, equivalent, flow_a};
ghost use Rattle.units.specs.Unit.{whole};
ghost use Rattle.line_bounds.specs.Bounds.{most_volume, least_lane_flow, most_flow, most_equivalent};
ghost use Rattle.line_stages.specs.Stages.{volumes_of, flows_of, meeting_of, left_lane_of};

use kinds::{Cycle, Lanes};
use line_stages::{Flows, LeftLane, Meeting, Volumes};
use procedure::Approach;
use units::{Flow, Vph};

// A whole, in products of 64 bits.
const WHOLE: u64 = units::WHOLE as u64;

// a / b, rounded up, of small numbers: u32's div_ceil, which asks for the remainder, takes 5 % longer, and units' divides 64 bits.
pub fn share_out(a: u32, b: u32) -> u32
    requires { (a + b < 2 ^ 32) × (0 < b) }
    ensures { result ≡ up a b }
{
    (a + (b - 1)) / b
}

// Line 19, of the folded lefts and all that the through lanes carry.
fn heaviest_lane(lefts: Vph, all: Vph, lanes: Lanes) -> Vph
    requires { (lefts.0 ≤ all.0) × (all.0 ≤ most_volume) × (0 < lanes.0) × (lanes.0 ≤ most_of LaneKind) }
    ensures { result.0 ≡ heaviest lefts.0 all.0 lanes.0 }
{
    let each = share_out(4 * lefts.0 + all.0, lanes.0);
    if each <= 5 * lefts.0 {
        return lefts;
    }
    Vph(each - 4 * lefts.0)
}

// Line 20.
fn share_of_lefts(lefts: Vph, lane: Vph) -> u32
    requires { (lefts.0 ≤ lane.0) × (lane.0 ≤ most_volume) }
    ensures { result ≡ up (whole * lefts.0) lane.0 }
{
    if lefts.0 == 0 {
        return 0;
    }
    share_out(units::WHOLE * lefts.0, lane.0)
}

// Line 21, of a share of lefts and the oncoming share. With nothing oncoming, no lefts and all lefts have the same.
pub fn equivalent_of(share: u32, oncoming: u32, cycle: Cycle) -> u32
    requires { (share ≤ whole) × (oncoming ≤ whole) × (FairCycle cycle.0) }
    ensures { result ≡ equivalent share oncoming cycle.0 }
{
    if oncoming + share * (units::WHOLE - share) == 0 {
        return 2_500 * cycle.0;
    }
    let q = share as u64;
    let over = (500_000_000 + 80_000 * q - 3 * (q * q)) * cycle.0 as u64;
    let under = 10 * (2 * (WHOLE + q) + oncoming as u64 * cycle.0 as u64);
    units::divide_up(over, under) as u32
}

// The inner quotient of line 22, whose divisor is 10⁴·E where all turn left.
fn parts_of(share: u32, equivalent: u32) -> u32
    requires { (share ≤ whole) × (1 ≤ equivalent) × (equivalent ≤ most_equivalent) }
    ensures { result ≡ 1_000_000_000_000 / (100_000_000 + share * equivalent - whole * share) }
{
    if share == units::WHOLE {
        return 100_000_000 / equivalent;
    }
    let under = 100_000_000 + share as u64 * equivalent as u64 - WHOLE * share as u64;
    (1_000_000_000_000 / under) as u32
}

// Line 22. Without lefts each lane has its part of line 6.
pub fn flow_a(flow: Flow, share: u32, equivalent: u32, lanes: Lanes) -> Flow
    requires { (flow.0 ≤ most_flow) × (share ≤ whole) × (1 ≤ equivalent) × (equivalent ≤ most_equivalent) × (0 < lanes.0)
        × (least_lane_flow * lanes.0 ≤ flow.0) }
    ensures { result.0 ≡ flow_a flow.0 share equivalent lanes.0 }
{
    if share == 0 {
        return Flow(flow.0 / lanes.0);
    }
    let carried = flow.0 as u64 * parts_of(share, equivalent) as u64;
    Flow((carried / (lanes.0 as u64 * WHOLE)) as u32)
}

// Lines 19–22.
pub fn left_lane_of(
    s: Approach,
    o: Approach,
    v: Volumes,
    f: Flows,
    m: Meeting,
    cycle: Cycle,
) -> LeftLane
    requires { Fair s × (v ≡ volumes_of s) × (f ≡ flows_of s) × (m ≡ meeting_of s o) × FairCycle cycle.0 }
    ensures { result ≡ left_lane_of s o cycle.0 }
{
    if v.through.0 == 0 {
        return LeftLane {
            heaviest: Vph(0),
            share: 0,
            equivalent: 0,
            flow: Flow(0),
        };
    }
    let heaviest = heaviest_lane(v.foldedleft, v.through, s.through.lanes);
    let share = share_of_lefts(v.foldedleft, heaviest);
    let equivalent = equivalent_of(share, m.share, cycle);
    let flow = flow_a(f.through, share, equivalent, s.through.lanes);
    LeftLane {
        heaviest,
        share,
        equivalent,
        flow,
    }
}
