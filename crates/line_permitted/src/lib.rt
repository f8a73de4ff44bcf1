// Lines 23–26: lefts that find their way through oncoming traffic.
#![tactic(auto)]

ghost use Rattle.std.specs.Prelude.{◌≡◌, cond, ◌+◌, ◌*◌, ◌≤◌, ◌<◌, IfSome};
ghost use Rattle.units.specs.Rounding.{up};
ghost use Rattle.units.specs.Unit.{flow_unit, whole};
ghost use Rattle.procedure.specs.Ranges.{Fair, FairCycle};
ghost use Rattle.procedure.specs.Lines.{part, time, allowed_a, empty, equivalent, flow_a, option_a_of, option_a};
ghost use Rattle.procedure.specs.Lines.{s_b, waiting, through_b, option_b};
ghost use Rattle.line_bounds.specs.Bounds.{most_volume, least_lane_flow, most_held, most_mixed, most_mixed_served, most_option, Passes};
ghost use Rattle.line_stages.specs.Stages.{ms, volumes_of, flows_of, first_of, meeting_of, left_lane_of, permitted_of};
ghost use Rattle.line_permitted.specs.Options.{cell, lesser_time, weighed_time};

use kinds::{Cycle, Lanes};
use line_stages::{First, Flows, LeftLane, Meeting, Permitted, Volumes};
use procedure::Approach;
use units::{Flow, Ms, Vph};

// What line 24 starts with, in milliseconds: the time in which the lanes beside a waiting left move.
const WAITING: u32 = 8_000;

// The T or the L value of line 23, of its heaviest lane and the flow of that lane. Where that lane is the slower one, as a
// rule, the group's own time is not needed.
fn option_a_of(lane: Vph, mixed: Flow, volume: Vph, flow: Flow, held: Ms, cycle: Cycle) -> Ms
    requires lane_le_most_volume { (lane.0 ≤ most_volume) × (flow_unit * lane.0 ≤ most_mixed_served * mixed.0) × (0 < volume.0 → 0 < mixed.0) × (mixed.0 ≤ most_mixed) }
    requires passes { Passes volume.0 cycle.0 flow.0 × (held.0 ≤ most_held) }
    ensures { result.0 ≡ part volume.0 (option_a_of lane.0 mixed.0 volume.0 flow.0 held.0 cycle.0) }
{
    if volume.0 == 0 {
        return Ms(0);
    }
    let delayed = Ms(line_formulas::time_for(lane, cycle, mixed).0 + held.0);
    if volume.0 as u64 * mixed.0 as u64 <= lane.0 as u64 * flow.0 as u64 {
        return delayed;
    }
    delayed.max(line_formulas::time_for(volume, cycle, flow))
}

// The L value of line 23: every car of the lane turns left.
fn left_option_a(volume: Vph, lanes: Lanes, flow: Flow, oncoming: u32, cycle: Cycle) -> Ms
    requires { Passes volume.0 cycle.0 flow.0 × (0 < volume.0 → 0 < lanes.0) × (least_lane_flow * lanes.0 ≤ flow.0)
        × (oncoming ≤ whole) × FairCycle cycle.0 }
    ensures { result.0 ≡ part volume.0
        (option_a_of (up volume.0 lanes.0) (flow_a flow.0 whole (equivalent whole oncoming cycle.0) lanes.0)
        volume.0 flow.0 0 cycle.0) }
{
    if volume.0 == 0 {
        return Ms(0);
    }
    let lane = Vph(line_left_lane::share_out(volume.0, lanes.0));
    let mixed = line_left_lane::flow_a(
        flow,
        units::WHOLE,
        line_left_lane::equivalent_of(units::WHOLE, oncoming, cycle),
        lanes,
    );
    option_a_of(lane, mixed, volume, flow, Ms(0), cycle)
}

// Line 23 of an approach that has volume, worked out only where it is allowed.
fn option_a(
    s: Approach,
    o: Approach,
    x: First,
    m: Meeting,
    lane: LeftLane,
    cycle: Cycle,
) -> Option<Ms>
    requires { Fair s × (x ≡ first_of s cycle.0) × (m ≡ meeting_of s o) × (lane ≡ left_lane_of s o cycle.0) × FairCycle cycle.0 }
    ensures { result ≡ cond (allowed_a s o) (Some (ms (option_a s o cycle.0))) None }
{
    if !m.alloweda {
        return None;
    }
    let through = option_a_of(
        lane.heaviest,
        lane.flow,
        x.volumes.through,
        x.flows.through,
        x.walking.through,
        cycle,
    );
    let left = left_option_a(x.volumes.left, s.left.lanes, x.flows.left, m.share, cycle);
    Some(through.max(left))
}

// Flow of the through lanes while a left waits in the shared one.
fn flow_b(s: Approach, f: Flows) -> Flow
    requires { Fair s × (f ≡ flows_of s) }
    ensures { result.0 ≡ s_b s }
{
    if s.shared.0 != 1 {
        return f.through;
    }
    let lanes = s.through.lanes.0;
    Flow(f.through.0 * (lanes - 1) / lanes)
}

// The through half of line 24; the flow beside a waiting left is no larger than the flow without lefts.
fn through_b(straight: Vph, flow: Flow, beside: Flow, held: Ms, cycle: Cycle) -> Ms
    requires { Passes straight.0 cycle.0 flow.0 × (beside.0 ≤ flow.0) × (held.0 ≤ most_held) }
    ensures { result.0 ≡ part straight.0 (through_b straight.0 flow.0 beside.0 held.0 cycle.0) }
{
    if straight.0 == 0 {
        return Ms(0);
    }
    let clears = line_formulas::time_for(straight, cycle, flow);
    Ms(WAITING + clears.0 - WAITING * beside.0 / flow.0 + held.0)
}

// The left half of line 24.
fn left_b(lefts: Vph, flow: Flow, cycle: Cycle) -> Ms
    requires { Passes lefts.0 cycle.0 flow.0 }
    ensures { result.0 ≡ part lefts.0 (waiting + time lefts.0 cycle.0 flow.0) }
{
    if lefts.0 == 0 {
        return Ms(0);
    }
    Ms(WAITING + line_formulas::time_for(lefts, cycle, flow).0)
}

// Line 24 of an approach that has volume, worked out only where it is allowed.
fn option_b(allowed: bool, s: Approach, x: First, cycle: Cycle) -> Option<Ms>
    requires { Fair s × (x ≡ first_of s cycle.0) × FairCycle cycle.0 }
    ensures { result ≡ cond allowed (Some (ms (option_b s cycle.0))) None }
{
    if !allowed {
        return None;
    }
    let through = through_b(
        x.volumes.straight,
        x.flows.straight,
        flow_b(s, x.flows),
        x.walking.through,
        cycle,
    );
    Some(through.max(left_b(s.left.volume.0, x.flows.lefts, cycle)))
}

fn is_empty(s: Approach, v: Volumes) -> bool
    requires { v ≡ volumes_of s }
    ensures { result ≡ empty s }
{
    v.left.0 == 0 && v.through.0 == 0
}

// Line 25.
fn lesser_of(a: Option<Ms>, b: Option<Ms>) -> Option<Ms>
    ensures { result ≡ lesser_time a b }
{
    match (a, b) {
        (Some(a), Some(b)) => Some(a.min(b)),
        (None, b) => b,
        (a, None) => a,
    }
}

// Line 26 of an approach that has volume.
fn weigh_if_allowed(s: Approach, frequency: u32, reference: Option<Ms>) -> Option<Ms>
    requires { Fair s × (frequency ≤ whole) × IfSome reference (λ time. time.0 ≤ most_option) }
    ensures { result ≡ weighed_time s frequency reference }
{
    Some(line_formulas::weigh(s, frequency, reference?))
}

// As the cell holds it.
fn cell(time: Option<Ms>) -> Ms
    ensures { result.0 ≡ cell time }
{
    time.unwrap_or(Ms(layout::BLANK))
}

// Lines 23–26.
pub fn permitted_of(
    s: Approach,
    o: Approach,
    x: First,
    m: Meeting,
    lane: LeftLane,
    cycle: Cycle,
) -> Permitted
    requires { Fair s × (x ≡ first_of s cycle.0) × (m ≡ meeting_of s o) × (lane ≡ left_lane_of s o cycle.0) × FairCycle cycle.0 }
    ensures { result ≡ permitted_of s o cycle.0 }
{
    if is_empty(s, x.volumes) {
        return Permitted {
            a: Ms(0),
            b: Ms(0),
            lesser: Ms(0),
            weighted: line_formulas::weigh_nobody(s, x.walking.frequency),
        };
    }
    let a = option_a(s, o, x, m, lane, cycle);
    let b = option_b(m.allowedb, s, x, cycle);
    let lesser = lesser_of(a, b);
    let weighted = weigh_if_allowed(s, x.walking.frequency, lesser);
    Permitted {
        a: cell(a),
        b: cell(b),
        lesser: cell(lesser),
        weighted: cell(weighted),
    }
}
