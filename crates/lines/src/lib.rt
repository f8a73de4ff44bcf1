// The lines of an approach: 1–18, which look at the approach alone, then 19–28, which look across the street.
#![tactic(auto)]

ghost use Rattle.std.specs.Prelude.{◌≡◌};
ghost use Rattle.procedure.specs.Ranges.{Fair, FairCycle};
ghost use Rattle.line_stages.specs.Stages.{volumes_of, first_of, later_of, later_for, lines_of};
ghost use Rattle.line_stages.specs.Cells.{first_cells, later_cells};

use kinds::Cycle;
use layout::Worksheet;
use line_stages::{First, Later, Lines, Volumes};
use procedure::Approach;

// Those past a single point's.
const LATER_LINES: usize = layout::LINES - layout::POINT_LINES;

// Lines 1–18 of an approach.
pub fn first_of(s: Approach, cycle: Cycle) -> First
    requires { Fair s × FairCycle cycle.0 }
    ensures { result ≡ first_of s cycle.0 }
{
    let volumes = line_flows::volumes_of(s);
    let flows = line_flows::flows_of(s, volumes);
    let walking = line_walkers::walking_of(s, volumes, cycle);
    let times = line_times::times_of(s, volumes, flows, walking, cycle);
    First {
        volumes,
        flows,
        walking,
        times,
    }
}

// Lines 19–28 of an approach, with o opposite it, of volumes w.
pub fn later_of(s: Approach, o: Approach, x: First, w: Volumes, cycle: Cycle) -> Later
    requires { Fair s × Fair o × (x ≡ first_of s cycle.0) × (w ≡ volumes_of o) × FairCycle cycle.0 }
    ensures { result ≡ later_of s o cycle.0 }
{
    let m = line_meeting::meeting_of(s, o, w);
    let lane = line_left_lane::left_lane_of(s, o, x.volumes, x.flows, m, cycle);
    let permitted = line_permitted::permitted_of(s, o, x, m, lane, cycle);
    Later {
        lane,
        permitted,
        split: line_split::split_of(s, x, cycle),
    }
}

// Those of them that a sheet of a kind has.
fn later_for(kind: Worksheet, s: Approach, o: Approach, x: First, cycle: Cycle) -> Later
    requires { Fair s × Fair o × (x ≡ first_of s cycle.0) × FairCycle cycle.0 }
    ensures { result ≡ later_for kind s o cycle.0 }
{
    match kind {
        Worksheet::Junction => later_of(s, o, x, line_flows::volumes_of(o), cycle),
        Worksheet::Point => Later::NONE,
    }
}

// All lines of an approach on a sheet of a kind, with o opposite it.
pub fn lines_of(kind: Worksheet, s: Approach, o: Approach, cycle: Cycle) -> Lines
    requires { Fair s × Fair o × FairCycle cycle.0 }
    ensures { result ≡ lines_of kind s o cycle.0 }
{
    let first = first_of(s, cycle);
    let later = later_for(kind, s, o, first, cycle);
    Lines { first, later }
}

// Lines 1–18 as cells, in their order.
pub fn first_cells(x: First) -> [u32; layout::POINT_LINES]
    ensures { result ≡ first_cells x }
{
    [
        x.volumes.left.0,
        x.volumes.through.0,
        x.volumes.right.0,
        x.flows.turning,
        x.flows.left.0,
        x.flows.through.0,
        x.flows.right.0,
        x.flows.straight.0,
        x.flows.lefts.0,
        x.walking.right.0,
        x.walking.through.0,
        x.walking.frequency,
        x.times.left.0,
        x.times.through.0,
        x.times.right.0,
        x.times.adjustedleft.0,
        x.times.adjustedthrough.0,
        x.times.adjustedright.0,
    ]
}

// Lines 19–28.
pub fn later_cells(y: Later) -> [u32; LATER_LINES]
    ensures { result ≡ later_cells y }
{
    [
        y.lane.heaviest.0,
        y.lane.share,
        y.lane.equivalent,
        y.lane.flow.0,
        y.permitted.a.0,
        y.permitted.b.0,
        y.permitted.lesser.0,
        y.permitted.weighted.0,
        y.split.largest.0,
        y.split.weighted.0,
    ]
}
