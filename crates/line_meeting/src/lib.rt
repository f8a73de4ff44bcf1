// What the oncoming approach does to this one: its share of lefts, and which permitted options it allows.
#![tactic(auto)]

ghost use Rattle.std.specs.Prelude.{◌≡◌};
ghost use Rattle.procedure.specs.Lines.{single, left_share, allowed_a};
ghost use Rattle.procedure.specs.Ranges.{Fair};
ghost use Rattle.line_stages.specs.Stages.{volumes_of, meeting_of};

use line_stages::{Meeting, Volumes};
use procedure::Approach;

// Whether one shared lane, with lefts in it, is all that the approach has. One test after the other: as one expression all five are
// worked out each time, which makes a fill slower.
fn is_single(o: Approach) -> bool
    ensures { result ≡ single o }
{
    if o.left.lanes.0 != 0 {
        return false;
    }
    if o.through.lanes.0 != 1 {
        return false;
    }
    if o.right.lanes.0 != 0 {
        return false;
    }
    if o.shared.0 != 1 {
        return false;
    }
    0 < o.left.volume.0.0
}

// The share of lefts in the only lane of the oncoming approach.
fn left_share(o: Approach, w: Volumes) -> u32
    requires { Fair o × (w ≡ volumes_of o) }
    ensures { result ≡ left_share o }
{
    if is_single(o) {
        return units::WHOLE * w.foldedleft.0 / w.through.0;
    }
    0
}

// Few lefts, or an oncoming approach whose own lefts make gaps.
fn is_a_allowed(s: Approach, o: Approach) -> bool
    ensures { result ≡ allowed_a s o }
{
    s.left.volume.0.0 < 60 || is_single(o)
}

// What the oncoming approach, of volumes w, does to this one.
pub fn meeting_of(s: Approach, o: Approach, w: Volumes) -> Meeting
    requires { Fair o × (w ≡ volumes_of o) }
    ensures { result ≡ meeting_of s o }
{
    Meeting {
        share: left_share(o, w),
        alloweda: is_a_allowed(s, o),
        allowedb: w.straight.0 <= 120,
    }
}
