// The timing plans of a diamond: isolated times, overlaps, Table 6-4, which plan is picked, the ICU and its letter.
#![tactic(auto)]

ghost use Rattle.std.specs.Prelude.{◌≡◌, Bool, ◌≤◌};
ghost use Rattle.kinds.specs.declared.Kind.TheVariants.{Cycle as CycleKind, TravelTime as TravelKind};
ghost use Rattle.kinds.specs.Kinds.{Within};
ghost use Rattle.diamond_rules.specs.Lines.{entering, off_ramp, isolated, alternate, combined, overlap, held, leading_alternate};
ghost use Rattle.diamond_rules.specs.Lines.{isolated_plan, if_allowed, best_of, sides_of, times_of};
ghost use Rattle.diamond_plans.specs.Working.{SmallSide, plans_by};

use diamond_rules::Side;
use kinds::{Cycle, TravelTime};
use layout::{PLANS, SIDE_TIMES, SIDES};
use sheet_pairs::Pick;
use units::Ms;

// The cells of the isolated times, the alternates, the combined and the overlaps; and those from the plans on.
pub const SIDES_CELLS: usize = 4 * SIDES;

pub const BEST_CELLS: usize = PLANS + 4;

// Leading alternate, lagging and lead-lag; BLANK where a plan is not allowed.
#[derive(Clone, Copy)]
pub struct Plans {
    pub leading: Ms,
    pub lagging: Ms,
    pub leadlag: Ms,
}

// What the arterial takes as it enters.
fn entering_of(s: Side) -> Ms
    ensures { result.0 ≡ entering s }
{
    s.through.max(s.right)
}

// What the ramp takes.
fn off_ramp(s: Side) -> Ms
    ensures { result.0 ≡ off_ramp s }
{
    s.rampleft.max(s.rampthrough).max(s.rampright)
}

// Line 28.
fn isolated_of(s: Side) -> Ms
    requires { SmallSide s }
    ensures { result.0 ≡ isolated s }
{
    let ramp = s.rampleft.max(s.rampthrough);
    Ms(entering_of(s).0 + s.onramp.0 + ramp.0)
}

// Line 29.
fn alternate_of(s: Side) -> Ms
    requires { SmallSide s }
    ensures { result.0 ≡ alternate s }
{
    Ms(s.inner.0 + off_ramp(s).0)
}

// Line 30.
fn combined_of(s: Side) -> Ms
    requires { SmallSide s }
    ensures { result.0 ≡ combined s }
{
    isolated_of(s).max(alternate_of(s))
}

// Line 31.
fn overlap_of(travel: TravelTime, s: Side) -> Ms
    ensures { result.0 ≡ overlap travel.0.0 s }
{
    travel.0.min(entering_of(s))
}

// The ramp, held at least twice the travel time.
fn held_of(travel: TravelTime, s: Side) -> Ms
    requires { Within TravelKind travel.0.0 }
    ensures { result.0 ≡ held travel.0.0 s }
{
    off_ramp(s).max(Ms(2 * travel.0.0))
}

// Line 32, Table 6-4. Neither overlap is longer than the ramp is held before it.
fn leading_of(travel: TravelTime, w: Side, e: Side) -> Ms
    requires { (Within TravelKind travel.0.0) × SmallSide w × SmallSide e }
    ensures { result.0 ≡ leading_alternate travel.0.0 w e }
{
    let west = entering_of(w).0 + held_of(travel, w).0 - overlap_of(travel, e).0;
    Ms(west + entering_of(e).0 + held_of(travel, e).0 - overlap_of(travel, w).0)
}

// Lines 33 and 34: the larger of the two isolated times, where the plan is allowed.
fn if_allowed(allowed: bool, time: Ms) -> Ms
    ensures { result.0 ≡ if_allowed allowed time.0 }
{
    if allowed {
        return time;
    }
    sheet_pairs::BLANK
}

// The three plans, by whether all four storages have room and whether the two off the ramps have.
pub fn plans_of(travel: TravelTime, w: Side, e: Side, four: bool, two: bool) -> Plans
    requires { (Within TravelKind travel.0.0) × SmallSide w × SmallSide e }
    ensures { result ≡ plans_by travel.0.0 w e four two }
{
    let time = combined_of(w).max(combined_of(e));
    Plans {
        leading: leading_of(travel, w, e),
        lagging: if_allowed(four, time),
        leadlag: if_allowed(two, time),
    }
}

// Lines 32–37: the plans, which of them is picked, its time, the ICU and its letter. Of a diamond, leading stands for protected, lagging
// for permitted and lead-lag for split.
pub fn best_of(plans: Plans, cycle: Cycle) -> [u32; BEST_CELLS]
    requires { Within CycleKind cycle.0 }
    ensures { result ≡ best_of plans.leading.0 plans.lagging.0 plans.leadlag.0 cycle.0 }
{
    let Plans {
        leading,
        lagging,
        leadlag,
    } = plans;
    let picked = Pick::least(leading, lagging, leadlag);
    let best = picked.choose(leading, lagging, leadlag);
    let icu = sheet_totals::icu_of(best, cycle);
    let letter = sheet_totals::letter_of(icu);
    [
        leading.0,
        lagging.0,
        leadlag.0,
        u32::from(picked),
        best.0,
        icu,
        letter,
    ]
}

// Lines 28–31 of both sides.
pub fn sides_of(travel: TravelTime, w: Side, e: Side) -> [u32; SIDES_CELLS]
    requires { SmallSide w × SmallSide e }
    ensures { result ≡ sides_of travel.0.0 w e }
{
    [
        isolated_of(w).0,
        isolated_of(e).0,
        alternate_of(w).0,
        alternate_of(e).0,
        combined_of(w).0,
        combined_of(e).0,
        overlap_of(travel, w).0,
        overlap_of(travel, e).0,
    ]
}

// Line 24 of a side.
pub fn times_of(s: Side) -> [u32; SIDE_TIMES]
    ensures { result ≡ times_of s }
{
    [
        s.through.0,
        s.right.0,
        s.onramp.0,
        s.inner.0,
        s.rampleft.0,
        s.rampthrough.0,
        s.rampright.0,
    ]
}
