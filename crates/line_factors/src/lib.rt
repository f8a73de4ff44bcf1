// The lane factors, in thousandths: the table's, and those that were measured.
#![tactic(auto)]

ghost use Rattle.std.specs.Prelude.{◌≡◌, ◌≤◌};
ghost use Rattle.kinds.specs.declared.Kind.TheVariants.{Lanes as LaneKind, LaneFactor as FactorKind};
ghost use Rattle.kinds.specs.Working.{most_of};
ghost use Rattle.line_factors.specs.Factors.{lane_factor, factor_of};

use kinds::{Group, LaneFactor, Lanes};

// As many factors of each group as a movement has lanes at most.
const MOST_LANES: usize = Lanes::LIMITS.most as usize;

// One lane and more of the left, the through and the right group.
const TABLE: [u32; layout::GROUPS * MOST_LANES] = [
    1_000, 971, 971, 971, 971, 971, 1_000, 952, 908, 908, 908, 908, 1_000, 885, 885, 885, 885, 885,
];

// The table's factor of a group with that many lanes.
fn lane_factor(group: Group, lanes: u32) -> u32
    requires { (1 ≤ lanes) × (lanes ≤ most_of LaneKind) }
    ensures { (result ≡ lane_factor group lanes) × (result ≤ most_of FactorKind) }
{
    TABLE[MOST_LANES * group as usize + (lanes - 1) as usize]
}

// The factor of a group's lanes: the one that was measured, or where none was, the table's.
pub fn factor_of(group: Group, lanes: Lanes, measured: LaneFactor) -> u32
    requires { (1 ≤ lanes.0) × (lanes.0 ≤ most_of LaneKind) × (measured.0 ≤ most_of FactorKind) }
    ensures { (result ≡ factor_of group lanes.0 measured.0) × (result ≤ most_of FactorKind) }
{
    if measured.0 == 0 {
        return lane_factor(group, lanes.0);
    }
    measured.0
}
