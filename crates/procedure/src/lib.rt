// The procedure: what an approach is, and how it is read from the entries.
//
// The definitions of the lines, the pairs and the sheet stand in specs/.
#![tactic(auto)]

ghost use Rattle.std.specs.Prelude.{◌≡◌, ◌<◌};
ghost use Rattle.answers.specs.declared.Answer.TheVariants.{Accepted};
ghost use Rattle.layout.specs.Entries.{approach_count, movement_count};
ghost use Rattle.entries.specs.Layout.{cycle};
ghost use Rattle.entries.specs.Judging.{judged};
ghost use Rattle.procedure.specs.Approach.{read_movement, read_approach};

use kinds::{
    Cycle, FreeRight, IdealFlow, LaneFactor, Lanes, LostTime, MinimumGreen, PedestrianTime,
    Pedestrians, PushButton, SharedLane, Volume,
};

#[derive(Clone, Copy)]
pub struct Movement {
    pub lanes: Lanes,
    pub volume: Volume,
    pub ideal: IdealFlow,
    pub lost: LostTime,
    pub green: MinimumGreen,
    pub measured: LaneFactor,
}

#[derive(Clone, Copy)]
pub struct Approach {
    pub left: Movement,
    pub through: Movement,
    pub right: Movement,
    pub shared: SharedLane,
    pub walkers: Pedestrians,
    pub button: PushButton,
    pub crossing: PedestrianTime,
    pub free: FreeRight,
}

fn read_movement(entries: &[u32], movement: usize) -> Movement
    requires { (judged entries.now ≡ Accepted) × (movement < movement_count) }
    ensures { result ≡ read_movement entries.now movement }
{
    Movement {
        lanes: Lanes::new(entries::movement_value(entries, movement, layout::LANES_NO)),
        volume: Volume::new(entries::movement_value(entries, movement, layout::VOLUME_NO)),
        ideal: IdealFlow::new(entries::movement_value(entries, movement, layout::IDEAL_NO)),
        lost: LostTime::new(entries::movement_value(entries, movement, layout::LOST_NO)),
        green: MinimumGreen::new(entries::movement_value(entries, movement, layout::GREEN_NO)),
        measured: LaneFactor::new(entries::movement_value(entries, movement, layout::FACTOR_NO)),
    }
}

pub fn read_approach(entries: &[u32], approach: usize) -> Approach
    requires { (judged entries.now ≡ Accepted) × (approach < approach_count) }
    ensures { result ≡ read_approach entries.now approach }
{
    let left = read_movement(entries, layout::GROUPS * approach);
    let through = read_movement(entries, layout::GROUPS * approach + 1);
    let right = read_movement(entries, layout::GROUPS * approach + 2);
    Approach {
        left,
        through,
        right,
        shared: SharedLane::new(entries::approach_value(entries, approach, layout::SHARED_NO)),
        walkers: Pedestrians::new(entries::approach_value(entries, approach, layout::WALKERS_NO)),
        button: PushButton::new(entries::approach_value(entries, approach, layout::BUTTON_NO)),
        crossing: PedestrianTime::new(entries::approach_value(
            entries,
            approach,
            layout::CROSSING_NO,
        )),
        free: FreeRight::new(entries::approach_value(entries, approach, layout::FREE_NO)),
    }
}

pub fn read_cycle(entries: &[u32]) -> Cycle
    requires { judged entries.now ≡ Accepted }
    ensures { result.0 ≡ cycle entries.now }
{
    Cycle::new(entries::cycle_entry(entries))
}
