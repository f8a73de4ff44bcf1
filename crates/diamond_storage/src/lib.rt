// Whether a diamond's lefts find room: the ratio of the 90th percentile volume of a cycle to the storage, without roots.
#![tactic(auto)]

ghost use Rattle.std.specs.Prelude.{◌≡◌, ◌*◌, ◌≤◌, ◌<◌};
ghost use Rattle.answers.specs.declared.Answer.TheVariants.{Accepted};
ghost use Rattle.layout.specs.Entries.{approach_count, left};
ghost use Rattle.layout.specs.Diamond.{storage_count};
ghost use Rattle.entries.specs.Layout.{volume as volume_of};
ghost use Rattle.entries.specs.Judging.{judged};
ghost use Rattle.kinds.specs.declared.Kind.TheVariants.{Volume as VolumeKind, Cycle as CycleKind, Storage as StorageKind};
ghost use Rattle.kinds.specs.Kinds.{Within};
ghost use Rattle.diamond_rules.specs.Lines.{below1, stored, fits};

use diamond_rules::Record;
use kinds::{Cycle, Storage, Volume};
use layout::{EB, NB, SB, WB};

// Seconds of an hour, in which the volume is counted.
const HOUR: u64 = 3_600;

// The square of 1.28, which makes a deviation the 90th percentile, in ten-thousandths.
const PERCENTILE: u64 = 16_384;

// Whether the ratio is below 1: the storage has more than the mean, and what it has more is above 1.28 deviations, both squared.
fn is_below(volume: Volume, cycle: Cycle, room: Storage) -> bool
    requires { (Within VolumeKind volume.0.0) × (Within CycleKind cycle.0) × (Within StorageKind room.0) }
    ensures { result ≡ below1 (volume.0.0 * cycle.0) room.0 }
{
    let mean = volume.0.0 as u64 * cycle.0 as u64;
    let most = HOUR * room.0 as u64;
    if most <= mean {
        return false;
    }
    let more = most - mean;
    PERCENTILE * HOUR * mean < units::WHOLE as u64 * (more * more)
}

fn left_of(entries: &[u32], approach: usize) -> Volume
    requires { (judged entries.now ≡ Accepted) × (approach < approach_count) }
    ensures { (result.0.0 ≡ volume_of entries.now (left approach)) × Within VolumeKind result.0.0 }
{
    Volume::new(entries::movement_value(entries, layout::GROUPS * approach, layout::VOLUME_NO))
}

// The left volume that a storage is for; the storages are told by their places in the record.
pub fn stored_at(given: Record, place: usize) -> Volume
    requires { place < storage_count }
    ensures { (result.0.0 ≡ stored given.entry.numbers.now place) × Within VolumeKind result.0.0 }
{
    match place {
        0 => left_of(given.west(), WB),
        1 => left_of(given.east(), EB),
        2 => left_of(given.west(), SB),
        _ => left_of(given.east(), NB),
    }
}

// Whether the ratio of a storage is below 1.
#[tactic(auto, unfolding(diamond_rules::specs::Lines::fits))]
pub fn fits_at(given: Record, place: usize) -> bool
    requires { place < storage_count }
    ensures { result ≡ fits given.entry.numbers.now place }
{
    let cycle = procedure::read_cycle(given.west());
    is_below(stored_at(given, place), cycle, given.storage(place))
}
