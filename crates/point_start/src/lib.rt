// The entries that a single point interchange begins with.
#![tactic(auto)]

ghost use Rattle.std.specs.Prelude.{◌≡◌, length};
ghost use Rattle.layout.specs.Entries.{entry_count};
ghost use Rattle.point_start.specs.Start.{start_lost, start_of, start_at, start_entries, start_answer, started};

use answers::Answer;
use kinds::{Group, Kind};

// Lefts cross the whole interchange, and clear it later.
fn lost_of(group: Group) -> u32
    ensures { result ≡ start_lost group }
{
    match group {
        Group::Left => 8_000,
        Group::Through => 6_000,
        Group::Right => 6_000,
    }
}

fn start_of(kind: Kind, group: Group) -> u32
    ensures { result ≡ start_of kind group }
{
    match kind {
        Kind::LostTime => lost_of(group),
        Kind::IdealFlow => 2_000,
        Kind::Cycle => 120,
        Kind::Lanes => 0,
        Kind::Volume => 0,
        Kind::MinimumGreen => 0,
        Kind::LaneFactor => 0,
        Kind::SharedLane => 0,
        Kind::Pedestrians => 0,
        Kind::PushButton => 0,
        Kind::PedestrianTime => 0,
        Kind::FreeRight => 0,
        Kind::Storage => 0, // no sheet has one
        Kind::TravelTime => 0,
    }
}

// The value that entry i begins with.
fn start_at(i: usize) -> u32
    ensures { result ≡ start_at i }
{
    start_of(Kind::at(i), Group::of(i / layout::MOVEMENT_ENTRIES))
}

fn put_start(entries: &mut [u32])
    requires { length entries.old ≡ entry_count }
    ensures { entries.new ≡ start_entries }
{
    for i in 0..layout::ENTRIES {
        entries[i] = start_at(i);
    }
}

// Writes them, unless the list has another length, which then stays as it was.
pub fn start(entries: &mut [u32]) -> Answer
    ensures value { result ≡ start_answer entries.old }
    ensures entries_after { entries.new ≡ started entries.old }
{
    let size = entries::check_size(entries);
    let Answer::Accepted = size else {
        return size;
    };
    put_start(entries);
    size
}
