// The entries judged: the first refusal that applies, or acceptance.
#![tactic(auto)]

ghost use Rattle.std.specs.Prelude.{◌≡◌, true, ◌+◌, ◌<◌, ◌≤◌, length, eqb};
ghost use Rattle.answers.specs.declared.Answer.TheVariants.{Accepted};
ghost use Rattle.kinds.specs.Kinds.{in_range, movement_kind, approach_kind};
ghost use Rattle.layout.specs.Entries.{approach_count, movement_count, movement_entries, approach_entries, entry_count};
ghost use Rattle.layout.specs.declared.Worksheet.TheVariants.{Junction as JunctionSheet};
ghost use Rattle.entries.specs.Layout.{movement_entry, approach_entry, cycle, shared};
ghost use Rattle.entries.specs.Judging.{size_answer, outside, badly_shared, other_lanes, unserved, refusal_of, count_of, faulty, each_answer};
ghost use Rattle.entries.specs.Judging.{judged_for, judged};
ghost use Rattle.entries.specs.Working.{all_in_range, Alike};

use answers::{Answer, Refusal};
use kinds::{Group, Kind};
use layout::Worksheet;

// As many numbers as there are entries.
type Entries = [u32; layout::ENTRIES];

// What judging can find wrong, in the order in which it is looked for.
#[derive(Clone, Copy, PartialEq, Eq, Debug)]
pub enum Fault {
    // an entry outside its range
    Range,
    // a shared lane beside left lanes, or without a through lane; on a single point's sheet, any
    Shared,
    // volume that no lane serves
    NoLane,
}

// Entry number `place` of a movement.
pub fn movement_entry(entries: &[u32], movement: usize, place: usize) -> u32
    requires { (length entries.now ≡ entry_count) × (movement < movement_count) × (place < movement_entries) }
    ensures { result ≡ movement_entry entries.now movement place }
{
    entries[layout::MOVEMENT_ENTRIES * movement + place]
}

// Entry number `place` of an approach.
pub fn approach_entry(entries: &[u32], approach: usize, place: usize) -> u32
    requires { (length entries.now ≡ entry_count) × (approach < approach_count) × (place < approach_entries) }
    ensures { result ≡ approach_entry entries.now approach place }
{
    entries[layout::APPROACHES_FROM + layout::APPROACH_ENTRIES * approach + place]
}

// Entry number `place` of a movement of acceptable entries: a number that its kind takes.
pub fn movement_value(entries: &[u32], movement: usize, place: usize) -> u32
    requires { (judged entries.now ≡ Accepted) × (movement < movement_count) × (place < movement_entries) }
    ensures { (result ≡ movement_entry entries.now movement place) × (in_range (movement_kind place) result ≡ true) }
{
    movement_entry(entries, movement, place)
}

// The same of an approach.
pub fn approach_value(entries: &[u32], approach: usize, place: usize) -> u32
    requires { (judged entries.now ≡ Accepted) × (approach < approach_count) × (place < approach_entries) }
    ensures { (result ≡ approach_entry entries.now approach place) × (in_range (approach_kind place) result ≡ true) }
{
    approach_entry(entries, approach, place)
}

// The cycle's entry.
pub fn cycle_entry(entries: &[u32]) -> u32
    requires { length entries.now ≡ entry_count }
    ensures { result ≡ cycle entries.now }
{
    entries[layout::CYCLE_ENTRY]
}

// Whether there are as many numbers as entries.
pub fn check_size(entries: &[u32]) -> Answer
    ensures { result ≡ size_answer entries.now }
{
    if entries.len() != layout::ENTRIES {
        return Answer::Refused(Refusal::Size, 0);
    }
    Answer::Accepted
}

fn is_outside(entries: &Entries, entry: usize) -> bool
    requires { entry < entry_count }
    ensures { result ≡ outside entries.now entry }
{
    !Kind::at(entry).holds(entries[entry])
}

// Whether the entries of a group, `count` from `first` on, are in range.
//
// Their kinds are read from `like` on, a constant at each call, so that the limits are constants there too.
fn run_in_range(entries: &Entries, first: usize, like: usize, count: usize) -> bool
    requires { (first + count ≤ entry_count) × (like + count ≤ entry_count) × Alike count first like }
    ensures { result ≡ all_in_range entries.now first count }
{
    for place in 0..count {
        if !Kind::at(like + place).holds(entries[first + place]) {
            return false;
        }
    }
    true
}

// Whether every entry is in range, which is told sooner than the place of one that is not.
fn all_in_range(entries: &Entries) -> bool
    ensures { result ≡ all_in_range entries.now 0 entry_count }
{
    for movement in 0..layout::MOVEMENTS {
        if !run_in_range(
            entries,
            layout::MOVEMENT_ENTRIES * movement,
            0,
            layout::MOVEMENT_ENTRIES,
        ) {
            return false;
        }
    }
    for approach in 0..layout::APPROACHES {
        if !run_in_range(
            entries,
            layout::APPROACHES_FROM + layout::APPROACH_ENTRIES * approach,
            layout::APPROACHES_FROM,
            layout::APPROACH_ENTRIES,
        ) {
            return false;
        }
    }
    Kind::Cycle.holds(cycle_entry(entries))
}

// Whether an approach shares a lane.
fn is_shared(entries: &Entries, approach: usize) -> bool
    requires { approach < approach_count }
    ensures { result ≡ eqb (shared entries.now approach) 1 }
{
    approach_entry(entries, approach, layout::SHARED_NO) == 1
}

// Whether a shared lane stands beside left lanes, or without a through lane.
fn is_badly_placed(entries: &Entries, approach: usize) -> bool
    requires { approach < approach_count }
    ensures { result ≡ badly_shared JunctionSheet entries.now approach }
{
    if !is_shared(entries, approach) {
        return false;
    }
    if 0 < movement_entry(entries, layout::GROUPS * approach, layout::LANES_NO) {
        return true;
    }
    movement_entry(entries, layout::GROUPS * approach + 1, layout::LANES_NO) == 0
}

fn is_badly_shared(kind: Worksheet, entries: &Entries, approach: usize) -> bool
    requires { approach < approach_count }
    ensures { result ≡ badly_shared kind entries.now approach }
{
    match kind {
        Worksheet::Junction => is_badly_placed(entries, approach),
        Worksheet::Point => is_shared(entries, approach),
    }
}

// Lanes that serve a group beside its own.
fn other_lanes(entries: &Entries, approach: usize, group: Group) -> u32
    requires { approach < approach_count }
    ensures { result ≡ other_lanes entries.now approach group }
{
    match group {
        Group::Left => approach_entry(entries, approach, layout::SHARED_NO),
        Group::Through => 0,
        Group::Right => movement_entry(entries, layout::GROUPS * approach + 1, layout::LANES_NO),
    }
}

fn is_unserved(entries: &Entries, movement: usize) -> bool
    requires { movement < movement_count }
    ensures { result ≡ unserved entries.now movement }
{
    if movement_entry(entries, movement, layout::VOLUME_NO) == 0 {
        return false;
    }
    if movement_entry(entries, movement, layout::LANES_NO) != 0 {
        return false;
    }
    other_lanes(entries, movement / layout::GROUPS, Group::of(movement)) == 0
}

impl From<Fault> for Refusal {
    ghost from_gives = { λ fault why. why ≡ refusal_of fault };

    fn from(fault: Fault) -> Refusal {
        match fault {
            Fault::Range => Refusal::Range,
            Fault::Shared => Refusal::Shared,
            Fault::NoLane => Refusal::NoLane,
        }
    }
}

impl Fault {
    // How many entries, approaches or movements there are to be asked.
    pub fn count(self) -> usize
        ensures { result ≡ count_of self }
    {
        match self {
            Fault::Range => layout::ENTRIES,
            Fault::Shared => layout::APPROACHES,
            Fault::NoLane => layout::MOVEMENTS,
        }
    }
}

fn is_faulty(kind: Worksheet, entries: &Entries, fault: Fault, index: usize) -> bool
    requires { index < count_of fault }
    ensures { result ≡ faulty kind entries.now fault index }
{
    match fault {
        Fault::Range => is_outside(entries, index),
        Fault::Shared => is_badly_shared(kind, entries, index),
        Fault::NoLane => is_unserved(entries, index),
    }
}

// The lowest entry, approach or movement that has this fault.
fn check_each(kind: Worksheet, entries: &Entries, fault: Fault) -> Answer
    ensures { result ≡ each_answer kind entries.now fault }
{
    for index in 0..fault.count() {
        if is_faulty(kind, entries, fault, index) {
            return Answer::Refused(fault.into(), index as u32);
        }
    }
    Answer::Accepted
}

// The lowest entry outside its range, looked for only where there is one.
fn check_ranges(kind: Worksheet, entries: &Entries) -> Answer
    ensures { result ≡ each_answer kind entries.now Fault.Range }
{
    if all_in_range(entries) {
        return Answer::Accepted;
    }
    check_each(kind, entries, Fault::Range)
}

// A list as long as it should be, as the entries.
fn whole(entries: &[u32]) -> &Entries
    requires { length entries.now ≡ entry_count }
    ensures { result.now ≡ entries.now }
{
    match entries.try_into() {
        Ok(whole) => whole,
        Err(_) => unreachable!(),
    }
}

// The lowest place of one fault: what each of a diamond's junctions is asked, too.
pub fn check_for(kind: Worksheet, entries: &[u32], fault: Fault) -> Answer
    requires { length entries.now ≡ entry_count }
    ensures { result ≡ each_answer kind entries.now fault }
{
    let entries = whole(entries);
    match fault {
        Fault::Range => check_ranges(kind, entries),
        Fault::Shared => check_each(kind, entries, Fault::Shared),
        Fault::NoLane => check_each(kind, entries, Fault::NoLane),
    }
}

// The first refusal that applies to the entries for a sheet of a kind, or acceptance.
pub fn judge(kind: Worksheet, entries: &[u32]) -> Answer
    ensures { result ≡ judged_for kind entries.now }
{
    let size = check_size(entries);
    let Answer::Accepted = size else {
        return size;
    };
    let entries = whole(entries);
    let ranges = check_ranges(kind, entries);
    let Answer::Accepted = ranges else {
        return ranges;
    };
    let shared = check_each(kind, entries, Fault::Shared);
    let Answer::Accepted = shared else {
        return shared;
    };
    check_each(kind, entries, Fault::NoLane)
}
