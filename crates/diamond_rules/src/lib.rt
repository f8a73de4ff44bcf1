// A diamond interchange on an east-west arterial: what a side of it is, and its junctions as parts of the record.
//
// The definitions of the record, the worksheet's lines and the cells stand in specs/.
#![tactic(auto)]

ghost use Rattle.std.specs.Prelude.{◌≡◌, ◌<◌, length};
ghost use Rattle.answers.specs.declared.Answer.TheVariants.{Accepted};
ghost use Rattle.layout.specs.Entries.{entry_count};
ghost use Rattle.layout.specs.Diamond.{record_count, storage_count};
ghost use Rattle.kinds.specs.declared.Kind.TheVariants.{Storage as StorageKind, TravelTime as TravelKind};
ghost use Rattle.kinds.specs.Kinds.{Within};
ghost use Rattle.entries.specs.Judging.{judged};
ghost use Rattle.diamond_rules.specs.Record.{west, east, storage, travel, judged_record};

use kinds::{Storage, TravelTime};
use units::Ms;

// The interchange times of the west junction or of the east. How long they can be stands in clauses and not in the type: the definitions
// make sides of any entries (`side_of`).
#[derive(Clone, Copy)]
pub struct Side {
    // along the arterial from outside
    pub through: Ms,
    pub right: Ms,
    // along the arterial from the other junction: the left onto the ramp, and the through
    pub onramp: Ms,
    pub inner: Ms,
    // off the ramp
    pub rampleft: Ms,
    pub rampthrough: Ms,
    pub rampright: Ms,
}

// The entries of the west junction, a part of the record's numbers. The east's are told by a function of their own, as in the definitions.
pub fn west_of(numbers: &[u32]) -> &[u32]
    requires { length numbers.now ≡ record_count }
    ensures { (result.now ≡ west numbers.now) × (length result.now ≡ entry_count) }
{
    &numbers[0..layout::ENTRIES]
}

// Those of the east.
pub fn east_of(numbers: &[u32]) -> &[u32]
    requires { length numbers.now ≡ record_count }
    ensures { (result.now ≡ east numbers.now) × (length result.now ≡ entry_count) }
{
    &numbers[layout::EAST_FROM..layout::STORAGES_FROM]
}

// A record that was judged and accepted.
#[derive(Clone, Copy)]
pub struct Record<'a> {
    pub numbers: &'a [u32],
    pub ghost accepted: { judged_record numbers.now ≡ Accepted },
}

impl<'a> Record<'a> {
    pub fn new(numbers: &'a [u32]) -> Record<'a>
        requires { judged_record numbers.now ≡ Accepted }
        ensures { result.numbers.now ≡ numbers.now }
    {
        Record { numbers }
    }

    // The entries of the west junction, which are acceptable.
    pub fn west(self) -> &'a [u32]
        ensures { (result.now ≡ west self.entry.numbers.now) × (judged result.now ≡ Accepted) }
    {
        west_of(self.numbers)
    }

    // Those of the east.
    pub fn east(self) -> &'a [u32]
        ensures { (result.now ≡ east self.entry.numbers.now) × (judged result.now ≡ Accepted) }
    {
        east_of(self.numbers)
    }

    // How many vehicles find room in one of the storages.
    pub fn storage(self, place: usize) -> Storage
        requires { place < storage_count }
        ensures { (result.0 ≡ storage self.entry.numbers.now place) × Within StorageKind result.0 }
    {
        Storage::new(self.numbers[layout::STORAGES_FROM + place])
    }

    pub fn travel(self) -> TravelTime
        ensures { (result.0.0 ≡ travel self.entry.numbers.now) × Within TravelKind result.0.0 }
    {
        TravelTime::new(self.numbers[layout::TRAVEL_PLACE])
    }
}
