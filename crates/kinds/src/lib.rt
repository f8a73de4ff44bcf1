// The kinds of entries: each is a type that knows its limits and its usual value.
//
// A limit is typed here, at its kind, and everything else asks the kind. A value of a kind is made here too: by `new`, of a
// number that the kind takes, which it keeps as it is, or by `usual`. What kind a value is of stands in its type alone, in a
// field of no content that no other crate can fill, so no other crate makes a value without them; the number is there to be read.
#![tactic(auto)]

ghost use Rattle.std.specs.Prelude.{◌≡◌, true};
ghost use Rattle.kinds.specs.declared.Kind.{Kind};
ghost use Rattle.kinds.specs.declared.Kind.TheVariants.{Lanes, Volume, IdealFlow, LostTime, MinimumGreen, LaneFactor, SharedLane};
ghost use Rattle.kinds.specs.declared.Kind.TheVariants.{Pedestrians, PushButton, PedestrianTime, FreeRight, Cycle, Storage, TravelTime};
ghost use Rattle.kinds.specs.Kinds.{limits_of, in_range, kind_at, group_of};

use std::marker::PhantomData;
use units::{Ms, Vph};

// From, to, and the value that is usual, which may stand apart from the others.
#[derive(Clone, Copy)]
pub struct Limits {
    pub least: u32,
    pub most: u32,
    pub usual: u32,
}

// What stands for a kind in a type.
pub trait OfKind {
    const KIND: Kind;

    ghost KIND: { Kind };
}

// A number of the kind that K stands for, counted in the unit U.
#[derive_where(Clone, Copy; U)]
pub struct Quantity<U, K>(pub U, PhantomData<K>);

impl<U: From<u32>, K: OfKind> Quantity<U, K> {
    pub fn new(value: u32) -> Quantity<U, K>
        requires { in_range K.KIND value ≡ true }
        ensures { U.from_gives value result.0 }
    {
        Quantity(U::from(value), PhantomData)
    }

    pub fn usual() -> Quantity<U, K>
        ensures { U.from_gives (limits_of K.KIND).usual result.0 }
    {
        Self::new(K::KIND.limits().usual)
    }
}

// Lanes of a movement.
pub type Lanes = Quantity<u32, OfLanes>;

pub struct OfLanes;

impl Lanes {
    pub const LIMITS: Limits = Limits {
        least: 0,
        most: 6,
        usual: 0,
    };
}

impl OfKind for OfLanes {
    const KIND: Kind = Kind::Lanes;

    ghost KIND = { Lanes };
}

// Vehicles per hour of a movement.
pub type Volume = Quantity<Vph, OfVolume>;

pub struct OfVolume;

impl Volume {
    pub const LIMITS: Limits = Limits {
        least: 0,
        most: 9_999,
        usual: 0,
    };
}

impl OfKind for OfVolume {
    const KIND: Kind = Kind::Volume;

    ghost KIND = { Volume };
}

// Ideal flow of one lane of a movement.
pub type IdealFlow = Quantity<Vph, OfIdealFlow>;

pub struct OfIdealFlow;

impl IdealFlow {
    pub const LIMITS: Limits = Limits {
        least: 1_000,
        most: 2_400,
        usual: 1_900,
    };
}

impl OfKind for OfIdealFlow {
    const KIND: Kind = Kind::IdealFlow;

    ghost KIND = { IdealFlow };
}

// Time that a movement loses as it starts and clears.
pub type LostTime = Quantity<Ms, OfLostTime>;

pub struct OfLostTime;

impl LostTime {
    pub const LIMITS: Limits = Limits {
        least: 0,
        most: 20_000,
        usual: 4_000,
    };
}

impl OfKind for OfLostTime {
    const KIND: Kind = Kind::LostTime;

    ghost KIND = { LostTime };
}

// The least green of a movement.
pub type MinimumGreen = Quantity<Ms, OfMinimumGreen>;

pub struct OfMinimumGreen;

impl MinimumGreen {
    pub const LIMITS: Limits = Limits {
        least: 0,
        most: 60_000,
        usual: 4_000,
    };
}

impl OfKind for OfMinimumGreen {
    const KIND: Kind = Kind::MinimumGreen;

    ghost KIND = { MinimumGreen };
}

// What the lanes of a movement carry of one lane each, as it was measured, in thousandths; 0, the usual value, for the table's.
pub type LaneFactor = Quantity<u32, OfLaneFactor>;

pub struct OfLaneFactor;

impl LaneFactor {
    pub const LIMITS: Limits = Limits {
        least: 500,
        most: 1_000,
        usual: 0,
    };
}

impl OfKind for OfLaneFactor {
    const KIND: Kind = Kind::LaneFactor;

    ghost KIND = { LaneFactor };
}

// 1 where the approach has a lane shared by left and through.
pub type SharedLane = Quantity<u32, OfSharedLane>;

pub struct OfSharedLane;

impl SharedLane {
    pub const LIMITS: Limits = Limits {
        least: 0,
        most: 1,
        usual: 0,
    };
}

impl OfKind for OfSharedLane {
    const KIND: Kind = Kind::SharedLane;

    ghost KIND = { SharedLane };
}

// Pedestrians per hour who cross with the approach's through.
pub type Pedestrians = Quantity<u32, OfPedestrians>;

pub struct OfPedestrians;

impl Pedestrians {
    pub const LIMITS: Limits = Limits {
        least: 0,
        most: 2_000,
        usual: 0,
    };
}

impl OfKind for OfPedestrians {
    const KIND: Kind = Kind::Pedestrians;

    ghost KIND = { Pedestrians };
}

// 1 where those pedestrians have a button.
pub type PushButton = Quantity<u32, OfPushButton>;

pub struct OfPushButton;

impl PushButton {
    pub const LIMITS: Limits = Limits {
        least: 0,
        most: 1,
        usual: 0,
    };
}

impl OfKind for OfPushButton {
    const KIND: Kind = Kind::PushButton;

    ghost KIND = { PushButton };
}

// Time that those pedestrians take to cross.
pub type PedestrianTime = Quantity<Ms, OfPedestrianTime>;

pub struct OfPedestrianTime;

impl PedestrianTime {
    pub const LIMITS: Limits = Limits {
        least: 0,
        most: 60_000,
        usual: 0,
    };
}

impl OfKind for OfPedestrianTime {
    const KIND: Kind = Kind::PedestrianTime;

    ghost KIND = { PedestrianTime };
}

// 1 where the right turn leaves into a lane of its own.
pub type FreeRight = Quantity<u32, OfFreeRight>;

pub struct OfFreeRight;

impl FreeRight {
    pub const LIMITS: Limits = Limits {
        least: 0,
        most: 1,
        usual: 0,
    };
}

impl OfKind for OfFreeRight {
    const KIND: Kind = Kind::FreeRight;

    ghost KIND = { FreeRight };
}

// The reference cycle, in seconds.
pub type Cycle = Quantity<u32, OfCycle>;

pub struct OfCycle;

impl Cycle {
    pub const LIMITS: Limits = Limits {
        least: 30,
        most: 240,
        usual: 120,
    };
}

impl OfKind for OfCycle {
    const KIND: Kind = Kind::Cycle;

    ghost KIND = { Cycle };
}

// Vehicles that find room between the junctions of a diamond. None is usual: the least stands for it.
pub type Storage = Quantity<u32, OfStorage>;

pub struct OfStorage;

impl Storage {
    pub const LIMITS: Limits = Limits {
        least: 1,
        most: 999,
        usual: 1,
    };
}

impl OfKind for OfStorage {
    const KIND: Kind = Kind::Storage;

    ghost KIND = { Storage };
}

// Time that a vehicle takes from one junction of a diamond to the other.
pub type TravelTime = Quantity<Ms, OfTravelTime>;

pub struct OfTravelTime;

impl TravelTime {
    pub const LIMITS: Limits = Limits {
        least: 0,
        most: 60_000,
        usual: 0,
    };
}

impl OfKind for OfTravelTime {
    const KIND: Kind = Kind::TravelTime;

    ghost KIND = { TravelTime };
}

#[derive(Clone, Copy, PartialEq, Eq, Debug)]
pub enum Kind {
    Lanes,
    Volume,
    IdealFlow,
    LostTime,
    MinimumGreen,
    LaneFactor,
    SharedLane,
    Pedestrians,
    PushButton,
    PedestrianTime,
    FreeRight,
    Cycle,
    Storage,
    TravelTime,
}

// The kinds of a movement's entries, and of an approach's own, by their places among them.
const OF_MOVEMENT: [Kind; layout::MOVEMENT_ENTRIES] = [
    Kind::Lanes,
    Kind::Volume,
    Kind::IdealFlow,
    Kind::LostTime,
    Kind::MinimumGreen,
    Kind::LaneFactor,
];

const OF_APPROACH: [Kind; layout::APPROACH_ENTRIES] = [
    Kind::SharedLane,
    Kind::Pedestrians,
    Kind::PushButton,
    Kind::PedestrianTime,
    Kind::FreeRight,
];

impl Kind {
    // The one place where a kind meets its type.
    pub fn limits(self) -> Limits
        ensures { (result.least ≡ (limits_of self).least) × (result.most ≡ (limits_of self).most) × (result.usual ≡ (limits_of self).usual) }
    {
        match self {
            Kind::Lanes => Lanes::LIMITS,
            Kind::Volume => Volume::LIMITS,
            Kind::IdealFlow => IdealFlow::LIMITS,
            Kind::LostTime => LostTime::LIMITS,
            Kind::MinimumGreen => MinimumGreen::LIMITS,
            Kind::LaneFactor => LaneFactor::LIMITS,
            Kind::SharedLane => SharedLane::LIMITS,
            Kind::Pedestrians => Pedestrians::LIMITS,
            Kind::PushButton => PushButton::LIMITS,
            Kind::PedestrianTime => PedestrianTime::LIMITS,
            Kind::FreeRight => FreeRight::LIMITS,
            Kind::Cycle => Cycle::LIMITS,
            Kind::Storage => Storage::LIMITS,
            Kind::TravelTime => TravelTime::LIMITS,
        }
    }

    // The value that is usual, as a number.
    pub fn usual(self) -> u32
        ensures { result ≡ (limits_of self).usual }
    {
        self.limits().usual
    }

    // The kind that stands at an entry's place.
    pub fn at(entry: usize) -> Kind
        ensures { result ≡ kind_at entry }
    {
        if entry < layout::APPROACHES_FROM {
            return OF_MOVEMENT[entry % layout::MOVEMENT_ENTRIES];
        }
        if entry < layout::CYCLE_ENTRY {
            return OF_APPROACH[(entry - layout::APPROACHES_FROM) % layout::APPROACH_ENTRIES];
        }
        Kind::Cycle
    }

    // Whether the value is the kind's usual one or lies within its limits.
    pub fn holds(self, value: u32) -> bool
        ensures { result ≡ in_range self value }
    {
        let limits = self.limits();
        if value == limits.usual {
            return true;
        }
        if value < limits.least {
            return false;
        }
        value <= limits.most
    }
}

// The three movements of an approach.
#[derive(Clone, Copy, PartialEq, Eq, Debug)]
pub enum Group {
    Left,
    Through,
    Right,
}

const GROUPS: [Group; layout::GROUPS] = [Group::Left, Group::Through, Group::Right];

impl Group {
    // The group of a movement.
    pub fn of(movement: usize) -> Group
        ensures { result ≡ group_of movement }
    {
        GROUPS[movement % layout::GROUPS]
    }
}
