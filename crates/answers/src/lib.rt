// What a call answers: accepted, or a refusal with its place.
#![tactic(auto)]

ghost use Rattle.std.specs.Prelude.{◌≡◌};
ghost use Rattle.answers.specs.Answers.{refusal_number, refusal_place, number_of, place_of};

// Why a call says no, in the order in which the reasons are asked, and by number.
#[derive(Clone, Copy, PartialEq, Eq, Debug)]
pub enum Refusal {
    Size = 1,
    Entry = 2,
    Range = 3,
    Shared = 4,
    NoLane = 5,
    File = 6,
    Store = 7,
    Travel = 8,
    Owner = 9,
    Full = 10,
}

// What a refusal's place counts.
#[derive(Clone, Copy, PartialEq, Eq, Debug)]
pub enum Place {
    OfNothing,
    OfEntries,
    OfApproaches,
    OfMovements,
    OfBytes,
    OfRecord,
    OfStudy,
}

// An enum and no Result by a rule of the project: each check's answer is taken apart by `let .. else`, and a refusal handed on.
#[derive(Clone, Copy, PartialEq, Eq, Debug)]
pub enum Answer {
    Accepted,
    // The refusal, and its place.
    Refused(Refusal, u32),
}

impl Refusal {
    pub fn number(self) -> u32
        ensures { result ≡ refusal_number self }
    {
        self as u32
    }

    // What the refusal's place counts, row by row as the rules' table. (No From: a refusal isn't turned into it.)
    pub fn counts(self) -> Place
        ensures { result ≡ refusal_place self }
    {
        match self {
            Refusal::Size | Refusal::Entry | Refusal::Full => Place::OfNothing,
            Refusal::Range => Place::OfEntries,
            Refusal::Shared => Place::OfApproaches,
            Refusal::NoLane => Place::OfMovements,
            Refusal::File => Place::OfBytes,
            Refusal::Store | Refusal::Travel => Place::OfRecord,
            Refusal::Owner => Place::OfStudy,
        }
    }
}

impl Answer {
    // The number of the refusal; 0 where the call is accepted.
    pub fn number(self) -> u32
        ensures { result ≡ number_of self }
    {
        match self {
            Answer::Accepted => 0,
            Answer::Refused(why, _) => why.number(),
        }
    }

    // The place of the refusal; 0 where the call is accepted.
    pub fn place(self) -> u32
        ensures { result ≡ place_of self }
    {
        match self {
            Answer::Accepted => 0,
            Answer::Refused(_, place) => place,
        }
    }
}
