// A diamond's record judged: the first refusal that applies, or acceptance.
#![tactic(auto)]

ghost use Rattle.std.specs.Prelude.{◌≡◌, ◌≤◌};
ghost use Rattle.answers.specs.Answers.{place_of};
ghost use Rattle.layout.specs.Entries.{entry_count};
ghost use Rattle.diamond_rules.specs.Record.{counted_on, both_answer, cycles_answer, stores_answer, travel_answer};
ghost use Rattle.diamond_rules.specs.Record.{junctions_answer, own_answer, judged_record};

use answers::{Answer, Refusal};
use entries::Fault;
use kinds::Kind;
use layout::{RECORD, Worksheet};

// The place of a refusal counted on from the places before it.
fn count_on(before: usize, answer: Answer) -> Answer
    requires { (before ≤ entry_count) × (place_of answer ≤ entry_count) }
    ensures { result ≡ counted_on before answer }
{
    match answer {
        Answer::Accepted => Answer::Accepted,
        Answer::Refused(why, place) => Answer::Refused(why, before as u32 + place),
    }
}

// The lowest place of one fault over both junctions, the west's first.
#[tactic(auto, unfolding(diamond_rules::specs::Record::both_answer))]
fn check_both(numbers: &[u32; RECORD], fault: Fault) -> Answer
    ensures { result ≡ both_answer numbers.now fault }
{
    let west = entries::check_for(Worksheet::Junction, diamond_rules::west_of(numbers), fault);
    let Answer::Accepted = west else {
        return west;
    };
    let east = entries::check_for(Worksheet::Junction, diamond_rules::east_of(numbers), fault);
    let before = fault.count();
    count_on(before, east)
}

// Both junctions have one cycle.
#[tactic(auto, unfolding(diamond_rules::specs::Record::cycles_answer))]
fn check_cycles(numbers: &[u32; RECORD]) -> Answer
    ensures { result ≡ cycles_answer numbers.now }
{
    let west = entries::cycle_entry(diamond_rules::west_of(numbers));
    let east = entries::cycle_entry(diamond_rules::east_of(numbers));
    if west != east {
        return Answer::Refused(Refusal::Range, layout::EAST_CYCLE as u32);
    }
    Answer::Accepted
}

#[tactic(auto, unfolding(diamond_rules::specs::Record::junctions_answer))]
fn check_junctions(numbers: &[u32; RECORD]) -> Answer
    ensures { result ≡ junctions_answer numbers.now }
{
    let ranges = check_both(numbers, Fault::Range);
    let Answer::Accepted = ranges else {
        return ranges;
    };
    let cycles = check_cycles(numbers);
    let Answer::Accepted = cycles else {
        return cycles;
    };
    let shared = check_both(numbers, Fault::Shared);
    let Answer::Accepted = shared else {
        return shared;
    };
    check_both(numbers, Fault::NoLane)
}

fn check_stores(numbers: &[u32; RECORD]) -> Answer
    ensures { result ≡ stores_answer numbers.now }
{
    for storage in 0..layout::STORAGES {
        let place = layout::STORAGES_FROM + storage;
        if !Kind::Storage.holds(numbers[place]) {
            return Answer::Refused(Refusal::Store, place as u32);
        }
    }
    Answer::Accepted
}

#[tactic(auto, unfolding(diamond_rules::specs::Record::travel_answer))]
fn check_travel(numbers: &[u32; RECORD]) -> Answer
    ensures { result ≡ travel_answer numbers.now }
{
    if !Kind::TravelTime.holds(numbers[layout::TRAVEL_PLACE]) {
        return Answer::Refused(Refusal::Travel, layout::TRAVEL_PLACE as u32);
    }
    Answer::Accepted
}

// The record's own numbers.
#[tactic(auto, unfolding(diamond_rules::specs::Record::own_answer))]
fn check_own(numbers: &[u32; RECORD]) -> Answer
    ensures { result ≡ own_answer numbers.now }
{
    let stores = check_stores(numbers);
    let Answer::Accepted = stores else {
        return stores;
    };
    check_travel(numbers)
}

// The first refusal that applies to the record, or acceptance.
pub fn judge(numbers: &[u32]) -> Answer
    ensures { result ≡ judged_record numbers.now }
{
    let Some(numbers) = numbers.as_array() else {
        return Answer::Refused(Refusal::Size, 0);
    };
    let junctions = check_junctions(numbers);
    let Answer::Accepted = junctions else {
        return junctions;
    };
    check_own(numbers)
}
