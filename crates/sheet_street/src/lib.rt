// A street: the lines of two opposite approaches, and the cells of their pair.
#![tactic(auto)]

ghost use Rattle.std.specs.Prelude.{◌≡◌, ◌||◌, ◌<◌, length};
ghost use Rattle.answers.specs.declared.Answer.TheVariants.{Accepted};
ghost use Rattle.layout.specs.Entries.{approach_count, entry_count};
ghost use Rattle.entries.specs.Judging.{judged};
ghost use Rattle.procedure.specs.Approach.{read_approach, is_shared};
ghost use Rattle.sheet_street.specs.Street.{LinesAt, StreetAt};

use layout::Worksheet;
use line_stages::Lines;
use sheet_pairs::Pair;

#[derive(Clone, Copy)]
pub struct Street {
    pub one: Lines,
    pub other: Lines,
    pub pair: Pair,
}

// Whether an approach shares a lane.
fn shares(entries: &[u32], a: usize) -> bool
    requires { (length entries.now ≡ entry_count) × (a < approach_count) }
    ensures { result ≡ is_shared (read_approach entries.now a) }
{
    entries::approach_entry(entries, a, layout::SHARED_NO) == 1
}

// Whether either approach does.
fn either_shares(entries: &[u32], a: usize, o: usize) -> bool
    requires { (length entries.now ≡ entry_count) × (a < approach_count) × (o < approach_count) }
    ensures { result ≡ (is_shared (read_approach entries.now a) || is_shared (read_approach entries.now o)) }
{
    if shares(entries, a) {
        return true;
    }
    shares(entries, o)
}

// The lines of an approach of acceptable entries, with o opposite it. Read here, the entries need not be handed on.
pub fn lines_at(kind: Worksheet, entries: &[u32], a: usize, o: usize) -> Lines
    requires { (judged entries.now ≡ Accepted) × (a < approach_count) × (o < approach_count) }
    ensures { LinesAt kind entries.now a o result }
{
    let s = procedure::read_approach(entries, a);
    let t = procedure::read_approach(entries, o);
    lines::lines_of(kind, s, t, procedure::read_cycle(entries))
}

// The street of an approach and the one opposite it, whose lines are worked out.
pub fn street_at(
    kind: Worksheet,
    entries: &[u32],
    a: usize,
    o: usize,
    one: Lines,
    other: Lines,
) -> Street
    requires entries_value { (judged entries.now ≡ Accepted) × (a < approach_count) × (o < approach_count) }
    requires lines_at { LinesAt kind entries.now a o one × LinesAt kind entries.now o a other }
    ensures { StreetAt kind entries.now a o result }
{
    let pair = sheet_pairs::pair_of(kind, either_shares(entries, a, o), one, other);
    Street { one, other, pair }
}
