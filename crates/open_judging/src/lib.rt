// What an office's call on an open study is judged by, in the order 1, 2, 9, 3 to 5; FULL is told where an add finds no place.
// Owners and blocks stay two parameters, as C lends them.
#![tactic(auto)]

ghost use Rattle.std.specs.Prelude.{◌≡◌, ◌<◌, length, set};
ghost use Rattle.layout.specs.Entries.{entry_count};
ghost use Rattle.layout.specs.Open.{place_count, blocks_count};
ghost use Rattle.answers.specs.Answers.{◌then◌};
ghost use Rattle.entries.specs.Judging.{judged};
ghost use Rattle.open_rules.specs.Open.{study, block_at, study_size, owner_of, owns, site_owner, add_owner};
ghost use Rattle.open_rules.specs.Working.{free_place};
ghost use Rattle.open_rules.specs.Open.{may_add, amend_site_answer, read_answer};

use answers::{Answer, Refusal};
use layout::{ENTRIES, Worksheet};
use open_rules::FREE;

#[tactic(auto, unfolding(open_rules::specs::Open::study_size))]
fn check_study(owners: &[u32], blocks: &[u32]) -> Answer
    ensures { result ≡ study_size (study owners.now blocks.now) }
{
    if owners.len() != layout::PLACES || blocks.len() != layout::BLOCKS {
        return Answer::Refused(Refusal::Size, 0);
    }
    Answer::Accepted
}

#[tactic(auto, unfolding(open_rules::specs::Open::owner_of))]
fn owner_at(owners: &[u32], site: u32) -> u32
    ensures { result ≡ owner_of owners.now site }
{
    owners.get(site as usize).copied().unwrap_or(FREE)
}

#[tactic(auto, unfolding(open_rules::specs::Open::owns))]
fn is_own(owners: &[u32], office: u32, site: u32) -> bool
    ensures { result ≡ owns owners.now office site }
{
    office != FREE && owner_at(owners, site) == office
}

// Whether the office has the site; one answer for another's, a free and no such place.
#[tactic(auto, unfolding(open_rules::specs::Open::site_owner))]
fn check_own(owners: &[u32], office: u32, site: u32) -> Answer
    ensures { result ≡ site_owner owners.now office site }
{
    if !is_own(owners, office, site) {
        return Answer::Refused(Refusal::Owner, site);
    }
    Answer::Accepted
}

#[tactic(auto, unfolding(open_rules::specs::Open::add_owner))]
fn check_office(office: u32) -> Answer
    ensures { result ≡ add_owner office }
{
    if office == FREE {
        return Answer::Refused(Refusal::Owner, 0);
    }
    Answer::Accepted
}

// The lowest free place.
pub fn lowest_free(owners: &[u32]) -> Option<usize>
    ensures { result ≡ free_place owners.now }
{
    owners.iter().position(|owner| *owner == FREE)
}

// The first check's refusal, or else the second's answer.
pub fn in_order(first: Answer, second: Answer) -> Answer
    ensures { result ≡ (first then second) }
{
    let Answer::Accepted = first else {
        return first;
    };
    second
}

// Judges an add but for whether a place is free.
pub fn judge_add(owners: &[u32], blocks: &[u32], office: u32, entries: &[u32]) -> Answer
    ensures { result ≡ may_add (study owners.now blocks.now) office entries.now }
{
    let size = in_order(check_study(owners, blocks), entries::check_size(entries));
    let may = in_order(size, check_office(office));
    let Answer::Accepted = may else {
        return may;
    };
    entries::judge(Worksheet::Junction, entries)
}

// Judges a block's entries as they would stand with one of them changed.
fn judge_block(blocks: &[u32], site: u32, entry: u32, value: u32) -> Answer
    requires { (length blocks.now ≡ blocks_count) × (site < place_count) × (entry < entry_count) }
    ensures { result ≡ judged (set (block_at blocks.now site) entry value) }
{
    let mut entries = [0u32; ENTRIES];
    entries.copy_from_slice(open_rules::block(blocks, site));
    entries[entry as usize] = value;
    entries::judge(Worksheet::Junction, &entries)
}

// Judges an amendment of a site in its block.
pub fn judge_amend(
    owners: &[u32],
    blocks: &[u32],
    office: u32,
    site: u32,
    entry: u32,
    value: u32,
) -> Answer
    ensures { result ≡ amend_site_answer (study owners.now blocks.now) office site entry value }
{
    let known = in_order(check_study(owners, blocks), amend_sets::check_entry(entry));
    let may = in_order(known, check_own(owners, office, site));
    let Answer::Accepted = may else {
        return may;
    };
    judge_block(blocks, site, entry, value)
}

// Judges the reading of a site into a sheet.
pub fn judge_read(owners: &[u32], blocks: &[u32], office: u32, site: u32, sheet: &[u32]) -> Answer
    ensures { result ≡ read_answer (study owners.now blocks.now) office site sheet.now }
{
    let size = in_order(
        check_study(owners, blocks),
        sheet_cells::check_sheet(Worksheet::Junction, sheet),
    );
    let may = in_order(size, check_own(owners, office, site));
    let Answer::Accepted = may else {
        return may;
    };
    entries::judge(Worksheet::Junction, open_rules::block(blocks, site))
}
