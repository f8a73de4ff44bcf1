// An open study that offices share: a site added, amended in its block, or read. Nothing is asked of the caller.
#![tactic(auto)]

ghost use Rattle.std.specs.Prelude.{◌≡◌};
ghost use Rattle.open_rules.specs.Open.{study, add_answer, added, added_place, amend_site_answer, amended_blocks, read_answer, read_sheet};

use answers::{Answer, Refusal};
use layout::Worksheet;

// Adds an office's site at the lowest free place and tells which that is; where it is refused, all stays as it was.
pub fn add(
    owners: &mut [u32],
    blocks: &mut [u32],
    office: u32,
    entries: &[u32],
    place: &mut u32,
) -> Answer
    ensures value { result ≡ add_answer (study owners.old blocks.old) office entries.now }
    ensures blocks_after { study owners.new blocks.new
        ≡ added (study owners.old blocks.old) office entries.now }
    ensures place_after { place.new
        ≡ added_place (study owners.old blocks.old) office entries.now place.old }
{
    let may = open_judging::judge_add(owners, blocks, office, entries);
    let Answer::Accepted = may else {
        return may;
    };
    let Some(lowest) = open_judging::lowest_free(owners) else {
        return Answer::Refused(Refusal::Full, 0);
    };
    owners[lowest] = office;
    lists::put(blocks, layout::ENTRIES * lowest, entries);
    *place = lowest as u32;
    may
}

// Changes one entry of an office's site in its block; where it is refused, the blocks stay as they were.
pub fn amend(
    owners: &[u32],
    blocks: &mut [u32],
    office: u32,
    site: u32,
    entry: u32,
    value: u32,
) -> Answer
    ensures value { result ≡ amend_site_answer (study owners.now blocks.old) office site entry value }
    ensures blocks_after { blocks.new ≡ amended_blocks (study owners.now blocks.old) office site entry value }
{
    let judged = open_judging::judge_amend(owners, blocks, office, site, entry, value);
    let Answer::Accepted = judged else {
        return judged;
    };
    blocks[layout::ENTRIES * site as usize + entry as usize] = value;
    Answer::Accepted
}

// Fills the sheet from an office's site; where it is refused, the sheet stays as it was.
pub fn read(owners: &[u32], blocks: &[u32], office: u32, site: u32, sheet: &mut [u32]) -> Answer
    ensures value { result ≡ read_answer (study owners.now blocks.now) office site sheet.old }
    ensures sheet_after { sheet.new ≡ read_sheet (study owners.now blocks.now) office site sheet.old }
{
    let judged = open_judging::judge_read(owners, blocks, office, site, sheet);
    let Answer::Accepted = judged else {
        return judged;
    };
    sheet::write_fresh(Worksheet::Junction, open_rules::block(blocks, site), sheet);
    Answer::Accepted
}
