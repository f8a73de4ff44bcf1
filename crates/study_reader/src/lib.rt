// The sites of a study file of any format: how many there are, the block of each, and the entries of a block.
#![tactic(auto)]

ghost use Rattle.std.specs.Prelude.{◌≡◌, [], ◌+◌, ◌≤◌, length};
ghost use Rattle.answers.specs.Answers.{left_by};
ghost use Rattle.answers.specs.declared.Answer.TheVariants.{Accepted};
ghost use Rattle.study_format.specs.Format.{sites_of, block_bytes, block_place, count_of, site_answer, site_block, block_answer, block_entries};

use answers::{Answer, Refusal};
use study_format::Format;

// How many sites a well laid out file has; 0 of any other bytes.
pub fn count(format: Format, file: &[u8]) -> u32
    ensures { (result ≡ count_of format file.now) × (result ≤ format.most) }
{
    let answer = format.check(file);
    let Answer::Accepted = answer else {
        return 0;
    };
    study_numbers::read(file, study_format::COUNT_PLACE)
}

// Whether a file has a site, counted from 0. Only a number that passes here is multiplied by a block's bytes.
pub fn site_answer(format: Format, file: &[u8], site: u32) -> Answer
    ensures { result ≡ site_answer format file.now site }
{
    let answer = format.check(file);
    let Answer::Accepted = answer else {
        return answer;
    };
    if study_format::sites_of(file) <= site as usize {
        return study_format::refused(study_format::COUNT_PLACE);
    }
    Answer::Accepted
}

// Where the block of a site stands that the file has.
fn site_place(format: Format, file: &[u8], site: u32) -> usize
    requires { site_answer format file.now site ≡ Accepted }
    ensures { (result ≡ block_place format (sites_of file.now) site)
        × (result + block_bytes format ≤ length file.now) }
{
    format.block_place(study_format::sites_of(file), site as usize)
}

// The block of a site, a part of the lent file; empty where `site_answer` refuses.
pub fn site(format: Format, file: &[u8], site: u32) -> &[u8]
    ensures { result.now
        ≡ left_by (site_answer format file.now site) (site_block format file.now site) [] }
{
    let answer = site_answer(format, file, site);
    let Answer::Accepted = answer else {
        return &file[..0];
    };
    let at = site_place(format, file, site);
    let end = at + format.block_bytes();
    &file[at..end]
}

// The entries of a block, into lent numbers.
pub fn entries_of(format: Format, block: &[u8], entries: &mut [u32]) -> Answer
    ensures value { result ≡ block_answer format block.now (length entries.old) }
    ensures entries_after { entries.new
        ≡ left_by (block_answer format block.now (length entries.old))
        (block_entries format block.now) entries.old }
{
    if block.len() != format.block_bytes() {
        return Answer::Refused(Refusal::Size, 0);
    }
    if entries.len() != format.entries {
        return Answer::Refused(Refusal::Size, 0);
    }
    study_numbers::read_all(block, entries);
    Answer::Accepted
}
