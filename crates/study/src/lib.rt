// Study files: the calls of study_format, study_reader and study_writer, for the format of today and, to be read, that of before.
#![tactic(auto)]

ghost use Rattle.std.specs.Prelude.{◌≡◌, [], ◌≤◌, length};
ghost use Rattle.lists.specs.Lists.{over};
ghost use Rattle.layout.specs.Entries.{entry_count};
ghost use Rattle.answers.specs.Answers.{left_by};
ghost use Rattle.study_format.specs.Format.{size_answer, block_bytes};
ghost use Rattle.study_format.specs.Format.{block_entries as entries_in};
ghost use Rattle.study_before.specs.Before.{widened};
ghost use Rattle.study.specs.Study.{icus, limit_before, is_old, format_of, file_bytes, judgement, count_of, site_answer, site_block, block_answer, block_entries};
ghost use Rattle.study.specs.Study.{site_entries_answer, site_entries, write_answer, file_of};

use answers::{Answer, Refusal};
use study_before::ENTRIES_BEFORE;
use study_format::Format;
use study_numbers::NUMBER_BYTES;

// The format of study files, of at most 165 sites by the rules.
pub const ICUT: Format = Format {
    opening: *b"ICUT",
    entries: layout::ENTRIES,
    most: 165,
};

// The format of before, of at most 180, which is read and not written.
const ICUS: Format = Format {
    opening: *b"ICUS",
    entries: ENTRIES_BEFORE,
    most: 180,
};

// The bytes of a site's block, and of one of before.
pub const BLOCK_BYTES: usize = NUMBER_BYTES * ICUT.entries;

const BEFORE_BYTES: usize = NUMBER_BYTES * ICUS.entries;

// The most sites of a study that is written, their entries, and the bytes of their file: no file that is read has more.
pub const MOST_SITES: usize = ICUT.most;

pub const MOST_ENTRIES: usize = ICUT.entries * MOST_SITES;

pub const MOST_BYTES: usize = study_format::OFFSETS_PLACE
    + NUMBER_BYTES * MOST_SITES
    + BLOCK_BYTES * MOST_SITES;

// The most sites of a study that is read.
pub const MOST_READ: usize = ICUS.most;

// How long the study file of that many sites is.
pub fn file_bytes(sites: u32) -> usize
    ensures { result ≡ file_bytes sites }
{
    ICUT.file_bytes(sites as usize)
}

// Whether a file opens as one of before.
pub fn is_old(file: &[u8]) -> bool
    ensures { result ≡ is_old file.now }
{
    ICUS.opens(file)
}

// The format by which a file is judged. Its opening tells, at run time, so that formats are values and not types.
fn format_of(file: &[u8]) -> Format
    ensures { (result ≡ format_of file.now) × (result.most ≤ limit_before) }
{
    if is_old(file) {
        return ICUS;
    }
    ICUT
}

// Judges any bytes, of any length, as a study file.
pub fn check(file: &[u8]) -> Answer
    ensures { result ≡ judgement file.now }
{
    format_of(file).check(file)
}

// How many sites a well laid out file has; 0 of any other bytes.
pub fn count(file: &[u8]) -> u32
    ensures { (result ≡ count_of file.now) × (result ≤ limit_before) }
{
    study_reader::count(format_of(file), file)
}

// Whether a file has a site, counted from 0.
pub fn site_answer(file: &[u8], site: u32) -> Answer
    ensures { result ≡ site_answer file.now site }
{
    study_reader::site_answer(format_of(file), file, site)
}

// The block of a site, a part of the lent file; empty where `site_answer` refuses.
pub fn site(file: &[u8], site: u32) -> &[u8]
    ensures { result.now ≡ left_by (site_answer file.now site) (site_block file.now site) [] }
{
    study_reader::site(format_of(file), file, site)
}

// The entries of a block of before, as they stand today.
fn widen_block(block: &[u8], entries: &mut [u32]) -> Answer
    requires { length block.now ≡ block_bytes icus }
    ensures value { result ≡ size_answer entry_count (length entries.old) }
    ensures entries_after { entries.new
        ≡ left_by (size_answer entry_count (length entries.old)) (widened (entries_in icus block.now)) entries.old }
{
    if entries.len() != layout::ENTRIES {
        return Answer::Refused(Refusal::Size, 0);
    }
    let mut before = [0u32; ENTRIES_BEFORE];
    study_numbers::read_all(block, &mut before);
    study_before::widen(&before, entries);
    Answer::Accepted
}

// The entries of a block, into lent numbers: of a block of before those that it is today.
pub fn entries_of(block: &[u8], entries: &mut [u32]) -> Answer
    ensures value { result ≡ block_answer block.now (length entries.old) }
    ensures entries_after { entries.new
        ≡ left_by (block_answer block.now (length entries.old)) (block_entries block.now) entries.old }
{
    if block.len() == BEFORE_BYTES {
        return widen_block(block, entries);
    }
    study_reader::entries_of(ICUT, block, entries)
}

// The entries of a site of a file, into lent numbers: those of its block, which is empty only where the site is refused.
pub fn site_entries(file: &[u8], number: u32, entries: &mut [u32]) -> Answer
    ensures value { result ≡ site_entries_answer file.now number (length entries.old) }
    ensures entries_after { entries.new
        ≡ left_by (site_entries_answer file.now number (length entries.old))
        (site_entries file.now number) entries.old }
{
    if entries.len() != layout::ENTRIES {
        return Answer::Refused(Refusal::Size, 0);
    }
    let block = site(file, number);
    if block.len() == 0 {
        return site_answer(file, number);
    }
    entries_of(block, entries)
}

// Writes the study file of whole sites' entries to the front of the lent bytes; those past it stay.
pub fn write(entries: &[u32], out: &mut [u8]) -> Answer
    ensures value { result ≡ write_answer entries.now (length out.old) }
    ensures out_after { out.new
        ≡ left_by (write_answer entries.now (length out.old))
        (over out.old 0 (file_of entries.now)) out.old }
{
    study_writer::write(ICUT, entries, out)
}
