// What `icuoffice` is asked to do, what it tells at once, and what it gives where a new study is asked for: calls between
// reading and writing.
#![tactic(auto)]

ghost use Rattle.std.specs.Prelude.{◌≡◌, [], ◌≤◌, length};
ghost use Rattle.text.specs.Text.{Placed};
ghost use Rattle.open_file.specs.File.{empty_file};
ghost use Rattle.program_outcome.specs.Outcome.{Left};
ghost use Rattle.program_office.specs.Run.{is_asked, office_job, work_of, job_of, office_use, told_of, start_run};
ghost use Rattle.program_office.specs.Working.{use_most};

use layout::{BLOCKS, PLACES};
use open_file::OPEN_BYTES;
use program_outcome::{Lengths, Remark, SAID_BYTES};
use program_target::Found;
use program_wish::Wish;

// Room for what is told at once.
pub const TOLD_BYTES: usize = 1_024;

// The most words, which are those of an amendment.
pub const MOST_WORDS: usize = TO_AMEND - 1;

// How many arguments each job takes, the program's name among them.
const TO_START: usize = 3;

const TO_ADD: usize = 5;

const TO_AMEND: usize = 8;

const TO_READ: usize = 5;

// The arguments, among the words.
const STUDY: usize = 0;

const OFFICE: usize = 1;

const JOB: usize = 2;

#[derive(Clone, Copy)]
pub enum Job {
    New,
    Add,
    Amend,
    Read,
    Use,
    Help,
    Version,
}

// Whether a job is asked for: it takes so many arguments, and a word is its name.
fn is_asked(count: usize, takes: usize, word: &[u8], job: &[u8]) -> bool
    ensures { result ≡ is_asked count takes word.now job.now }
{
    if count != takes {
        return false;
    }
    program_wish::is_same(word, job)
}

// What an office is to do, by the number of arguments and the job's name.
fn office_job(count: usize, job: &[u8]) -> Job
    ensures { result ≡ office_job count job.now }
{
    if is_asked(count, TO_ADD, job, b"add") {
        return Job::Add;
    }
    if is_asked(count, TO_AMEND, job, b"amend") {
        return Job::Amend;
    }
    if is_asked(count, TO_READ, job, b"read") {
        return Job::Read;
    }
    Job::Use
}

// What there is to do; `new` stands where an office does.
fn work_of(count: usize, words: &[u8]) -> Job
    ensures { result ≡ work_of count words.now }
{
    if is_asked(count, TO_START, program_words::word(words, OFFICE), b"new") {
        return Job::New;
    }
    office_job(count, program_words::word(words, JOB))
}

// The same, or what is asked for in its place.
pub fn job_of(count: usize, words: &[u8]) -> Job
    ensures { result ≡ job_of count words.now }
{
    match program_wish::wish_of(count, program_words::word(words, STUDY)) {
        Wish::Help => Job::Help,
        Wish::Version => Job::Version,
        Wish::Work => work_of(count, words),
    }
}

fn put_use(out: &mut [u8]) -> usize
    requires { use_most ≤ length out.old }
    ensures { Placed out.old 0 office_use out.new result }
{
    text::put_bytes(
        out,
        0,
        b"usage: icuoffice STUDY new                                   \
        makes an open study of 165 free places\n       \
        icuoffice STUDY OFFICE add TEXT                       \
        puts the text's junction at the lowest free place\n       \
        icuoffice STUDY OFFICE amend SITE NAME ENTRY VALUE    \
        changes an entry of a site of the office's own\n       \
        icuoffice STUDY OFFICE read SITE                      \
        prints the sheet of a site of the office's own\n  \
        OFFICE: the office's number, from 1; sites are counted from 1; NAME ENTRY VALUE: see icuamend --help\n",
    )
}

// What is given at once, where there is no study to see to.
pub fn tell(job: Job, printed: &mut [u8; TOLD_BYTES], said: &mut [u8; SAID_BYTES]) -> Lengths
    ensures { Left (told_of job) printed.old said.old printed.new said.new result }
{
    match job {
        Job::New => Lengths::said(0),
        Job::Add => Lengths::said(0),
        Job::Amend => Lengths::said(0),
        Job::Read => Lengths::said(0),
        Job::Use => Lengths::said(put_use(said)),
        Job::Help => Lengths::printed(put_use(printed)),
        Job::Version => Lengths::printed(program_wish::put_version(printed)),
    }
}

// The file of a study in which every place is free.
fn put_empty(written: &mut [u8; OPEN_BYTES]) -> usize
    ensures { Placed written.old 0 empty_file written.new result }
{
    let owners = [0u32; PLACES];
    let blocks = [0u32; BLOCKS];
    open_file::write(&owners, &blocks, written)
}

// What `icuoffice STUDY new` gives, by what was found where the study is to stand; nothing is printed.
pub fn start(
    found: Found,
    words: &[u8],
    written: &mut [u8; OPEN_BYTES],
    said: &mut [u8; SAID_BYTES],
) -> Lengths
    ensures left { Left (start_run found words.now) [] said.old [] said.new result }
    ensures placed { Placed written.old 0 (start_run found words.now).writes written.new result.writes }
{
    let name = program_words::word(words, STUDY);
    match found {
        Ok(None) => Lengths::written(put_empty(written)),
        Ok(Some(_)) => Lengths::said(program_outcome::put_named(
            said,
            name,
            b"there is such a file, which stays as it is: name another\n",
        )),
        Err(why) => Lengths::said(program_outcome::say(name, Remark::from(why), said)),
    }
}
