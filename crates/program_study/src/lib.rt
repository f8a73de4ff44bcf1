// What `icustudy` is asked to do, and what `icustudy show` and `icustudy point` print and say: one call, between reading and writing.
#![tactic(auto)]

ghost use Rattle.std.specs.Prelude.{◌≡◌, ◌≤◌, length};
ghost use Rattle.point_start.specs.Start.{start_entries};
ghost use Rattle.text.specs.Text.{Placed};
ghost use Rattle.text_writer.specs.Writer.{junction_text};
ghost use Rattle.program_outcome.specs.Outcome.{Left};
ghost use Rattle.program_study.specs.Run.{texts_in, job_with, work_of, job_of, study_use, told_of, show_at, show_run};
ghost use Rattle.program_study.specs.Working.{use_most};

use layout::ENTRIES;
use program_outcome::{AREA_BYTES, Input, Lengths, Remark, SAID_BYTES};
use program_wish::Wish;
use text_writer::TEXT_BYTES;

// Room for what is printed; how much of it is used stands beside it, since there is no heap.
pub const PRINTED_BYTES: usize = TEXT_BYTES;

// The arguments before the first text: the program's name, the job's, and the study's.
pub const BEFORE_TEXTS: usize = 3;

// The program's name, the job's, and beside them nothing; or a study, and a site or a file to write.
const OF_NONE: usize = 2;

const OF_TWO: usize = 4;

// The arguments, among the words.
pub const JOB: usize = 0;

pub const STUDY: usize = 1;

const SITE: usize = 2;

// A value and no closure: the job is known before its files are read, and `told_of` has a row for each.
#[derive(Clone, Copy)]
pub enum Job {
    Make,
    Show,
    Convert,
    // the text to begin a single point interchange with
    Point,
    TooMany,
    Use,
    Help,
    Version,
}

// A job, if there are as many arguments as it takes.
fn job_with(count: usize, takes: usize, job: Job) -> Job
    ensures { result ≡ job_with count takes job }
{
    if count == takes { job } else { Job::Use }
}

// What there is to do, by the number of arguments and the job's name.
#[tactic(auto, unfolding(crate::specs::Run::work_of, text::specs::Text::ascii))]
fn work_of(count: usize, word: &[u8]) -> Job
    ensures { result ≡ work_of count word.now }
{
    if program_wish::is_same(word, b"make") {
        if count <= BEFORE_TEXTS {
            return Job::Use;
        }
        if study::MOST_SITES < count - BEFORE_TEXTS {
            return Job::TooMany;
        }
        return Job::Make;
    }
    if program_wish::is_same(word, b"show") {
        return job_with(count, OF_TWO, Job::Show);
    }
    if program_wish::is_same(word, b"convert") {
        return job_with(count, OF_TWO, Job::Convert);
    }
    if program_wish::is_same(word, b"point") {
        return job_with(count, OF_NONE, Job::Point);
    }
    Job::Use
}

// The same, or what is asked for in its place.
#[tactic(auto, unfolding(crate::specs::Run::job_of))]
pub fn job_of(count: usize, word: &[u8]) -> Job
    ensures { result ≡ job_of count word.now }
{
    match program_wish::wish_of(count, word) {
        Wish::Help => Job::Help,
        Wish::Version => Job::Version,
        Wish::Work => work_of(count, word),
    }
}

// How many texts are to be read, by the number of arguments; a study holds no more.
pub fn texts_in(count: usize) -> u32
    ensures { result ≡ texts_in count }
{
    count.saturating_sub(BEFORE_TEXTS).min(study::MOST_SITES) as u32
}

#[tactic(auto, unfolding(crate::specs::Run::study_use, text::specs::Text::ascii))]
fn put_use(out: &mut [u8]) -> usize
    requires { use_most ≤ length out.old }
    ensures { Placed out.old 0 study_use out.new result }
{
    text::put_bytes(
        out,
        0,
        b"usage: icustudy make STUDY TEXT ...   makes a study file of the junctions in the texts\n       \
        icustudy show STUDY SITE       prints a site of a study file as text, sites from 1\n       \
        icustudy convert STUDY NEW     writes a study of before (ICUS) as one of today (ICUT)\n       \
        icustudy point                 prints a text to begin a single point interchange with\n",
    )
}

// Puts a junction's text to the front.
fn put_text(entries: &[u32; ENTRIES], out: &mut [u8; PRINTED_BYTES]) -> usize
    ensures { Placed out.old 0 (junction_text entries.now) out.new result }
{
    text_writer::write(entries, out)
}

// Puts the text that a single point interchange begins with.
fn put_point(out: &mut [u8; PRINTED_BYTES]) -> usize
    ensures { Placed out.old 0 (junction_text start_entries) out.new result }
{
    let mut entries = [0u32; ENTRIES];
    point_start::start(&mut entries);
    put_text(&entries, out)
}

// What is given at once, where nothing is to be made, shown or converted: what is wrong, or what is asked for.
pub fn tell(job: Job, printed: &mut [u8; PRINTED_BYTES], said: &mut [u8; SAID_BYTES]) -> Lengths
    ensures { Left (told_of job) printed.old said.old printed.new said.new result }
{
    match job {
        Job::Make => Lengths::said(0),
        Job::Show => Lengths::said(0),
        Job::Convert => Lengths::said(0),
        Job::TooMany => Lengths::said(text::put_bytes(
            said,
            0,
            b"a study holds at most 165 junctions\n",
        )),
        Job::Use => Lengths::said(put_use(said)),
        Job::Help => Lengths::printed(put_use(printed)),
        Job::Version => Lengths::printed(program_wish::put_version(printed)),
        Job::Point => Lengths::printed(put_point(printed)),
    }
}

fn show_site(
    name: &[u8],
    word: &[u8],
    file: &[u8],
    printed: &mut [u8; PRINTED_BYTES],
    said: &mut [u8; SAID_BYTES],
) -> Lengths
    ensures { Left (show_at name.now word.now file.now)
        printed.old said.old printed.new said.new result }
{
    let mut entries = [0u32; ENTRIES];
    let sought = program_site::read_site(file, word, &mut entries);
    match sought {
        Ok(_) => Lengths::printed(put_text(&entries, printed)),
        Err(_) => Lengths::said(program_site::say_site(sought, name, word, said)),
    }
}

// What `icustudy show` gives; its study was read into the area.
pub fn show(
    input: Input,
    words: &[u8],
    area: &[u8; AREA_BYTES],
    printed: &mut [u8; PRINTED_BYTES],
    said: &mut [u8; SAID_BYTES],
) -> Lengths
    ensures { Left (show_run input words.now area.now)
        printed.old said.old printed.new said.new result }
{
    let name = program_words::word(words, STUDY);
    let Some(size) = input else {
        return Lengths::said(program_outcome::say(name, Remark::Unread, said));
    };
    let file = program_outcome::front(area, size);
    show_site(name, program_words::word(words, SITE), file, printed, said)
}
