// Makes a study file of junctions' texts, prints a study's sites as texts, and a text to begin a single point interchange with, and
// writes a study of before as one of today. What is printed, written and said is the calls' to promise; the rest is input and output.
#![tactic(auto)]

use program_make::ALL_ENTRIES;
use program_outcome::{AREA_BYTES, Lengths, SAID_BYTES, WORD_BYTES};
use program_study::{Job, STUDY};

// Room for the job, a study, and a site or a file to write.
const WORDS_BYTES: usize = 3 * program_io::WORD_ROOM;

// Reads the text that an argument names, and adds its entries.
fn add_text(
    rt: &HostRuntime,
    argument: usize,
    site: u32,
    all: &mut [u32; ALL_ENTRIES],
    said: &mut [u8; SAID_BYTES],
) -> Result<(), usize> {
    let mut name = [0u8; WORD_BYTES];
    let mut area = [0u8; AREA_BYTES];
    let size = program_io::take_argument(rt, argument, &mut name);
    let input = program_io::read_named(rt, &name[..size], &mut area);
    program_make::add(&name[..size], input, &area, site, all, said)
}

// Text after text, until something is said.
fn add_texts(
    rt: &HostRuntime,
    texts: u32,
    all: &mut [u32; ALL_ENTRIES],
    said: &mut [u8; SAID_BYTES],
) -> Result<(), usize> {
    for site in 0..texts {
        let argument = program_study::BEFORE_TEXTS + site as usize;
        add_text(rt, argument, site, all, said)?;
    }
    Ok(())
}

// Writes a study to the file that an argument names.
fn write_out(
    rt: &HostRuntime,
    name: &[u8],
    written: &[u8; program_make::WRITTEN_BYTES],
    size: usize,
) {
    let written = program_outcome::front(written, size);
    program_io::give(rt, &rt.stderr(), b"icustudy", name, b"", written, true);
}

fn write(rt: &HostRuntime, words: &[u8], texts: u32, all: &[u32; ALL_ENTRIES]) {
    let mut written = [0u8; program_make::WRITTEN_BYTES];
    let size = program_make::make(texts, all, &mut written);
    write_out(rt, program_words::word(words, STUDY), &written, size);
}

fn make(rt: &HostRuntime, words: &[u8], texts: u32) {
    let mut all = [0u32; ALL_ENTRIES];
    let mut said = [0u8; SAID_BYTES];
    match add_texts(rt, texts, &mut all, &mut said) {
        Ok(()) => write(rt, words, texts, &all),
        Err(says) => program_io::say(&rt.stderr(), &said, says),
    }
}

// Prints and says; each area has its own size, so that none stands for another.
fn put_out(
    rt: &HostRuntime,
    lengths: Lengths,
    printed: &[u8; program_study::PRINTED_BYTES],
    said: &[u8; SAID_BYTES],
) {
    program_io::put_out(rt, &rt.stderr(), b"icustudy", lengths, printed, said);
}

fn show(rt: &HostRuntime, words: &[u8]) {
    let mut area = [0u8; AREA_BYTES];
    let mut printed = [0u8; program_study::PRINTED_BYTES];
    let mut said = [0u8; SAID_BYTES];
    let input = program_io::read_named(rt, program_words::word(words, STUDY), &mut area);
    let lengths = program_study::show(input, words, &area, &mut printed, &mut said);
    put_out(rt, lengths, &printed, &said);
}

fn convert(rt: &HostRuntime, words: &[u8]) {
    let mut area = [0u8; AREA_BYTES];
    let mut written = [0u8; program_convert::WRITTEN_BYTES];
    let mut said = [0u8; SAID_BYTES];
    let input = program_io::read_named(rt, program_words::word(words, STUDY), &mut area);
    let lengths = program_convert::run(input, words, &area, &mut written, &mut said);
    program_io::say(&rt.stderr(), &said, lengths.says);
    let name = program_words::word(words, program_convert::NEW);
    write_out(rt, name, &written, lengths.writes);
}

fn tell(rt: &HostRuntime, job: Job) {
    let mut printed = [0u8; program_study::PRINTED_BYTES];
    let mut said = [0u8; SAID_BYTES];
    let lengths = program_study::tell(job, &mut printed, &mut said);
    put_out(rt, lengths, &printed, &said);
}

fn run(rt: &HostRuntime, words: &[u8]) {
    let count = program_io::count_arguments(rt);
    let job = program_study::job_of(count, program_words::word(words, program_study::JOB));
    match job {
        Job::Make => make(rt, words, program_study::texts_in(count)),
        Job::Show => show(rt, words),
        Job::Convert => convert(rt, words),
        Job::Point | Job::TooMany | Job::Use | Job::Help | Job::Version => tell(rt, job),
    }
}

fn main(rt: HostRuntime) {
    let mut words = [0u8; WORDS_BYTES];
    run(&rt, program_io::take_words(&rt, &mut words));
}
