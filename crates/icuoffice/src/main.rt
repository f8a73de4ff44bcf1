// Keeps an open study that offices share: makes it, adds a junction, changes an entry, prints a sheet. What is printed, written
// and said is the calls' to promise; the rest is input and output. Who changes a study holds its lock.
#![tactic(auto)]

use open_file::OPEN_BYTES;
use program_office::Job;
use program_open::{STUDY, TEXT};
use program_open_add::Files;
use program_outcome::{AREA_BYTES, Lengths, SAID_BYTES};
use program_target::Found;
use std::fs::File;

const WORDS_BYTES: usize = program_office::MOST_WORDS * program_io::WORD_ROOM;

fn lock(rt: &HostRuntime, words: &[u8]) -> Option<File> {
    program_io::take_lock(rt, &rt.stderr(), program_words::word(words, STUDY))
}

fn find(rt: &HostRuntime, words: &[u8], area: &mut [u8; AREA_BYTES]) -> Found {
    program_io::find(rt, program_words::word(words, STUDY), area)
}

// Prints, and gives up the lock: it becomes the study where one is written.
fn settle(
    rt: &HostRuntime,
    words: &[u8],
    file: File,
    printed: &[u8],
    written: &[u8; OPEN_BYTES],
    size: usize,
) {
    let name = program_words::word(words, STUDY);
    let written = program_outcome::front(written, size);
    program_io::settle_lock(rt, &rt.stderr(), b"icuoffice", name, file, printed, written);
}

fn start(rt: &HostRuntime, words: &[u8]) {
    let mut area = [0u8; AREA_BYTES];
    let mut written = [0u8; OPEN_BYTES];
    let mut said = [0u8; SAID_BYTES];
    let Some(file) = lock(rt, words) else {
        return;
    };
    let found = find(rt, words, &mut area);
    let lengths = program_office::start(found, words, &mut written, &mut said);
    program_io::say(&rt.stderr(), &said, lengths.says);
    settle(rt, words, file, b"", &written, lengths.writes);
}

// The text is read first, since it may come slowly and others wait for the lock.
fn add(rt: &HostRuntime, words: &[u8]) {
    let mut area = [0u8; AREA_BYTES];
    let mut text = [0u8; AREA_BYTES];
    let mut printed = [0u8; program_open_add::PRINTED_BYTES];
    let mut written = [0u8; OPEN_BYTES];
    let mut said = [0u8; SAID_BYTES];
    let input = program_io::read_named(rt, program_words::word(words, TEXT), &mut text);
    let Some(file) = lock(rt, words) else {
        return;
    };
    let found = find(rt, words, &mut area);
    let files = Files {
        study: found,
        text: input,
    };
    let lengths = program_open_add::run(
        files,
        words,
        &area,
        &text,
        &mut printed,
        &mut written,
        &mut said,
    );
    program_io::say(&rt.stderr(), &said, lengths.says);
    let printed = program_outcome::front(&printed, lengths.prints);
    settle(rt, words, file, printed, &written, lengths.writes);
}

fn amend(rt: &HostRuntime, words: &[u8]) {
    let mut area = [0u8; AREA_BYTES];
    let mut printed = [0u8; program_open_amend::PRINTED_BYTES];
    let mut written = [0u8; OPEN_BYTES];
    let mut said = [0u8; SAID_BYTES];
    let Some(file) = lock(rt, words) else {
        return;
    };
    let found = find(rt, words, &mut area);
    let lengths = program_open_amend::run(
        found,
        words,
        &area,
        &mut printed,
        &mut written,
        &mut said,
    );
    program_io::say(&rt.stderr(), &said, lengths.says);
    let printed = program_outcome::front(&printed, lengths.prints);
    settle(rt, words, file, printed, &written, lengths.writes);
}

// Prints and says what reading gives; each area has its own size, so that none stands for another.
fn put_read(
    rt: &HostRuntime,
    lengths: Lengths,
    printed: &[u8; program_open_read::PRINTED_BYTES],
    said: &[u8; SAID_BYTES],
) {
    program_io::put_out(rt, &rt.stderr(), b"icuoffice", lengths, printed, said);
}

// A study that is only read needs no lock: it is whole at any time.
fn read(rt: &HostRuntime, words: &[u8]) {
    let mut area = [0u8; AREA_BYTES];
    let mut printed = [0u8; program_open_read::PRINTED_BYTES];
    let mut said = [0u8; SAID_BYTES];
    let input = program_io::read_named(rt, program_words::word(words, STUDY), &mut area);
    let lengths = program_open_read::run(input, words, &area, &mut printed, &mut said);
    put_read(rt, lengths, &printed, &said);
}

fn put_told(
    rt: &HostRuntime,
    lengths: Lengths,
    printed: &[u8; program_office::TOLD_BYTES],
    said: &[u8; SAID_BYTES],
) {
    program_io::put_out(rt, &rt.stderr(), b"icuoffice", lengths, printed, said);
}

fn tell(rt: &HostRuntime, job: Job) {
    let mut printed = [0u8; program_office::TOLD_BYTES];
    let mut said = [0u8; SAID_BYTES];
    let lengths = program_office::tell(job, &mut printed, &mut said);
    put_told(rt, lengths, &printed, &said);
}

fn run(rt: &HostRuntime, words: &[u8]) {
    let job = program_office::job_of(program_io::count_arguments(rt), words);
    match job {
        Job::New => start(rt, words),
        Job::Add => add(rt, words),
        Job::Amend => amend(rt, words),
        Job::Read => read(rt, words),
        Job::Use | Job::Help | Job::Version => tell(rt, job),
    }
}

fn main(rt: HostRuntime) {
    let mut words = [0u8; WORDS_BYTES];
    run(&rt, program_io::take_words(&rt, &mut words));
}
