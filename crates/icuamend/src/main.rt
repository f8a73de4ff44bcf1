// Changes entries of a site of a study file, and prints every cell of its sheet that changes. What is printed, written and
// said is the one call's to promise; the rest is input and output.
#![tactic(auto)]

use program_outcome::{AREA_BYTES, Call, Input, Lengths};

// Room for the worksheet, a study, a site, the changes and the file to write.
const WORDS_BYTES: usize = (1 + program_amend::MOST_WORDS) * program_io::WORD_ROOM;

// Reads the file that the first word names, if there are as many arguments as there should be.
fn read(rt: &HostRuntime, count: usize, words: &[u8], area: &mut [u8; AREA_BYTES]) -> Input {
    if program_amend::takes(count) {
        return program_io::read_named(rt, program_words::word(words, 0), area);
    }
    None
}

fn say(err: &impl Print, said: &[u8; program_amend::SAID_BYTES], size: usize) {
    program_io::say(err, said, size);
}

// Prints, and writes the file; each area has its own size, so that none stands for another.
fn give(
    rt: &HostRuntime,
    arguments: usize,
    words: &[u8],
    printed: &[u8; program_amend::PRINTED_BYTES],
    written: &[u8; program_amend::WRITTEN_BYTES],
    lengths: Lengths,
) {
    program_io::give(
        rt,
        &rt.stderr(),
        b"icuamend",
        program_words::word(words, program_amend::new_place(arguments)),
        program_outcome::front(printed, lengths.prints),
        program_outcome::front(written, lengths.writes),
        lengths.says == 0,
    );
}

fn run(rt: &HostRuntime, words: &[u8]) {
    let mut area = [0u8; AREA_BYTES];
    let mut printed = [0u8; program_amend::PRINTED_BYTES];
    let mut written = [0u8; program_amend::WRITTEN_BYTES];
    let mut said = [0u8; program_amend::SAID_BYTES];
    let worksheet = program_wish::worksheet_of(words);
    let rest = program_wish::words_for(worksheet, words);
    let arguments = program_wish::arguments_for(worksheet, program_io::count_arguments(rt));
    let input = read(rt, arguments, rest, &mut area);
    let call = Call {
        worksheet,
        arguments,
        input,
    };
    let lengths = program_amend::run(call, rest, &area, &mut printed, &mut written, &mut said);
    say(&rt.stderr(), &said, lengths.says);
    give(rt, arguments, rest, &printed, &written, lengths);
}

fn main(rt: HostRuntime) {
    let mut words = [0u8; WORDS_BYTES];
    run(&rt, program_io::take_words(&rt, &mut words));
}
