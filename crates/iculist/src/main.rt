// Lists a study file, on standard input or named, to standard output. What is printed and said is the one call's to promise; the
// rest is input and output.
#![tactic(auto)]

use layout::Worksheet;
use program_list::PRINTED_BYTES;
use program_outcome::{AREA_BYTES, Call, Input, Lengths, SAID_BYTES};

// Room for a file's name.
const WORDS_BYTES: usize = program_io::WORD_ROOM;

// Reads the file that the first word names, or standard input, if there are as many arguments as there should be.
fn read(rt: &HostRuntime, count: usize, words: &[u8], area: &mut [u8; AREA_BYTES]) -> Input {
    if !program_list::takes(count) {
        return None;
    }
    if program_list::is_named(count) {
        return program_io::read_named(rt, program_words::word(words, 0), area);
    }
    program_io::read_open(&mut rt.stdin(), area)
}

// Prints and says; each area has its own size, so that none stands for another.
fn put_out(
    rt: &HostRuntime,
    lengths: Lengths,
    printed: &[u8; PRINTED_BYTES],
    said: &[u8; SAID_BYTES],
) {
    program_io::put_out(rt, &rt.stderr(), b"iculist", lengths, printed, said);
}

fn run(rt: &HostRuntime, words: &[u8]) {
    let mut area = [0u8; AREA_BYTES];
    let mut printed = [0u8; PRINTED_BYTES];
    let mut said = [0u8; SAID_BYTES];
    let arguments = program_io::count_arguments(rt);
    let input = read(rt, arguments, words, &mut area);
    let call = Call {
        worksheet: Worksheet::Junction,
        arguments,
        input,
    };
    let lengths = program_list::run(call, words, &area, &mut printed, &mut said);
    put_out(rt, lengths, &printed, &said);
}

fn main(rt: HostRuntime) {
    let mut words = [0u8; WORDS_BYTES];
    run(&rt, program_io::take_words(&rt, &mut words));
}
