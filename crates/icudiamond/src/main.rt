// Prints the worksheet of a diamond interchange, whose junctions stand in two texts. What is printed and said is the one call's to
// promise; the rest is input and output.
#![tactic(auto)]

use program_diamond::{DiamondCall, PRINTED_BYTES};
use program_outcome::{AREA_BYTES, Input, Lengths, SAID_BYTES};
use program_record::{EAST, Files, WEST};

// Room for the texts' names and the numbers.
const WORDS_BYTES: usize = program_record::WORDS * program_io::WORD_ROOM;

// Reads the file that a word names, if there are as many arguments as there should be.
fn read(
    rt: &HostRuntime,
    count: usize,
    words: &[u8],
    place: usize,
    area: &mut [u8; AREA_BYTES],
) -> Input {
    if program_diamond::takes(count) {
        return program_io::read_named(rt, program_words::word(words, place), area);
    }
    None
}

// Prints and says; each area has its own size, so that none stands for another.
fn put_out(
    rt: &HostRuntime,
    lengths: Lengths,
    printed: &[u8; PRINTED_BYTES],
    said: &[u8; SAID_BYTES],
) {
    program_io::put_out(rt, &rt.stderr(), b"icudiamond", lengths, printed, said);
}

fn give(
    rt: &HostRuntime,
    call: DiamondCall,
    words: &[u8],
    west: &[u8; AREA_BYTES],
    east: &[u8; AREA_BYTES],
) {
    let mut printed = [0u8; PRINTED_BYTES];
    let mut said = [0u8; SAID_BYTES];
    let lengths = program_diamond::run(call, words, west, east, &mut printed, &mut said);
    put_out(rt, lengths, &printed, &said);
}

fn run(rt: &HostRuntime, words: &[u8]) {
    let mut first = [0u8; AREA_BYTES];
    let mut second = [0u8; AREA_BYTES];
    let arguments = program_io::count_arguments(rt);
    let west = read(rt, arguments, words, WEST, &mut first);
    let east = read(rt, arguments, words, EAST, &mut second);
    let files = Files { west, east };
    give(rt, DiamondCall { arguments, files }, words, &first, &second);
}

fn main(rt: HostRuntime) {
    let mut words = [0u8; WORDS_BYTES];
    run(&rt, program_io::take_words(&rt, &mut words));
}
