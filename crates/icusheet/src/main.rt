// Prints the worksheet of a junction or of a single point: of its text, of a site of a study file, or of all its sites. What is
// printed and said is the calls' to promise; the rest is input and output.
#![tactic(auto)]

use program_outcome::{AREA_BYTES, Call, Input, Lengths, SAID_BYTES};
use program_sheet::PRINTED_BYTES;

// Room for the word that asks for a worksheet, a file's name and a site.
const WORDS_BYTES: usize = 3 * program_io::WORD_ROOM;

// Reads the file that the first word names, if there are as many arguments as there should be.
fn read(rt: &HostRuntime, count: usize, words: &[u8], area: &mut [u8; AREA_BYTES]) -> Input {
    if program_sheet::takes(count) {
        return program_io::read_named(rt, program_words::word(words, 0), area);
    }
    None
}

// Prints and says, and answers whether all was printed; each area has its own size, so that none stands for another.
fn put_out(
    rt: &HostRuntime,
    lengths: Lengths,
    printed: &[u8; PRINTED_BYTES],
    said: &[u8; SAID_BYTES],
) -> bool {
    program_io::put_out(rt, &rt.stderr(), b"icusheet", lengths, printed, said)
}

fn run_once(rt: &HostRuntime, call: Call, words: &[u8], area: &[u8; AREA_BYTES]) {
    let mut printed = [0u8; PRINTED_BYTES];
    let mut said = [0u8; SAID_BYTES];
    let lengths = program_sheet::run(call, words, area, &mut printed, &mut said);
    put_out(rt, lengths, &printed, &said);
}

fn put_page(
    rt: &HostRuntime,
    call: Call,
    words: &[u8],
    area: &[u8; AREA_BYTES],
    site: u32,
) -> bool {
    let mut printed = [0u8; PRINTED_BYTES];
    let mut said = [0u8; SAID_BYTES];
    let lengths = program_sheet::page(call, words, area, site, &mut printed, &mut said);
    put_out(rt, lengths, &printed, &said)
}

// Page after page, where the sheets of all sites are asked for, until one cannot be printed.
fn put_pages(rt: &HostRuntime, call: Call, words: &[u8], area: &[u8; AREA_BYTES]) {
    let pages = program_sheet::pages(call, words, area);
    for site in 0..pages {
        if !put_page(rt, call, words, area, site) {
            return;
        }
    }
}

fn run(rt: &HostRuntime, words: &[u8]) {
    let mut area = [0u8; AREA_BYTES];
    let worksheet = program_wish::worksheet_of(words);
    let rest = program_wish::words_for(worksheet, words);
    let arguments = program_wish::arguments_for(worksheet, program_io::count_arguments(rt));
    let input = read(rt, arguments, rest, &mut area);
    let call = Call {
        worksheet,
        arguments,
        input,
    };
    run_once(rt, call, rest, &area);
    put_pages(rt, call, rest, &area);
}

fn main(rt: HostRuntime) {
    let mut words = [0u8; WORDS_BYTES];
    run(&rt, program_io::take_words(&rt, &mut words));
}
