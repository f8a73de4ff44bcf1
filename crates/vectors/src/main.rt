// Fills each junction of standard input, a block of a study file each, and prints the cells that were worked out.
#![tactic(auto)]

use answers::Answer;
use layout::Worksheet;

const STDIN: i32 = 0;

const STDOUT: i32 = 1;

// Where the rows begin that follow another of the same kind.
const WB_FROM: usize = layout::LINES_FROM + layout::LINES;

const NB_FROM: usize = WB_FROM + layout::LINES;

const SB_FROM: usize = NB_FROM + layout::LINES;

const NB_SB_FROM: usize = layout::PAIRS_FROM + layout::PAIR_CELLS;

fn print_number(x: u32) {
    io::print_decimal(STDOUT, u64::from(x));
}

fn end_line() {
    io::write_all(STDOUT, b"\n");
}

// A number, past a space where it is not the first of its row.
fn print_cell(i: usize, x: u32) {
    if 0 < i {
        io::write_all(STDOUT, b" ");
    }
    print_number(x);
}

fn print_row(row: &[u32]) {
    for (i, x) in row.iter().enumerate() {
        print_cell(i, *x);
    }
    end_line();
}

// A row for each approach, for each pair, and for the last cells.
fn print_sheet(cells: [u32; layout::CELLS]) {
    print_row(&cells[layout::LINES_FROM..WB_FROM]);
    print_row(&cells[WB_FROM..NB_FROM]);
    print_row(&cells[NB_FROM..SB_FROM]);
    print_row(&cells[SB_FROM..layout::PAIRS_FROM]);
    print_row(&cells[layout::PAIRS_FROM..NB_SB_FROM]);
    print_row(&cells[NB_SB_FROM..layout::LAST_FROM]);
    print_row(&cells[layout::LAST_FROM..layout::CELLS]);
}

fn print_refusal(number: u32, place: u32) {
    io::write_all(STDOUT, b"R");
    print_number(number);
    io::write_all(STDOUT, b" ");
    print_number(place);
    end_line();
}

fn print_title(number: usize) {
    io::write_all(STDOUT, b"junction ");
    io::print_decimal(STDOUT, number as u64);
    end_line();
}

fn print_junction(block: &[u8]) {
    let mut entries = [0u32; layout::ENTRIES];
    study::entries_of(block, &mut entries);
    let mut cells = [0u32; layout::CELLS];
    match sheet::fill(Worksheet::Junction, &entries, &mut cells) {
        Answer::Accepted => print_sheet(cells),
        Answer::Refused(why, place) => print_refusal(why.number(), place),
    }
}

fn print_all(file: &[u8]) {
    for (i, block) in file.chunks_exact(study::BLOCK_BYTES).enumerate() {
        print_title(i + 1);
        print_junction(block);
    }
}

fn main() {
    let mut buffer = io::large_buffer();
    let n = io::read_full(STDIN, &mut buffer);
    print_all(&buffer[..n]);
}
