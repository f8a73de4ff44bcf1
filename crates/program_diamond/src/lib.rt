// What `icudiamond` prints and says: one call, between reading and writing.
#![tactic(auto)]

ghost use Rattle.std.specs.Prelude.{◌≡◌, ◌++◌, ◌+◌, ◌≤◌, length, take};
ghost use Rattle.diamond_rules.specs.Record.{judged_record};
ghost use Rattle.diamond_beside.specs.Beside.{page_numbers};
ghost use Rattle.diamond_page.specs.Page.{diamond_text, page_bytes};
ghost use Rattle.text.specs.Text.{Placed};
ghost use Rattle.program_heading.specs.Working.{diamond_most};
ghost use Rattle.program_outcome.specs.Outcome.{Left};
ghost use Rattle.program_outcome.specs.Working.{lengths_of};
ghost use Rattle.program_record.specs.Arguments.{record_of};
ghost use Rattle.program_record.specs.Working.{Made};
ghost use Rattle.program_diamond.specs.Run.{diamond_takes, diamond_use, refusal_says, refused_says, diamond_says};
ghost use Rattle.program_diamond.specs.Run.{title_in, heading_of, diamond_of, work_run, diamond_run};
ghost use Rattle.program_diamond.specs.Working.{use_most};

use answers::{Answer, Refusal};
use diamond_page::PAGE_BYTES;
use layout::{DIAMOND_PAGE, RECORD};
use program_heading::DIAMOND_BYTES;
use program_outcome::{AREA_BYTES, Input, Lengths, SAID_BYTES};
use program_record::{EAST, Files, WEST};
use program_wish::Wish;

// Room for what is printed: a heading and a page.
pub const PRINTED_BYTES: usize = DIAMOND_BYTES + PAGE_BYTES;

// The number of arguments, the program's name among them.
const ARGUMENTS: usize = 1 + program_record::WORDS;

// How the program was called: how many arguments it has, and what reading its files came to.
#[derive(Clone, Copy)]
pub struct DiamondCall {
    pub arguments: usize,
    pub files: Files,
}

// Whether so many arguments are right: then the first two name files to be read.
pub fn takes(count: usize) -> bool
    ensures { result ≡ diamond_takes count }
{
    count == ARGUMENTS
}

// Puts how the program is called to the front.
fn put_use(out: &mut [u8]) -> usize
    requires { use_most ≤ length out.old }
    ensures { Placed out.old 0 diamond_use out.new result }
{
    text::put_bytes(
        out,
        0,
        b"usage: icudiamond WEST EAST WBL EBL EASTBOUND WESTBOUND TRAVEL\n                             \
        prints the worksheet of a diamond interchange: the texts of its west and its east\n                             \
        junction; the vehicles that find room for WB left, for EB left and on the road\n                             \
        between, eastbound and westbound; and the time from one to the other, as 7.1s\n       \
        icudiamond --help     prints this, and --version the version\n",
    )
}

// Says why the record is refused, of the argument that is wrong.
fn say_refusal(words: &[u8], why: Refusal, place: u32, said: &mut [u8; SAID_BYTES]) -> usize
    ensures { Placed said.old 0 (refusal_says why place words.now) said.new result }
{
    if place < layout::STORAGES_FROM as u32 {
        return program_outcome::put_named(
            said,
            program_words::word(words, EAST),
            b"R3: the cycle is not that of the west junction\n",
        );
    }
    let word = program_record::own_word(words, place - layout::STORAGES_FROM as u32);
    program_refusals::say_answer_of(word, Answer::Refused(why, place), said)
}

// Fills the page's numbers from the record, or says why it is refused.
fn judge(
    words: &[u8],
    numbers: &[u32; RECORD],
    all: &mut [u32; DIAMOND_PAGE],
    said: &mut [u8; SAID_BYTES],
) -> Result<(), usize>
    ensures { Made (refused_says (judged_record numbers.now) words.now) said.old said.new
        (page_numbers numbers.now) all.new result }
{
    let answer = diamond_beside::fill(numbers, all);
    match answer {
        Answer::Accepted => Ok(()),
        Answer::Refused(why, place) => Err(say_refusal(words, why, place, said)),
    }
}

// The same from the arguments.
fn collect(
    files: Files,
    words: &[u8],
    west: &[u8; AREA_BYTES],
    east: &[u8; AREA_BYTES],
    all: &mut [u32; DIAMOND_PAGE],
    said: &mut [u8; SAID_BYTES],
) -> Result<(), usize>
    ensures { Made (diamond_says files words.now west.now east.now) said.old said.new
        (page_numbers (record_of files words.now west.now east.now)) all.new result }
{
    let mut numbers = [0u32; RECORD];
    program_record::gather(files, words, west, east, &mut numbers, said)?;
    judge(words, &numbers, all, said)
}

fn title_in(input: Input, area: &[u8; AREA_BYTES]) -> &[u8]
    ensures { result.now ≡ title_in input area.now }
{
    text_titles::title_in(text_scan::unmarked(program_record::bytes_of(input, area)))
}

// Whose worksheet it is.
fn put_heading(
    files: Files,
    words: &[u8],
    west: &[u8; AREA_BYTES],
    east: &[u8; AREA_BYTES],
    heading: &mut [u8; DIAMOND_BYTES],
) -> usize
    ensures { Placed heading.old 0 (heading_of files words.now west.now east.now) heading.new result
        × (result ≤ diamond_most) }
{
    program_heading::head_diamond(
        program_words::word(words, WEST),
        title_in(files.west, west),
        program_words::word(words, EAST),
        title_in(files.east, east),
        heading,
    )
}

fn put_under(heading: &[u8], page: &[u8; PAGE_BYTES], printed: &mut [u8; PRINTED_BYTES]) -> usize
    requires { length heading.now ≤ diamond_most }
    ensures { Placed printed.old 0 (heading.now ++ page.now) printed.new result }
{
    let at = text::put_bytes(printed, 0, heading);
    text::put_bytes(printed, at, page)
}

fn put_page(
    heading: &[u8; DIAMOND_BYTES],
    size: usize,
    all: &[u32; DIAMOND_PAGE],
    printed: &mut [u8; PRINTED_BYTES],
) -> usize
    requires { size ≤ diamond_most }
    ensures { Placed printed.old 0 (take size heading.now ++ diamond_text all.now) printed.new result }
{
    let mut page = [0u8; PAGE_BYTES];
    diamond_page::print(all, &mut page);
    put_under(program_outcome::front(heading, size), &page, printed)
}

// Prints the page of these numbers under its heading.
fn print(
    files: Files,
    words: &[u8],
    west: &[u8; AREA_BYTES],
    east: &[u8; AREA_BYTES],
    all: &[u32; DIAMOND_PAGE],
    printed: &mut [u8; PRINTED_BYTES],
) -> usize
    ensures { Placed printed.old 0
        (heading_of files words.now west.now east.now ++ diamond_text all.now) printed.new result }
{
    let mut heading = [0u8; DIAMOND_BYTES];
    let size = put_heading(files, words, west, east, &mut heading);
    put_page(&heading, size, all, printed)
}

// Prints the worksheet that the arguments ask for, or says what is wrong with them.
fn give(
    files: Files,
    words: &[u8],
    west: &[u8; AREA_BYTES],
    east: &[u8; AREA_BYTES],
    printed: &mut [u8; PRINTED_BYTES],
    said: &mut [u8; SAID_BYTES],
) -> Result<Lengths, usize>
    ensures { Left (diamond_of files words.now west.now east.now)
        printed.old said.old printed.new said.new (lengths_of result) }
{
    let mut all = [0u32; DIAMOND_PAGE];
    collect(files, words, west, east, &mut all, said)?;
    let prints = print(files, words, west, east, &all, printed);
    Ok(Lengths::printed(prints))
}

fn work(
    call: DiamondCall,
    words: &[u8],
    west: &[u8; AREA_BYTES],
    east: &[u8; AREA_BYTES],
    printed: &mut [u8; PRINTED_BYTES],
    said: &mut [u8; SAID_BYTES],
) -> Lengths
    ensures { Left (work_run call words.now west.now east.now)
        printed.old said.old printed.new said.new result }
{
    if !takes(call.arguments) {
        return Lengths::said(put_use(said));
    }
    Lengths::of(give(call.files, words, west, east, printed, said))
}

// What `icudiamond` gives; the texts were read into the areas west and east.
pub fn run(
    call: DiamondCall,
    words: &[u8],
    west: &[u8; AREA_BYTES],
    east: &[u8; AREA_BYTES],
    printed: &mut [u8; PRINTED_BYTES],
    said: &mut [u8; SAID_BYTES],
) -> Lengths
    ensures { Left (diamond_run call words.now west.now east.now)
        printed.old said.old printed.new said.new result }
{
    match program_wish::wish_of(call.arguments, program_words::word(words, WEST)) {
        Wish::Help => Lengths::printed(put_use(printed)),
        Wish::Version => Lengths::printed(program_wish::put_version(printed)),
        Wish::Work => work(call, words, west, east, printed, said),
    }
}
