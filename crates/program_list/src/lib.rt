// What `iculist` prints and says: one call, between reading and writing.
#![tactic(auto)]

ghost use Rattle.std.specs.Prelude.{◌≡◌, ◌≤◌, length};
ghost use Rattle.text.specs.Text.{Placed};
ghost use Rattle.study_listing.specs.Listing.{listing};
ghost use Rattle.program_outcome.specs.Outcome.{Left};
ghost use Rattle.program_list.specs.Run.{list_use, list_takes, list_named, unread, list_read, list_run};
ghost use Rattle.program_list.specs.Working.{use_most};

use program_outcome::{AREA_BYTES, Call, Lengths, Remark, SAID_BYTES};
use program_wish::Wish;

// Room for what is printed; how much of it is used stands beside it, since there is no heap.
pub const PRINTED_BYTES: usize = study_listing::AREA_BYTES;

// The number of arguments, with a study on standard input; with a study's name.
const OF_INPUT: usize = 1;

const OF_STUDY: usize = 2;

// The argument, among the words.
const NAME: usize = 0;

// Whether so many arguments are right: then a study file is to be read.
pub fn takes(count: usize) -> bool
    ensures { result ≡ list_takes count }
{
    program_outcome::is_either(count, OF_INPUT, OF_STUDY)
}

// Whether the first word names it.
pub fn is_named(count: usize) -> bool
    ensures { result ≡ list_named count }
{
    count == OF_STUDY
}

// The listing always fits.
fn print_listing(file: &[u8], printed: &mut [u8; PRINTED_BYTES]) -> usize
    ensures { Placed printed.old 0 (listing file.now) printed.new result }
{
    let mut written: u32 = 0;
    study_listing::list(file, printed, &mut written);
    written as usize
}

#[tactic(auto, unfolding(crate::specs::Run::list_use, text::specs::Text::ascii))]
fn put_use(out: &mut [u8]) -> usize
    requires { use_most ≤ length out.old }
    ensures { Placed out.old 0 list_use out.new result }
{
    text::put_bytes(
        out,
        0,
        b"usage: iculist         lists the study file on standard input\n       \
        iculist STUDY   lists a study file, a line for each site\n",
    )
}

#[tactic(auto, unfolding(crate::specs::Run::unread, crate::specs::Run::list_name, text::specs::Text::ascii))]
fn say_unread(count: usize, words: &[u8], said: &mut [u8; SAID_BYTES]) -> usize
    ensures { Placed said.old 0 (unread count words.now) said.new result }
{
    if is_named(count) {
        return program_outcome::say(program_words::word(words, NAME), Remark::Unread, said);
    }
    program_outcome::say(b"iculist", Remark::NoInput, said)
}

// The listing of the bytes that were read. Those that do not fit in the area are not needed: its own decide any file.
fn list_read(
    call: Call,
    words: &[u8],
    area: &[u8; AREA_BYTES],
    printed: &mut [u8; PRINTED_BYTES],
    said: &mut [u8; SAID_BYTES],
) -> Lengths
    ensures { Left (list_read call.arguments call.input words.now area.now)
        printed.old said.old printed.new said.new result }
{
    let Some(size) = call.input else {
        return Lengths::said(say_unread(call.arguments, words, said));
    };
    let prints = print_listing(program_outcome::front(area, size), printed);
    Lengths::printed(prints)
}

// What `iculist` gives; its study was read into the area.
pub fn run(
    call: Call,
    words: &[u8],
    area: &[u8; AREA_BYTES],
    printed: &mut [u8; PRINTED_BYTES],
    said: &mut [u8; SAID_BYTES],
) -> Lengths
    ensures { Left (list_run call words.now area.now)
        printed.old said.old printed.new said.new result }
{
    match program_wish::wish_of(call.arguments, program_words::word(words, NAME)) {
        Wish::Help => Lengths::printed(put_use(printed)),
        Wish::Version => Lengths::printed(program_wish::put_version(printed)),
        Wish::Work => {
            if takes(call.arguments) {
                return list_read(call, words, area, printed, said);
            }
            Lengths::said(put_use(said))
        }
    }
}
