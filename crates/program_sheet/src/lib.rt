// What `icusheet` prints and says: a call for what is given once, and one for each page of a study; between reading and writing.
#![tactic(auto)]

ghost use Rattle.std.specs.Prelude.{◌≡◌, ◌≤◌, length};
ghost use Rattle.text.specs.Text.{Placed};
ghost use Rattle.text_reader.specs.Reader.{reading};
ghost use Rattle.program_outcome.specs.Outcome.{Left};
ghost use Rattle.program_sheet.specs.Run.{read_as, sheet_of_text, sheet_of_site, before_all, sheet_of_file};
ghost use Rattle.program_sheet.specs.Run.{sheet_use, sheet_takes, sheet_run, work_run, pages_of, page_in, page_at};
ghost use Rattle.program_sheet.specs.Working.{use_most};

use answers::Answer;
use layout::{ENTRIES, Worksheet};
use program_heading::Spot;
use program_outcome::{AREA_BYTES, Call, Lengths, Remark, SAID_BYTES};
use program_wish::Wish;

// Room for what is printed, a heading and a page; how much of it is used stands beside it, since there is no heap.
pub const PRINTED_BYTES: usize = program_page::PRINTED_BYTES;

// The number of arguments, with a text; with a study and a site.
const OF_TEXT: usize = 2;

const OF_STUDY: usize = 3;

// The arguments, among the words.
const NAME: usize = 0;

const SITE: usize = 1;

fn read_text(
    kind: Worksheet,
    name: &[u8],
    text: &[u8],
    printed: &mut [u8; PRINTED_BYTES],
    said: &mut [u8; SAID_BYTES],
) -> Lengths
    ensures { Left (read_as (reading kind text.now) kind name.now text.now)
        printed.old said.old printed.new said.new result }
{
    let mut entries = [0u32; ENTRIES];
    let reading = text_reader::read(kind, text, &mut entries);
    match reading {
        Ok(()) => program_page::print_text(kind, name, text, &entries, printed, said),
        Err(_) => Lengths::said(program_refusals::say_reading(name, text, reading, said)),
    }
}

fn sheet_of_text(
    kind: Worksheet,
    name: &[u8],
    text: &[u8],
    printed: &mut [u8; PRINTED_BYTES],
    said: &mut [u8; SAID_BYTES],
) -> Lengths
    ensures { Left (sheet_of_text kind name.now text.now)
        printed.old said.old printed.new said.new result }
{
    let answer = study::check(text);
    if let Answer::Accepted = answer {
        return Lengths::said(program_outcome::say(name, Remark::IsStudy, said));
    }
    read_text(kind, name, text, printed, said)
}

fn sheet_of_site(
    kind: Worksheet,
    name: &[u8],
    word: &[u8],
    file: &[u8],
    printed: &mut [u8; PRINTED_BYTES],
    said: &mut [u8; SAID_BYTES],
) -> Lengths
    ensures { Left (sheet_of_site kind name.now word.now file.now)
        printed.old said.old printed.new said.new result }
{
    let mut entries = [0u32; ENTRIES];
    let sought = program_site::read_site(file, word, &mut entries);
    let Ok(site) = sought else {
        return Lengths::said(program_site::say_site(sought, name, word, said));
    };
    let spot = Spot {
        site,
        sites: study::count(file),
        follows: false,
    };
    program_page::print_alone(kind, name, spot, &entries, printed, said)
}

// What is said before the pages of all sites.
fn before_all(
    name: &[u8],
    word: &[u8],
    file: &[u8],
    printed: &mut [u8; PRINTED_BYTES],
    said: &mut [u8; SAID_BYTES],
) -> Lengths
    ensures { Left (before_all name.now word.now file.now)
        printed.old said.old printed.new said.new result }
{
    let mut entries = [0u32; ENTRIES];
    let sought = program_site::read_site(file, b"1", &mut entries);
    Lengths::said(program_site::say_site(sought, name, word, said))
}

// Whether so many arguments are right: then the first names a file to be read.
pub fn takes(count: usize) -> bool
    ensures { result ≡ sheet_takes count }
{
    program_outcome::is_either(count, OF_TEXT, OF_STUDY)
}

#[tactic(auto, unfolding(crate::specs::Run::sheet_use, text::specs::Text::ascii))]
fn put_use(out: &mut [u8]) -> usize
    requires { use_most ≤ length out.old }
    ensures { Placed out.old 0 sheet_use out.new result }
{
    text::put_bytes(
        out,
        0,
        b"usage: icusheet TEXT         prints the worksheet of the junction in a text\n       \
        icusheet STUDY SITE   prints that of a site of a study file, sites from 1\n       \
        icusheet STUDY all    prints those of all its sites, a page each\n       \
        icusheet --point ..   with any of these: prints that of a single point interchange\n       \
        icusheet --help       prints this, and --version the version\n",
    )
}

// By the number of arguments, the file is a text or a study.
#[tactic(auto, unfolding(text::specs::Text::ascii))]
fn sheet_of_file(
    call: Call,
    words: &[u8],
    file: &[u8],
    printed: &mut [u8; PRINTED_BYTES],
    said: &mut [u8; SAID_BYTES],
) -> Lengths
    ensures { Left (sheet_of_file call words.now file.now)
        printed.old said.old printed.new said.new result }
{
    let kind = call.worksheet;
    let name = program_words::word(words, NAME);
    if call.arguments == OF_TEXT {
        return sheet_of_text(kind, name, file, printed, said);
    }
    let word = program_words::word(words, SITE);
    if program_wish::is_same(word, b"all") {
        return before_all(name, word, file, printed, said);
    }
    sheet_of_site(kind, name, word, file, printed, said)
}

fn work(
    call: Call,
    words: &[u8],
    area: &[u8; AREA_BYTES],
    printed: &mut [u8; PRINTED_BYTES],
    said: &mut [u8; SAID_BYTES],
) -> Lengths
    ensures { Left (work_run call words.now area.now)
        printed.old said.old printed.new said.new result }
{
    if !takes(call.arguments) {
        return Lengths::said(put_use(said));
    }
    let Some(size) = call.input else {
        let name = program_words::word(words, NAME);
        return Lengths::said(program_outcome::say(name, Remark::Unread, said));
    };
    let file = program_outcome::front(area, size);
    sheet_of_file(call, words, file, printed, said)
}

// What `icusheet` gives once; its file was read into the area.
pub fn run(
    call: Call,
    words: &[u8],
    area: &[u8; AREA_BYTES],
    printed: &mut [u8; PRINTED_BYTES],
    said: &mut [u8; SAID_BYTES],
) -> Lengths
    ensures { Left (sheet_run call words.now area.now)
        printed.old said.old printed.new said.new result }
{
    match program_wish::wish_of(call.arguments, program_words::word(words, NAME)) {
        Wish::Help => Lengths::printed(put_use(printed)),
        Wish::Version => Lengths::printed(program_wish::put_version(printed)),
        Wish::Work => work(call, words, area, printed, said),
    }
}

// How many pages follow: one for each site, where all are asked for.
#[tactic(auto, unfolding(crate::specs::Run::pages_of, text::specs::Text::ascii))]
pub fn pages(call: Call, words: &[u8], area: &[u8; AREA_BYTES]) -> u32
    ensures { result ≡ pages_of call words.now area.now }
{
    if call.arguments != OF_STUDY {
        return 0;
    }
    let Some(size) = call.input else {
        return 0;
    };
    if program_wish::is_same(program_words::word(words, SITE), b"all") {
        return study::count(program_outcome::front(area, size));
    }
    0
}

fn page_in(
    kind: Worksheet,
    name: &[u8],
    file: &[u8],
    site: u32,
    printed: &mut [u8; PRINTED_BYTES],
    said: &mut [u8; SAID_BYTES],
) -> Lengths
    ensures { Left (page_in kind name.now file.now site)
        printed.old said.old printed.new said.new result }
{
    let sites = study::count(file);
    if sites <= site {
        return Lengths::printed(0);
    }
    let mut entries = [0u32; ENTRIES];
    study::site_entries(file, site, &mut entries);
    let follows = site != 0;
    let spot = Spot {
        site,
        sites,
        follows,
    };
    program_page::print_site(kind, name, spot, &entries, printed, said)
}

// What is printed and said for a site, from 0, among the pages of all.
pub fn page(
    call: Call,
    words: &[u8],
    area: &[u8; AREA_BYTES],
    site: u32,
    printed: &mut [u8; PRINTED_BYTES],
    said: &mut [u8; SAID_BYTES],
) -> Lengths
    ensures { Left (page_at call words.now area.now site)
        printed.old said.old printed.new said.new result }
{
    let Some(size) = call.input else {
        return Lengths::printed(0);
    };
    let kind = call.worksheet;
    let name = program_words::word(words, NAME);
    page_in(
        kind,
        name,
        program_outcome::front(area, size),
        site,
        printed,
        said,
    )
}
