// What `icuamend` prints, writes and says: one call, between reading and writing.
#![tactic(auto)]

ghost use Rattle.std.specs.Prelude.{◌≡◌, true, false, cond, ◌&&◌, [], ◌+◌, ◌≤◌, length};
ghost use Rattle.answers.specs.Answers.{left_by};
ghost use Rattle.answers.specs.declared.Answer.TheVariants.{Accepted};
ghost use Rattle.layout.specs.Sheet.{sheet_count};
ghost use Rattle.entries.specs.Judging.{judged_for};
ghost use Rattle.procedure.specs.Sheet.{sheet_for};
ghost use Rattle.page.specs.Worksheet.{change_text};
ghost use Rattle.study.specs.Study.{icut, is_old, format_of, site_answer};
ghost use Rattle.study_changed.specs.Changed.{with_entries};
ghost use Rattle.text.specs.Text.{Placed};
ghost use Rattle.program_outcome.specs.declared.Remark.TheVariants.{Unread as NotRead};
ghost use Rattle.program_outcome.specs.Outcome.{named, remarked, Left};
ghost use Rattle.program_site.specs.Working.{sought_text};
ghost use Rattle.program_amend.specs.Run.{past_site, changes_in, is_kept, amend_takes, new_place, amend_use, sheet_before};
ghost use Rattle.program_amend.specs.Run.{old_text, amend_file, amend_study, amend_work, amend_run};
ghost use Rattle.program_amend.specs.Working.{use_most};

use answers::Answer;
use layout::{CELLS, ENTRIES, POINT_CELLS, Worksheet};
use program_changes::{CHANGE_WORDS, CHANGES_FROM, MOST_CHANGES};
use program_outcome::{AREA_BYTES, Call, Lengths, Remark};
use program_site::NoSite;
use program_wish::Wish;

// Room for what is printed, for what is written and for what is said; how much is used stands beside it, since there is no heap.
pub const PRINTED_BYTES: usize = page::CHANGE_BYTES;

pub const WRITTEN_BYTES: usize = study::MOST_BYTES;

pub const SAID_BYTES: usize = program_changes::SAID_BYTES;

// The most words: a study and a site, the changes, and the file to write.
pub const MOST_WORDS: usize = CHANGES_FROM + CHANGE_WORDS * MOST_CHANGES + 1;

// The first arguments, among the words.
const NAME: usize = 0;

const SITE: usize = 1;

// What changes came to: the sheet's kind, the site, whether the study is to be kept, whether a change was made, and how many bytes are
// said.
#[derive(Clone, Copy)]
pub struct Given {
    pub worksheet: Worksheet,
    pub site: u32,
    pub kept: bool,
    pub made: bool,
    pub says: usize,
}

// How many arguments stand past the site.
fn past_site(count: usize) -> usize
    ensures { result ≡ past_site count }
{
    count.saturating_sub(CHANGES_FROM + 1)
}

// How many changes so many arguments ask for.
fn changes_in(count: usize) -> usize
    ensures { result ≡ changes_in count }
{
    past_site(count) / CHANGE_WORDS
}

// Whether the last of them names the file to write.
fn is_kept(count: usize) -> bool
    ensures { result ≡ is_kept count }
{
    past_site(count) % CHANGE_WORDS == 1
}

// Whether so many arguments are right: then the first names a file to be read.
pub fn takes(count: usize) -> bool
    ensures { result ≡ amend_takes count }
{
    let past = past_site(count);
    let changes = past / CHANGE_WORDS;
    0 < changes && changes <= MOST_CHANGES && past % CHANGE_WORDS <= 1
}

// The place of the last word, which names the file to write.
pub fn new_place(count: usize) -> usize
    ensures { result ≡ new_place count }
{
    count.saturating_sub(CHANGES_FROM)
}

// Lists what changed since a sheet that was filled, or not.
pub fn list_changes(
    kind: Worksheet,
    filled: Answer,
    before: &[u32],
    after: &[u32],
    printed: &mut [u8; PRINTED_BYTES],
) -> usize
    ensures { Placed printed.old 0
        (change_text kind (left_by filled before.now []) after.now) printed.new result }
{
    match filled {
        Answer::Accepted => page::changes(kind, before, after, printed),
        Answer::Refused(_, _) => page::changes(kind, &before[..0], after, printed),
    }
}

// Prints what acceptable entries change on the sheet of other entries, with as many cells as a sheet of the kind has.
fn print_sheets<const N: usize>(
    kind: Worksheet,
    entries: &[u32; ENTRIES],
    changed: &[u32; ENTRIES],
    printed: &mut [u8; PRINTED_BYTES],
) -> usize
    requires { (N ≡ sheet_count kind) × (judged_for kind changed.now ≡ Accepted) }
    ensures { Placed printed.old 0
        (change_text kind (sheet_before kind entries.now) (sheet_for kind changed.now)) printed.new result }
{
    let mut before = [0u32; N];
    let mut after = [0u32; N];
    let filled = sheet::fill(kind, entries, &mut before);
    sheet::fill(kind, changed, &mut after);
    list_changes(kind, filled, &before, &after, printed)
}

// The same, by the kind.
fn print_changes(
    kind: Worksheet,
    entries: &[u32; ENTRIES],
    changed: &[u32; ENTRIES],
    printed: &mut [u8; PRINTED_BYTES],
) -> usize
    requires { judged_for kind changed.now ≡ Accepted }
    ensures { Placed printed.old 0
        (change_text kind (sheet_before kind entries.now) (sheet_for kind changed.now)) printed.new result }
{
    match kind {
        Worksheet::Junction => print_sheets::<CELLS>(kind, entries, changed, printed),
        Worksheet::Point => print_sheets::<POINT_CELLS>(kind, entries, changed, printed),
    }
}

// Makes the study in which a site has these entries, if it is to be kept.
fn write_site(
    file: &[u8],
    site: u32,
    kept: bool,
    entries: &[u32; ENTRIES],
    written: &mut [u8; WRITTEN_BYTES],
) -> usize
    requires { (site_answer file.now site ≡ Accepted) × (kept ≡ true → format_of file.now ≡ icut) }
    ensures { Placed written.old 0 (cond kept (with_entries file.now site entries.now) []) written.new result }
{
    if kept {
        return study_changed::put(file, site, entries, written);
    }
    0
}

// Gives what changes came to, if one was made.
fn give(
    file: &[u8],
    given: Given,
    entries: &[u32; ENTRIES],
    changed: &[u32; ENTRIES],
    printed: &mut [u8; PRINTED_BYTES],
    written: &mut [u8; WRITTEN_BYTES],
) -> Lengths
    requires { (site_answer file.now given.site ≡ Accepted) × (given.kept ≡ true → format_of file.now ≡ icut)
        × (given.made ≡ true → judged_for given.worksheet changed.now ≡ Accepted) }
    ensures placed { Placed printed.old 0
        (cond given.made (change_text given.worksheet (sheet_before given.worksheet entries.now)
        (sheet_for given.worksheet changed.now)) []) printed.new result.prints }
    ensures placed_2 { Placed written.old 0
        (cond (given.made && given.kept) (with_entries file.now given.site changed.now) []) written.new result.writes }
    ensures says_value { result.says ≡ given.says }
{
    let kind = given.worksheet;
    let says = given.says;
    if !given.made {
        return Lengths::said(says);
    }
    let prints = print_changes(kind, entries, changed, printed);
    let writes = write_site(file, given.site, given.kept, changed, written);
    Lengths {
        prints,
        writes,
        says,
    }
}

// The sentence is made in an area of its own size; a closure that is lent that area would need a longer clause than this function is.
fn say_site(
    sought: Result<u32, NoSite>,
    name: &[u8],
    word: &[u8],
    said: &mut [u8; SAID_BYTES],
) -> usize
    ensures { Placed said.old 0 (sought_text sought name.now word.now) said.new result }
{
    let mut sentence = [0u8; program_outcome::SAID_BYTES];
    let size = program_site::say_site(sought, name, word, &mut sentence);
    program_changes::put_sentence(said, 0, &sentence, size)
}

// The same of a file that cannot be read.
fn say_unread(name: &[u8], said: &mut [u8; SAID_BYTES]) -> usize
    ensures { Placed said.old 0 (remarked name.now NotRead) said.new result }
{
    let mut sentence = [0u8; program_outcome::SAID_BYTES];
    let size = program_outcome::say(name, Remark::Unread, &mut sentence);
    program_changes::put_sentence(said, 0, &sentence, size)
}

// Changes entries of the site that a word names.
fn amend_file(
    call: Call,
    file: &[u8],
    words: &[u8],
    printed: &mut [u8; PRINTED_BYTES],
    written: &mut [u8; WRITTEN_BYTES],
    said: &mut [u8; SAID_BYTES],
) -> Lengths
    requires { (amend_takes call.arguments ≡ true) × (is_kept call.arguments ≡ true → format_of file.now ≡ icut) }
    ensures left { Left (amend_file call.worksheet call.arguments words.now file.now)
        printed.old said.old printed.new said.new result }
    ensures placed { Placed written.old 0
        (amend_file call.worksheet call.arguments words.now file.now).writes written.new result.writes }
{
    let worksheet = call.worksheet;
    let count = call.arguments;
    let name = program_words::word(words, NAME);
    let word = program_words::word(words, SITE);
    let mut entries = [0u32; ENTRIES];
    let sought = program_site::read_site(file, word, &mut entries);
    let Ok(site) = sought else {
        return Lengths::said(say_site(sought, name, word, said));
    };
    let mut changed = entries;
    let changes = changes_in(count);
    let done = program_changes::change_all(worksheet, words, changes, &mut changed, said);
    let given = Given {
        worksheet,
        site,
        kept: is_kept(count),
        made: done.made,
        says: done.says,
    };
    give(file, given, &entries, &changed, printed, written)
}

// Says that a study of before is to be converted first.
#[tactic(auto, unfolding(crate::specs::Run::old_text, text::specs::Text::ascii))]
fn say_old(name: &[u8], said: &mut [u8; SAID_BYTES]) -> usize
    ensures { Placed said.old 0 (named name.now old_text) said.new result }
{
    program_outcome::put_named(
        said,
        name,
        b"a study of before (ICUS), which is not written any more: first icustudy convert it\n",
    )
}

// Changes entries of the site that a word names, unless the changed study is to be kept and the file is one of before, which is not
// written.
fn amend_study(
    call: Call,
    file: &[u8],
    words: &[u8],
    printed: &mut [u8; PRINTED_BYTES],
    written: &mut [u8; WRITTEN_BYTES],
    said: &mut [u8; SAID_BYTES],
) -> Lengths
    requires { amend_takes call.arguments ≡ true }
    ensures left { Left (amend_study call.worksheet call.arguments words.now file.now)
        printed.old said.old printed.new said.new result }
    ensures placed { Placed written.old 0
        (amend_study call.worksheet call.arguments words.now file.now).writes written.new result.writes }
{
    if is_kept(call.arguments) && study::is_old(file) {
        let name = program_words::word(words, NAME);
        return Lengths::said(say_old(name, said));
    }
    amend_file(call, file, words, printed, written, said)
}

// Puts how the program is called to the front.
#[tactic(auto, unfolding(crate::specs::Run::amend_use, text::specs::Text::ascii))]
fn put_use(out: &mut [u8]) -> usize
    requires { use_most ≤ length out.old }
    ensures { Placed out.old 0 amend_use out.new result }
{
    text::put_bytes(
        out,
        0,
        b"usage: icuamend [--point] STUDY SITE NAME ENTRY VALUE [NAME ENTRY VALUE ..] [NEW]\n  \
        prints what changes on the sheet of a site, from 1, as in: icuamend STUDY 1 EBT volume 450\n  \
        --point: on the sheet of a single point interchange\n  \
        NAME: EBL EBT EBR .. SBR with lanes volume ideal-flow lost-time minimum-green lane-factor,\n        \
        EB WB NB SB with shared-lane pedestrians push-button pedestrian-time free-right,\n        \
        junction with cycle; at most 20 changes, one after the other\n  \
        NEW: the file that the changed study is written to\n",
    )
}

// What is given where neither its use nor its version is asked for.
fn work(
    call: Call,
    words: &[u8],
    area: &[u8; AREA_BYTES],
    printed: &mut [u8; PRINTED_BYTES],
    written: &mut [u8; WRITTEN_BYTES],
    said: &mut [u8; SAID_BYTES],
) -> Lengths
    ensures left { Left (amend_work call words.now area.now)
        printed.old said.old printed.new said.new result }
    ensures placed { Placed written.old 0 (amend_work call words.now area.now).writes written.new result.writes }
{
    if !takes(call.arguments) {
        return Lengths::said(put_use(said));
    }
    let Some(size) = call.input else {
        let name = program_words::word(words, NAME);
        return Lengths::said(say_unread(name, said));
    };
    let file = program_outcome::front(area, size);
    amend_study(call, file, words, printed, written, said)
}

// What `icuamend` gives; its study was read into the area.
pub fn run(
    call: Call,
    words: &[u8],
    area: &[u8; AREA_BYTES],
    printed: &mut [u8; PRINTED_BYTES],
    written: &mut [u8; WRITTEN_BYTES],
    said: &mut [u8; SAID_BYTES],
) -> Lengths
    ensures left { Left (amend_run call words.now area.now)
        printed.old said.old printed.new said.new result }
    ensures placed { Placed written.old 0 (amend_run call words.now area.now).writes written.new result.writes }
{
    let wish = program_wish::wish_of(call.arguments, program_words::word(words, NAME));
    match wish {
        Wish::Help => Lengths::printed(put_use(printed)),
        Wish::Version => Lengths::printed(program_wish::put_version(printed)),
        Wish::Work => work(call, words, area, printed, written, said),
    }
}
