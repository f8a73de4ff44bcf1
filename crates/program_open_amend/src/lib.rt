// What `icuoffice STUDY OFFICE amend SITE NAME ENTRY VALUE` prints, writes and says: one call, between reading and writing.
#![tactic(auto)]

ghost use Rattle.std.specs.Prelude.{◌≡◌, []};
ghost use Rattle.answers.specs.Answers.{left_by};
ghost use Rattle.layout.specs.declared.Worksheet.TheVariants.{Junction};
ghost use Rattle.page.specs.Worksheet.{change_text};
ghost use Rattle.text.specs.Text.{Placed};
ghost use Rattle.program_outcome.specs.Outcome.{Left};
ghost use Rattle.program_outcome.specs.Working.{lengths_of};
ghost use Rattle.program_open.specs.Working.{held};
ghost use Rattle.program_open_amend.specs.Run.{change_in, amend_site, amend_by, open_amend_run};
ghost use Rattle.program_open_amend.specs.Working.{listing};

use answers::Answer;
use layout::{CELLS, Worksheet};
use open_file::OPEN_BYTES;
use program_changes::{Change, ChangeWords};
use program_open::{ENTRY, NAME, OpenStudy, SITE, VALUE};
use program_outcome::{AREA_BYTES, Lengths, SAID_BYTES};
use program_target::Found;

// Room for what is printed.
pub const PRINTED_BYTES: usize = program_amend::PRINTED_BYTES;

// Lists what changed since a junction's sheet that was filled, or not.
fn list_changes(
    filled: Answer,
    before: &[u32; CELLS],
    after: &[u32; CELLS],
    printed: &mut [u8; PRINTED_BYTES],
) -> usize
    ensures { Placed printed.old 0
        (change_text Junction (left_by filled before.now []) after.now) printed.new result }
{
    program_amend::list_changes(Worksheet::Junction, filled, before, after, printed)
}

// Prints what differs between the sheets of a site in two studies.
fn print_changes(
    words: &[u8],
    before: &OpenStudy,
    after: &OpenStudy,
    printed: &mut [u8; PRINTED_BYTES],
) -> usize
    ensures { Placed printed.old 0 (listing (held before.now) (held after.now) words.now) printed.new result }
{
    let mut old = [0u32; CELLS];
    let mut new = [0u32; CELLS];
    let filled = program_open::read_site(words, before, &mut old);
    program_open::read_site(words, after, &mut new);
    list_changes(filled, &old, &new, printed)
}

// Changes an entry of the office's site in its block.
fn amend_site(
    words: &[u8],
    study: &OpenStudy,
    to: Change,
    printed: &mut [u8; PRINTED_BYTES],
    written: &mut [u8; OPEN_BYTES],
    said: &mut [u8; SAID_BYTES],
) -> Result<Lengths, usize>
    ensures left { Left (amend_site words.now (held study.now) to.entry to.value)
        printed.old said.old printed.new said.new (lengths_of result) }
    ensures placed { Placed written.old 0 (amend_site words.now (held study.now) to.entry to.value).writes
        written.new (lengths_of result).writes }
{
    let mut amended = *study;
    let office = program_open::office_in(words);
    let site = program_open::site_in(words);
    let answer = open_study::amend(
        &study.owners,
        &mut amended.blocks,
        office,
        site,
        to.entry,
        to.value,
    );
    let Answer::Accepted = answer else {
        let word = program_words::word(words, SITE);
        return Err(program_refusals::say_answer_of(word, answer, said));
    };
    let prints = print_changes(words, study, &amended, printed);
    let writes = program_open::write_study(&amended, written);
    Ok(Lengths {
        prints,
        writes,
        says: 0,
    })
}

// Makes the change that the words ask for, or says which of them is wrong.
fn amend_words(
    words: &[u8],
    study: &OpenStudy,
    printed: &mut [u8; PRINTED_BYTES],
    written: &mut [u8; OPEN_BYTES],
    said: &mut [u8; SAID_BYTES],
) -> Result<Lengths, usize>
    ensures left { Left (amend_by (change_in words.now) words.now (held study.now))
        printed.old said.old printed.new said.new (lengths_of result) }
    ensures placed { Placed written.old 0 (amend_by (change_in words.now) words.now (held study.now)).writes
        written.new (lengths_of result).writes }
{
    let change = ChangeWords {
        title: program_words::word(words, NAME),
        kind: program_words::word(words, ENTRY),
        value: program_words::word(words, VALUE),
    };
    match change.asked() {
        Ok(to) => amend_site(words, study, to, printed, written, said),
        Err(wrong) => Err(change.say_wrong(wrong, said)),
    }
}

// Amends the study, or stops where something is said.
fn amend(
    found: Found,
    words: &[u8],
    area: &[u8; AREA_BYTES],
    printed: &mut [u8; PRINTED_BYTES],
    written: &mut [u8; OPEN_BYTES],
    said: &mut [u8; SAID_BYTES],
) -> Result<Lengths, usize>
    ensures left { Left (open_amend_run found words.now area.now)
        printed.old said.old printed.new said.new (lengths_of result) }
    ensures placed { Placed written.old 0 (open_amend_run found words.now area.now).writes
        written.new (lengths_of result).writes }
{
    let source = program_open::source_found(found);
    let study = program_open::study_in(source, words, area, said)?;
    amend_words(words, &study, printed, written, said)
}

// What the call gives; its study was read into the area.
pub fn run(
    found: Found,
    words: &[u8],
    area: &[u8; AREA_BYTES],
    printed: &mut [u8; PRINTED_BYTES],
    written: &mut [u8; OPEN_BYTES],
    said: &mut [u8; SAID_BYTES],
) -> Lengths
    ensures left { Left (open_amend_run found words.now area.now)
        printed.old said.old printed.new said.new result }
    ensures placed { Placed written.old 0 (open_amend_run found words.now area.now).writes
        written.new result.writes }
{
    Lengths::of(amend(found, words, area, printed, written, said))
}
