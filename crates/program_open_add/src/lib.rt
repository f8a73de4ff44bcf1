// What `icuoffice STUDY OFFICE add TEXT` prints, writes and says: one call, between reading and writing.
#![tactic(auto)]

ghost use Rattle.std.specs.Prelude.{◌<◌};
ghost use Rattle.layout.specs.Open.{place_count};
ghost use Rattle.text.specs.Text.{Placed};
ghost use Rattle.program_outcome.specs.Outcome.{Left};
ghost use Rattle.program_outcome.specs.Working.{lengths_of};
ghost use Rattle.program_open.specs.Working.{held};
ghost use Rattle.program_open_add.specs.Run.{place_text, add_site, open_add_run};

use answers::Answer;
use layout::ENTRIES;
use open_file::OPEN_BYTES;
use program_open::{OpenStudy, STUDY, TEXT};
use program_outcome::{AREA_BYTES, Input, Lengths, SAID_BYTES};
use program_target::Found;

// Room for what is printed: "site ", a number and a line's end.
pub const PRINTED_BYTES: usize = 16;

// What was found where the study is to be written again, and what reading the text came to.
#[derive(Clone, Copy)]
pub struct Files {
    pub study: Found,
    pub text: Input,
}

// Tells which place a site was given, from 1.
fn put_place(place: u32, printed: &mut [u8; PRINTED_BYTES]) -> usize
    requires { place < place_count }
    ensures { Placed printed.old 0 (place_text place) printed.new result }
{
    let end = text_phrases::put_numbered(printed, 0, b"site ", place + 1);
    text::put_byte(printed, end, b'\n')
}

// Adds entries to the study as a site of the office's.
fn add_site(
    words: &[u8],
    entries: &[u32; ENTRIES],
    study: &OpenStudy,
    printed: &mut [u8; PRINTED_BYTES],
    written: &mut [u8; OPEN_BYTES],
    said: &mut [u8; SAID_BYTES],
) -> Result<Lengths, usize>
    ensures left { Left (add_site words.now entries.now (held study.now))
        printed.old said.old printed.new said.new (lengths_of result) }
    ensures placed { Placed written.old 0 (add_site words.now entries.now (held study.now)).writes
        written.new (lengths_of result).writes }
{
    let mut added = *study;
    let mut place: u32 = 0;
    let answer = open_study::add(
        &mut added.owners,
        &mut added.blocks,
        program_open::office_in(words),
        entries,
        &mut place,
    );
    let Answer::Accepted = answer else {
        let name = program_words::word(words, STUDY);
        return Err(program_refusals::say_answer_of(name, answer, said));
    };
    let prints = put_place(place, printed);
    let writes = program_open::write_study(&added, written);
    Ok(Lengths {
        prints,
        writes,
        says: 0,
    })
}

// Adds the text's junction to the study, or stops where something is said.
fn add(
    files: Files,
    words: &[u8],
    area: &[u8; AREA_BYTES],
    text: &[u8; AREA_BYTES],
    printed: &mut [u8; PRINTED_BYTES],
    written: &mut [u8; OPEN_BYTES],
    said: &mut [u8; SAID_BYTES],
) -> Result<Lengths, usize>
    ensures left { Left (open_add_run files words.now area.now text.now)
        printed.old said.old printed.new said.new (lengths_of result) }
    ensures placed { Placed written.old 0 (open_add_run files words.now area.now text.now).writes
        written.new (lengths_of result).writes }
{
    let source = program_open::source_found(files.study);
    let study = program_open::study_in(source, words, area, said)?;
    let name = program_words::word(words, TEXT);
    let mut entries = [0u32; ENTRIES];
    program_record::take_file(name, files.text, text, &mut entries, said)?;
    add_site(words, &entries, &study, printed, written, said)
}

// What the call gives; its study was read into the area, and its text beside it.
pub fn run(
    files: Files,
    words: &[u8],
    area: &[u8; AREA_BYTES],
    text: &[u8; AREA_BYTES],
    printed: &mut [u8; PRINTED_BYTES],
    written: &mut [u8; OPEN_BYTES],
    said: &mut [u8; SAID_BYTES],
) -> Lengths
    ensures left { Left (open_add_run files words.now area.now text.now)
        printed.old said.old printed.new said.new result }
    ensures placed { Placed written.old 0 (open_add_run files words.now area.now text.now).writes
        written.new result.writes }
{
    Lengths::of(add(files, words, area, text, printed, written, said))
}
