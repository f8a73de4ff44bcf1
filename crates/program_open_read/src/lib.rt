// What `icuoffice STUDY OFFICE read SITE` prints and says: one call, between reading and writing.
#![tactic(auto)]

ghost use Rattle.std.specs.Prelude.{◌≡◌, ◌≤◌, ◌<◌, length, take};
ghost use Rattle.layout.specs.Entries.{entry_count};
ghost use Rattle.layout.specs.Open.{place_count};
ghost use Rattle.layout.specs.declared.Worksheet.TheVariants.{Junction};
ghost use Rattle.program_outcome.specs.Outcome.{Left};
ghost use Rattle.program_outcome.specs.Working.{lengths_of};
ghost use Rattle.program_page.specs.Pages.{site_page};
ghost use Rattle.program_words.specs.Words.{word_at};
ghost use Rattle.program_open.specs.Words.{study_word, site_in};
ghost use Rattle.program_open.specs.Working.{held};
ghost use Rattle.program_open_read.specs.Run.{spot_of, read_site, open_read_run};

use answers::Answer;
use layout::{CELLS, ENTRIES, Worksheet};
use program_heading::Spot;
use program_open::{OpenStudy, SITE, STUDY};
use program_outcome::{AREA_BYTES, Input, Lengths, SAID_BYTES};

// Room for what is printed.
pub const PRINTED_BYTES: usize = program_page::PRINTED_BYTES;

// The entries at the front of a sheet.
fn take_entries(sheet: &[u32], entries: &mut [u32; ENTRIES])
    requires { entry_count ≤ length sheet.now }
    ensures { entries.new ≡ take entry_count sheet.now }
{
    lists::put(entries, 0, &sheet[..ENTRIES]);
}

// Prints the page of the site that the call names, as `icusheet` does, from its sheet.
fn print_sheet(
    words: &[u8],
    sheet: &[u32; CELLS],
    printed: &mut [u8; PRINTED_BYTES],
    said: &mut [u8; SAID_BYTES],
) -> Lengths
    requires { site_in words.now < place_count }
    ensures { Left
        (site_page Junction (word_at words.now study_word) (spot_of (site_in words.now)) (take entry_count sheet.now))
        printed.old said.old printed.new said.new result }
{
    let mut entries = [0u32; ENTRIES];
    take_entries(sheet, &mut entries);
    let spot = Spot {
        site: program_open::site_in(words),
        sites: layout::PLACES as u32,
        follows: false,
    };
    program_page::print_site(
        Worksheet::Junction,
        program_words::word(words, STUDY),
        spot,
        &entries,
        printed,
        said,
    )
}

// Prints the office's site.
fn read_site(
    words: &[u8],
    study: &OpenStudy,
    printed: &mut [u8; PRINTED_BYTES],
    said: &mut [u8; SAID_BYTES],
) -> Result<Lengths, usize>
    ensures { Left (read_site words.now (held study.now))
        printed.old said.old printed.new said.new (lengths_of result) }
{
    let mut sheet = [0u32; CELLS];
    let answer = program_open::read_site(words, study, &mut sheet);
    let Answer::Accepted = answer else {
        let word = program_words::word(words, SITE);
        return Err(program_refusals::say_answer_of(word, answer, said));
    };
    Ok(print_sheet(words, &sheet, printed, said))
}

// Prints the office's site of the study, or stops where something is said.
fn read(
    input: Input,
    words: &[u8],
    area: &[u8; AREA_BYTES],
    printed: &mut [u8; PRINTED_BYTES],
    said: &mut [u8; SAID_BYTES],
) -> Result<Lengths, usize>
    ensures { Left (open_read_run input words.now area.now)
        printed.old said.old printed.new said.new (lengths_of result) }
{
    let study = program_open::study_in(program_open::source_read(input), words, area, said)?;
    read_site(words, &study, printed, said)
}

// What the call gives; its study was read into the area.
pub fn run(
    input: Input,
    words: &[u8],
    area: &[u8; AREA_BYTES],
    printed: &mut [u8; PRINTED_BYTES],
    said: &mut [u8; SAID_BYTES],
) -> Lengths
    ensures { Left (open_read_run input words.now area.now)
        printed.old said.old printed.new said.new result }
{
    Lengths::of(read(input, words, area, printed, said))
}
