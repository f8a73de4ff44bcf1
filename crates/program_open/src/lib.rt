// What the jobs of `icuoffice` share: the words of a call, and the open study that it works on, or what is said where there is none.
#![tactic(auto)]

ghost use Rattle.std.specs.Prelude.{◌≡◌, true, ⊤};
ghost use Rattle.text.specs.Text.{Placed};
ghost use Rattle.open_rules.specs.Open.{read_answer, read_sheet};
ghost use Rattle.open_file.specs.File.{is_open, open_file};
ghost use Rattle.program_outcome.specs.Outcome.{named};
ghost use Rattle.program_open.specs.Words.{office_of, office_in, site_in};
ghost use Rattle.program_outcome.specs.Outcome.{Tells};
ghost use Rattle.program_open.specs.Opening.{source_found, source_read, study_of, study_in};
ghost use Rattle.program_open.specs.Opening.{office_says, unopened_text, bytes_say, source_says, open_says};
ghost use Rattle.program_open.specs.Working.{held, Taken};

use answers::Answer;
use layout::{BLOCKS, CELLS, PLACES};
use open_file::OPEN_BYTES;
use program_outcome::{AREA_BYTES, Input, Remark, SAID_BYTES};
use program_target::Found;

// The arguments, among the words: the study's name and the office's number; past the job, a text's name or a site; what is to change.
pub const STUDY: usize = 0;

pub const OFFICE: usize = 1;

pub const TEXT: usize = 3;

pub const SITE: usize = 3;

pub const NAME: usize = 4;

pub const ENTRY: usize = 5;

pub const VALUE: usize = 6;

// No office has this number.
const NO_OFFICE: u32 = 0;

// What stands where the study should be: a file, of which so many bytes were read; nothing; or why it cannot be used.
pub type Source = Result<Option<usize>, Remark>;

// An open study: whose its places are, and their blocks.
#[derive(Clone, Copy)]
pub struct OpenStudy {
    pub owners: [u32; PLACES],
    pub blocks: [u32; BLOCKS],
}

fn office_of(word: &[u8]) -> u32
    ensures { result ≡ office_of word.now }
{
    let number = text_numbers::number_of(word);
    if text_numbers::TOO_LARGE <= number {
        return NO_OFFICE;
    }
    number as u32
}

// The office that a call names; 0, if it names none.
pub fn office_in(words: &[u8]) -> u32
    ensures { result ≡ office_in words.now }
{
    office_of(program_words::word(words, OFFICE))
}

// The site that it names, from 0; past any place, if it names none.
pub fn site_in(words: &[u8]) -> u32
    ensures { result ≡ site_in words.now }
{
    program_site::site_of(text_numbers::number_of(program_words::word(words, SITE)))
}

// What was found, where the study is to be written again.
pub fn source_found(found: Found) -> Source
    ensures { result ≡ source_found found }
{
    found.map_err(Remark::from)
}

// What reading came to, where it is only read.
pub fn source_read(input: Input) -> Source
    ensures { result ≡ source_read input }
{
    match input {
        Some(size) => Ok(Some(size)),
        None => Err(Remark::Unread),
    }
}

// Says of the office's word that it names none, if it does not.
fn judge_office(words: &[u8], said: &mut [u8; SAID_BYTES]) -> Result<(), usize>
    ensures { Tells (office_says words.now) said.old said.new (λ _. ⊤) result }
{
    if office_in(words) != NO_OFFICE {
        return Ok(());
    }
    Err(program_outcome::put_named(
        said,
        program_words::word(words, OFFICE),
        b"an office has a number, from 1 to 4294967295\n",
    ))
}

fn say_unopened(name: &[u8], said: &mut [u8; SAID_BYTES]) -> usize
    ensures { Placed said.old 0 (named name.now unopened_text) said.new result }
{
    program_outcome::put_named(
        said,
        name,
        b"no open study stands here: icuoffice STUDY new makes one where there is no file\n",
    )
}

// The study in a file.
fn study_of(file: &[u8]) -> OpenStudy
    requires { is_open file.now ≡ true }
    ensures { held result ≡ study_of file.now }
{
    let mut study = OpenStudy {
        owners: [0u32; PLACES],
        blocks: [0u32; BLOCKS],
    };
    open_file::owners_in(file, &mut study.owners);
    open_file::blocks_in(file, &mut study.blocks);
    study
}

// The study in a file of these bytes, or what is said where they are none.
fn take_bytes(name: &[u8], file: &[u8], said: &mut [u8; SAID_BYTES]) -> Result<OpenStudy, usize>
    ensures { Taken (bytes_say name.now file.now) said.old said.new (study_of file.now) result }
{
    if !open_file::is_open(file) {
        return Err(say_unopened(name, said));
    }
    Ok(study_of(file))
}

// The same of what stands there.
fn take_source(
    source: Source,
    name: &[u8],
    area: &[u8; AREA_BYTES],
    said: &mut [u8; SAID_BYTES],
) -> Result<OpenStudy, usize>
    ensures { Taken (source_says source name.now area.now) said.old said.new
        (study_in source area.now) result }
{
    match source {
        Ok(Some(size)) => take_bytes(name, program_outcome::front(area, size), said),
        Ok(None) => Err(say_unopened(name, said)),
        Err(why) => Err(program_outcome::say(name, why, said)),
    }
}

// The study that a call works on, which was read into the area; or how many bytes are said where there is none, of the office's
// word first.
pub fn study_in(
    source: Source,
    words: &[u8],
    area: &[u8; AREA_BYTES],
    said: &mut [u8; SAID_BYTES],
) -> Result<OpenStudy, usize>
    ensures { Taken (open_says source words.now area.now) said.old said.new
        (study_in source area.now) result }
{
    judge_office(words, said)?;
    take_source(source, program_words::word(words, STUDY), area, said)
}

// Fills the sheet from the site that a call names; or tells why it is refused.
pub fn read_site(words: &[u8], study: &OpenStudy, sheet: &mut [u32; CELLS]) -> Answer
    ensures value { result ≡ read_answer (held study.now) (office_in words.now) (site_in words.now) sheet.old }
    ensures sheet_after { sheet.new ≡ read_sheet (held study.now) (office_in words.now) (site_in words.now) sheet.old }
{
    open_study::read(
        &study.owners,
        &study.blocks,
        office_in(words),
        site_in(words),
        sheet,
    )
}

// Makes the file of a study.
pub fn write_study(study: &OpenStudy, written: &mut [u8; OPEN_BYTES]) -> usize
    ensures { Placed written.old 0 (open_file study.now.owners study.now.blocks) written.new result }
{
    open_file::write(&study.owners, &study.blocks, written)
}
