// The record that the arguments of `icudiamond` make, or what is said where they make none.
#![tactic(auto)]

ghost use Rattle.std.specs.Prelude.{◌≡◌, ◌+◌, ◌≤◌, ◌<◌, OnOk, set, length};
ghost use Rattle.lists.specs.Lists.{over};
ghost use Rattle.layout.specs.declared.Worksheet.TheVariants.{Junction};
ghost use Rattle.layout.specs.Entries.{entry_count};
ghost use Rattle.layout.specs.Diamond.{storages_from, record_count};
ghost use Rattle.text.specs.Text.{Placed};
ghost use Rattle.text_scan.specs.Scanning.{parsed};
ghost use Rattle.text_reader.specs.Reader.{reading};
ghost use Rattle.study.specs.Study.{judgement};
ghost use Rattle.program_record.specs.Arguments.{bytes_of, entries_of, text_says, bytes_say, file_says};
ghost use Rattle.program_record.specs.Arguments.{own_count, own_kind, own_word, own_value, number_by, own_numbers, value_says, words_say};
ghost use Rattle.program_record.specs.Arguments.{arguments_say, record_of};
ghost use Rattle.program_record.specs.Working.{Made};

use answers::Answer;
use kinds::Kind;
use layout::{ENTRIES, RECORD, STORAGES, Worksheet};
use program_outcome::{AREA_BYTES, Input, Remark, SAID_BYTES};
use text_values::Value;

// What reading the texts of both junctions came to.
#[derive(Clone, Copy)]
pub struct Files {
    pub west: Input,
    pub east: Input,
}

// The arguments, among the words: the texts' names, and the record's own numbers past them.
pub const WEST: usize = 0;

pub const EAST: usize = 1;

const OWN_FROM: usize = 2;

// The storages and the travel time.
const OWN_NUMBERS: usize = STORAGES + 1;

// How many words there are.
pub const WORDS: usize = OWN_FROM + OWN_NUMBERS;

// The bytes of a file that was read into an area; none, where it could not be read.
pub fn bytes_of(input: Input, area: &[u8; AREA_BYTES]) -> &[u8]
    ensures { result.now ≡ bytes_of input area.now }
{
    program_outcome::front(area, input.unwrap_or(0))
}

// Reads a text, or says what is wrong with it.
fn take_text(
    name: &[u8],
    text: &[u8],
    entries: &mut [u32; ENTRIES],
    said: &mut [u8; SAID_BYTES],
) -> Result<(), usize>
    ensures { Made (text_says (reading Junction text.now) name.now text.now) said.old said.new
        (parsed text.now).entries entries.new result }
{
    let reading = text_reader::read(Worksheet::Junction, text, entries);
    match reading {
        Ok(()) => Ok(()),
        Err(_) => Err(program_refusals::say_reading(name, text, reading, said)),
    }
}

// The same of bytes that may be a study's.
fn take_bytes(
    name: &[u8],
    bytes: &[u8],
    entries: &mut [u32; ENTRIES],
    said: &mut [u8; SAID_BYTES],
) -> Result<(), usize>
    ensures { Made (bytes_say (judgement bytes.now) name.now bytes.now) said.old said.new
        (parsed bytes.now).entries entries.new result }
{
    let answer = study::check(bytes);
    if let Answer::Accepted = answer {
        return Err(program_outcome::say(name, Remark::WantsText, said));
    }
    take_text(name, bytes, entries, said)
}

// And of a file.
pub fn take_file(
    name: &[u8],
    input: Input,
    area: &[u8; AREA_BYTES],
    entries: &mut [u32; ENTRIES],
    said: &mut [u8; SAID_BYTES],
) -> Result<(), usize>
    ensures { Made (file_says input name.now area.now) said.old said.new
        (entries_of input area.now) entries.new result }
{
    let Some(size) = input else {
        return Err(program_outcome::say(name, Remark::Unread, said));
    };
    take_bytes(name, program_outcome::front(area, size), entries, said)
}

// Puts a junction's entries into the record.
fn put_junction(numbers: &mut [u32], at: usize, entries: &[u32; ENTRIES])
    requires { at + entry_count ≤ length numbers.old }
    ensures { (numbers.new ≡ over numbers.old at entries.now) × (length entries.now ≡ entry_count) }
{
    lists::put(numbers, at, entries);
}

// Puts the entries of a text into the record, or says what is wrong with its file.
fn take_junction(
    name: &[u8],
    input: Input,
    area: &[u8; AREA_BYTES],
    at: usize,
    numbers: &mut [u32],
    said: &mut [u8; SAID_BYTES],
) -> Result<(), usize>
    requires { at + entry_count ≤ length numbers.old }
    ensures made { Made (file_says input name.now area.now) said.old said.new
        (over numbers.old at (entries_of input area.now)) numbers.new result }
    ensures area_len { OnOk result (length (entries_of input area.now) ≡ entry_count) }
{
    let mut entries = [0u32; ENTRIES];
    take_file(name, input, area, &mut entries, said)?;
    put_junction(numbers, at, &entries);
    Ok(())
}

fn own_kind(k: u32) -> Kind
    ensures { result ≡ own_kind k }
{
    if k < STORAGES as u32 {
        return Kind::Storage;
    }
    Kind::TravelTime
}

// The word of own number k, from 0.
pub fn own_word(words: &[u8], k: u32) -> &[u8]
    ensures { result.now ≡ own_word words.now k }
{
    program_words::word(words, OWN_FROM + k as usize)
}

// Puts own number k into the record, or says why its word is none.
fn take_word(
    words: &[u8],
    k: u32,
    numbers: &mut [u32],
    said: &mut [u8; SAID_BYTES],
) -> Result<(), usize>
    requires { storages_from + k < length numbers.old }
    ensures { Made (value_says (own_value words.now k) (own_word words.now k)) said.old said.new
        (set numbers.old (storages_from + k) (number_by (own_value words.now k))) numbers.new result }
{
    let word = own_word(words, k);
    let value = text_values::value_of(own_kind(k), word);
    match value {
        Value::Is(number) => {
            numbers[layout::STORAGES_FROM + k as usize] = number;
            Ok(())
        }
        Value::Not(why) => Err(program_refusals::say_trouble(word, why, said)),
    }
}

// Puts all of them into the record, or says of the first word that is none.
fn take_words(words: &[u8], numbers: &mut [u32], said: &mut [u8; SAID_BYTES]) -> Result<(), usize>
    requires { length numbers.old ≡ record_count }
    ensures { Made (words_say words.now 0 own_count) said.old said.new
        (over numbers.old storages_from (own_numbers words.now)) numbers.new result }
{
    for k in 0..OWN_NUMBERS as u32 {
        take_word(words, k, numbers, said)?;
    }
    Ok(())
}

// Makes the record of two texts, which were read into the areas west and east, and of the words past their names; or says why not.
pub fn gather(
    files: Files,
    words: &[u8],
    west: &[u8; AREA_BYTES],
    east: &[u8; AREA_BYTES],
    numbers: &mut [u32; RECORD],
    said: &mut [u8; SAID_BYTES],
) -> Result<(), usize>
    ensures { Made (arguments_say files words.now west.now east.now) said.old said.new
        (record_of files words.now west.now east.now) numbers.new result }
{
    take_junction(
        program_words::word(words, WEST),
        files.west,
        west,
        0,
        numbers,
        said,
    )?;
    take_junction(
        program_words::word(words, EAST),
        files.east,
        east,
        layout::EAST_FROM,
        numbers,
        said,
    )?;
    take_words(words, numbers, said)
}
