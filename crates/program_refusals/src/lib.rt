// What a program says where a call or a text is refused.
#![tactic(auto)]

ghost use Rattle.std.specs.Prelude.{◌≤◌, take};
ghost use Rattle.text.specs.Text.{Placed};
ghost use Rattle.text_refusals.specs.Refusals.{answer_text, reading_text};
ghost use Rattle.text_troubles.specs.Troubles.{trouble_text};
ghost use Rattle.program_outcome.specs.Outcome.{named};

use answers::Answer;
use program_outcome::SAID_BYTES;
use text_reader::Misreading;
use text_refusals::SAYING_BYTES;
use text_values::Trouble;

fn put_saying(saying: &[u8; SAYING_BYTES], size: usize, said: &mut [u8; SAID_BYTES]) -> usize
    ensures { Placed said.old 0 (take size saying.now) said.new result }
{
    text::put_bytes(said, 0, program_outcome::front(saying, size))
}

fn put_saying_of(
    name: &[u8],
    saying: &[u8; SAYING_BYTES],
    size: usize,
    said: &mut [u8; SAID_BYTES],
) -> usize
    ensures { Placed said.old 0 (named name.now (take size saying.now)) said.new result }
{
    program_outcome::put_named(said, name, program_outcome::front(saying, size))
}

// Says why a call was refused.
pub fn say_answer(answer: Answer, said: &mut [u8; SAID_BYTES]) -> usize
    ensures { Placed said.old 0 (answer_text answer) said.new result }
{
    let mut saying = [0u8; SAYING_BYTES];
    let size = text_refusals::say_answer(answer, &mut saying);
    put_saying(&saying, size, said)
}

// Says why a call was refused that had to do with the file of that name.
pub fn say_answer_of(name: &[u8], answer: Answer, said: &mut [u8; SAID_BYTES]) -> usize
    ensures { Placed said.old 0 (named name.now (answer_text answer)) said.new result }
{
    let mut saying = [0u8; SAYING_BYTES];
    let size = text_refusals::say_answer(answer, &mut saying);
    put_saying_of(name, &saying, size, said)
}

// Says what is wrong with the text of the file of that name.
pub fn say_reading(
    name: &[u8],
    text: &[u8],
    reading: Result<(), Misreading>,
    said: &mut [u8; SAID_BYTES],
) -> usize
    ensures { Placed said.old 0 (named name.now (reading_text text.now reading)) said.new result }
{
    let mut saying = [0u8; SAYING_BYTES];
    let size = text_refusals::say_reading(text, reading, &mut saying);
    put_saying_of(name, &saying, size, said)
}

// Says what is wrong with a word that should be a value.
pub fn say_trouble(word: &[u8], why: Trouble, said: &mut [u8; SAID_BYTES]) -> usize
    ensures { Placed said.old 0 (named word.now (trouble_text why word.now)) said.new result }
{
    let mut saying = [0u8; SAYING_BYTES];
    let size = text_refusals::say_trouble(why, word, &mut saying);
    put_saying_of(word, &saying, size, said)
}
