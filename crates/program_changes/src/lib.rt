// The changes that `icuamend` is asked for, made one after the other; one that is not made is told and passed over.
#![tactic(auto)]

ghost use Rattle.std.specs.Prelude.{◌≡◌, ◌++◌, ◌+◌, ◌≤◌, ◌<◌, length, take, set, IfOk};
ghost use Rattle.layout.specs.Entries.{entry_count};
ghost use Rattle.entries.specs.Judging.{judged_for};
ghost use Rattle.text.specs.Text.{Placed};
ghost use Rattle.text_names.specs.Names.{row_of};
ghost use Rattle.program_changes.specs.declared.NotMade.TheVariants.{Unclear};
ghost use Rattle.program_changes.specs.Changes.{most_changes, is_title, asked_of, wrong_text, why_text, verdict_by, verdict_of, entries_after};
ghost use Rattle.program_changes.specs.Changes.{title_in, kind_in, value_in, verdict_in, heading, changed_by};
ghost use Rattle.program_changes.specs.Working.{verdict_most, heading_most, sentence_most, said_most, Stepped, Came};

use answers::{Answer, Refusal};
use kinds::Kind;
use layout::{ENTRIES, Worksheet};
use program_outcome::Remark;
use text_values::{Trouble, Value};

// The most changes of one call.
pub const MOST_CHANGES: usize = 20;

// A study and a site stand before the changes, each of which is a title, a kind and a value.
pub const CHANGES_FROM: usize = 2;

pub const CHANGE_WORDS: usize = 3;

const TITLE: usize = 0;

const KIND: usize = 1;

const VALUE: usize = 2;

// "change ", a number and ": ".
const HEADING_BYTES: usize = 19;

// Room for a sentence of each change.
pub const SAID_BYTES: usize = MOST_CHANGES * (HEADING_BYTES + program_outcome::SAID_BYTES);

// Which word of a change is wrong: its title, its kind or its value.
#[derive(Clone, Copy)]
pub enum Wrong {
    NoName,
    NoEntry,
    NotValue(Trouble),
}

// An entry, and the value that it is to have.
#[derive(Clone, Copy)]
pub struct Change {
    pub entry: u32,
    pub value: u32,
}

// Why a change is not made: a word is wrong, or the entries would be refused.
#[derive(Clone, Copy)]
pub enum NotMade {
    Unclear(Wrong),
    Refused(Refusal, u32),
}

impl From<Wrong> for NotMade {
    ghost from_gives = { λ wrong why. why ≡ Unclear wrong };

    fn from(wrong: Wrong) -> NotMade {
        NotMade::Unclear(wrong)
    }
}

// The words of a change: what the entry belongs to, its kind there, and its value.
#[derive(Clone, Copy)]
pub struct ChangeWords<'a> {
    pub title: &'a [u8],
    pub kind: &'a [u8],
    pub value: &'a [u8],
}

fn is_title(word: &[u8]) -> bool
    ensures { result ≡ is_title (row_of word.now) }
{
    text_names::row_of(word).is_some_and(|row| row < text_names::TITLES)
}

impl<'a> ChangeWords<'a> {
    // The entry and the value that they name.
    pub fn asked(&self) -> Result<Change, Wrong>
        ensures value { result ≡ asked_of self.now.title.now self.now.kind.now self.now.value.now }
        ensures entry_bound { IfOk result (λ change. change.entry < entry_count) }
    {
        if !is_title(self.title) {
            return Err(Wrong::NoName);
        }
        let Some(entry) = text_names::entry_named(self.title, self.kind) else {
            return Err(Wrong::NoEntry);
        };
        let word = text_values::value_of(Kind::at(entry as usize), self.value);
        match word {
            Value::Is(value) => Ok(Change { entry, value }),
            Value::Not(why) => Err(Wrong::NotValue(why)),
        }
    }

    // Says what is wrong with the word that is.
    pub fn say_wrong(&self, wrong: Wrong, said: &mut [u8; program_outcome::SAID_BYTES]) -> usize
        ensures { Placed said.old 0 (wrong_text wrong self.now.title.now self.now.kind.now self.now.value.now) said.new result }
    {
        match wrong {
            Wrong::NoName => program_outcome::say(self.title, Remark::NoName, said),
            Wrong::NoEntry => program_outcome::say(self.kind, Remark::NoEntry, said),
            Wrong::NotValue(why) => program_refusals::say_trouble(self.value, why, said),
        }
    }
}

// What the changes so far came to: whether one was made, and how many bytes are said of those that were not (so of both, and no Option).
#[derive(Clone, Copy)]
pub struct Done {
    pub made: bool,
    pub says: usize,
}

// Gives an entry its new value, if the entries are acceptable as they would stand.
fn try_entry(
    worksheet: Worksheet,
    entries: &mut [u32; ENTRIES],
    change: Change,
) -> Result<Change, NotMade>
    requires { change.entry < entry_count }
    ensures value { result ≡ verdict_by (judged_for worksheet (set entries.old change.entry change.value)) change }
    ensures entries_after { entries.new ≡ entries_after result entries.old }
{
    let mut changed = *entries;
    changed[change.entry as usize] = change.value;
    let answer = entries::judge(worksheet, &changed);
    match answer {
        Answer::Accepted => {
            *entries = changed;
            Ok(change)
        }
        Answer::Refused(why, place) => Err(NotMade::Refused(why, place)),
    }
}

// Makes the change that the words ask for, if it can be made.
fn make_change(
    worksheet: Worksheet,
    words: &ChangeWords,
    entries: &mut [u32; ENTRIES],
) -> Result<Change, NotMade>
    ensures value { result ≡ verdict_of worksheet words.now.title.now words.now.kind.now words.now.value.now entries.old }
    ensures entries_after { entries.new ≡ entries_after result entries.old }
{
    let wanted = words.asked()?;
    try_entry(worksheet, entries, wanted)
}

// The words of change n.
fn words_of(words: &[u8], n: usize) -> ChangeWords<'_>
    requires { n < most_changes }
    ensures title { result.title.now ≡ title_in words.now n }
    ensures kind { result.kind.now ≡ kind_in words.now n }
    ensures value { result.value.now ≡ value_in words.now n }
{
    let from = CHANGES_FROM + CHANGE_WORDS * n;
    ChangeWords {
        title: program_words::word(words, from + TITLE),
        kind: program_words::word(words, from + KIND),
        value: program_words::word(words, from + VALUE),
    }
}

// Says why a change was not made.
fn say_why(why: NotMade, words: &ChangeWords, said: &mut [u8; program_outcome::SAID_BYTES]) -> usize
    ensures { Placed said.old 0 (why_text why words.now.title.now words.now.kind.now words.now.value.now) said.new result }
{
    match why {
        NotMade::Unclear(wrong) => words.say_wrong(wrong, said),
        NotMade::Refused(why, place) => {
            program_refusals::say_answer(Answer::Refused(why, place), said)
        }
    }
}

// Puts the change's number, where there are several.
fn put_heading(out: &mut [u8], at: usize, several: bool, n: usize) -> usize
    requires { (at + heading_most ≤ length out.old) × (n < most_changes) }
    ensures { Placed out.old at (heading several n) out.new result × (result ≤ at + heading_most) }
{
    if several {
        let end = text_phrases::put_numbered(out, at, b"change ", (n + 1) as u32);
        return text::put_bytes(out, end, b": ");
    }
    at
}

// Puts a sentence that was made apart.
pub fn put_sentence(
    out: &mut [u8],
    at: usize,
    sentence: &[u8; program_outcome::SAID_BYTES],
    size: usize,
) -> usize
    requires { at + verdict_most ≤ length out.old }
    ensures { Placed out.old at (take size sentence.now) out.new result × (result ≤ at + verdict_most) }
{
    text::put_bytes(out, at, program_outcome::front(sentence, size))
}

// Puts why a change was not made past its heading.
fn put_why(out: &mut [u8], at: usize, why: NotMade, words: &ChangeWords) -> usize
    requires { at + verdict_most ≤ length out.old }
    ensures { Placed out.old at (why_text why words.now.title.now words.now.kind.now words.now.value.now) out.new result
        × (result ≤ at + verdict_most) }
{
    let mut sentence = [0u8; program_outcome::SAID_BYTES];
    let size = say_why(why, words, &mut sentence);
    put_sentence(out, at, &sentence, size)
}

// Tells of change n, which was not made.
fn tell(
    out: &mut [u8],
    at: usize,
    several: bool,
    n: usize,
    why: NotMade,
    words: &ChangeWords,
) -> usize
    requires { (at + sentence_most ≤ length out.old) × (n < most_changes) }
    ensures { Placed out.old at (heading several n ++ why_text why words.now.title.now words.now.kind.now words.now.value.now)
        out.new result × (result ≤ at + sentence_most) }
{
    let headed = put_heading(out, at, several, n);
    put_why(out, headed, why, words)
}

// Makes change n and counts it as made, or tells why it is not.
fn step(
    worksheet: Worksheet,
    words: &[u8],
    n: usize,
    several: bool,
    entries: &mut [u32; ENTRIES],
    said: &mut [u8],
    so: Done,
) -> Done
    requires { (so.says + sentence_most ≤ length said.old) × (n < most_changes) }
    ensures { Stepped so (verdict_in worksheet words.now n entries.old) several words.now n
        entries.old entries.new said.old said.new result }
{
    let asked = words_of(words, n);
    match make_change(worksheet, &asked, entries) {
        Ok(_) => Done {
            made: true,
            says: so.says,
        },
        Err(why) => Done {
            made: so.made,
            says: tell(said, so.says, several, n, why, &asked),
        },
    }
}

fn change_each(
    worksheet: Worksheet,
    words: &[u8],
    changes: usize,
    entries: &mut [u32; ENTRIES],
    said: &mut [u8],
) -> Done
    requires { (changes ≤ most_changes) × (length said.old ≡ said_most) }
    ensures { Came (changed_by worksheet words.now changes entries.old)
        said.old entries.new said.new result }
{
    let several = 1 < changes;
    let mut so = Done {
        made: false,
        says: 0,
    };
    for n in 0..changes {
        so = step(worksheet, words, n, several, entries, said, so);
    }
    so
}

// Makes the changes that the words ask for, one after the other, and tells of those that are not made.
pub fn change_all(
    worksheet: Worksheet,
    words: &[u8],
    changes: usize,
    entries: &mut [u32; ENTRIES],
    said: &mut [u8; SAID_BYTES],
) -> Done
    requires { changes ≤ most_changes }
    ensures { Came (changed_by worksheet words.now changes entries.old)
        said.old entries.new said.new result }
{
    change_each(worksheet, words, changes, entries, said)
}
