// A junction's text scanned: its words are found, and taken one after the other.
#![tactic(auto)]

ghost use Rattle.std.specs.Prelude.{◌≡◌, ◌≤◌, ◌<◌, length};
ghost use Rattle.layout.specs.Entries.{entry_count};
ghost use Rattle.lists.specs.Lists.{table};
ghost use Rattle.text_scan.specs.Scanning.{start, scan, word_taken, next, usually, ended, words_parsed};
ghost use Rattle.text_scan.specs.Scanning.{mark_size, unmarked, parsed};

use kinds::Kind;
use layout::ENTRIES;
use std::array;
use text_titles::Title;
use text_values::Trouble;
use text_words::{Mistake, Reader, State};

// A byte-order mark.
const MARK: &[u8] = b"\xEF\xBB\xBF";

// What is read so far, the place where a word begins that is not taken yet, and whether a comment goes on.
#[derive(Clone, Copy)]
pub struct Scan {
    pub state: State,
    pub begun: usize,
    pub is_comment: bool,
}

// Each entry's usual value.
fn usual_entries() -> [u32; ENTRIES]
    ensures { result ≡ table usually entry_count }
{
    array::from_fn(|entry| Kind::at(entry).usual())
}

impl Scan {
    // At the start of a text: past its title.
    fn start(titling: Result<Option<Title>, usize>) -> Scan
        ensures { result ≡ start titling }
    {
        let reader = Reader {
            title: None,
            wanted: None,
        };
        let why = Trouble::BadTitle;
        let (reader, begun) = match titling {
            Ok(Some(title)) => (Ok(reader), title.past),
            Ok(None) => (Ok(reader), 0),
            Err(place) => (Err(Mistake { why, place }), 0),
        };
        let state = State {
            reader,
            entries: usual_entries(),
            places: [None; ENTRIES],
        };
        Scan {
            state,
            begun,
            is_comment: false,
        }
    }

    // Takes the word that ends at a place, if there is one.
    #[tactic(auto, unfolding(crate::specs::Scanning::word_taken))]
    fn take_word(&mut self, text: &[u8], n: usize)
        requires { n ≤ length text.now }
        ensures { self.new ≡ scan (word_taken text.now n self.old) self.old.begun self.old.is_comment }
    {
        if self.begun < n {
            self.state.take(self.begun, &text[self.begun..n]);
        }
    }

    // Goes past one byte.
    #[tactic(auto, unfolding(crate::specs::Scanning::next))]
    fn go_on(&mut self, text: &[u8], n: usize)
        requires { n < length text.now }
        ensures { self.new ≡ next text.now n self.old }
    {
        if n < self.begun {
            return;
        }
        let byte = text[n];
        if !self.is_comment {
            if !text_titles::ends_word(byte) {
                return;
            }
            self.take_word(text, n);
        }
        self.begun = n + 1;
        self.is_comment = text_titles::goes_on(self.is_comment, byte);
    }
}

// No value may be due at the end.
#[tactic(auto, unfolding(crate::specs::Scanning::ended))]
fn end(place: usize, reader: Result<Reader, Mistake>) -> Result<Reader, Mistake>
    ensures { result ≡ ended place reader }
{
    let reader = reader?;
    if reader.wanted.is_some() {
        let why = Trouble::Ends;
        return Err(Mistake { why, place });
    }
    Ok(reader)
}

// The bytes of the byte-order mark at the front of a text; 0 if it has none.
pub fn mark_size(text: &[u8]) -> usize
    ensures { (result ≡ mark_size text.now) × (result ≤ length text.now) }
{
    text.len() - unmarked(text).len()
}

// The part of a text past its byte-order mark: all of it, if it has none.
pub fn unmarked(text: &[u8]) -> &[u8]
    ensures { result.now ≡ unmarked text.now }
{
    text.strip_prefix(MARK).unwrap_or(text)
}

// Takes every word of a text that has no mark.
fn parse_words(text: &[u8]) -> State
    ensures { result ≡ words_parsed text.now }
{
    let mut scan = Scan::start(text_titles::titling_of(text));
    for n in 0..text.len() {
        scan.go_on(text, n);
    }
    scan.take_word(text, text.len());
    let mut state = scan.state;
    state.reader = end(text.len(), state.reader);
    state
}

// Takes every word of a text.
pub fn parse(text: &[u8]) -> State
    ensures { result ≡ parsed text.now }
{
    parse_words(unmarked(text))
}
