// The words of a junction's text, taken one after the other: each names a title, or an entry, or is the value of one.
#![tactic(auto)]

ghost use Rattle.std.specs.Prelude.{◌≡◌, ◌<◌};
ghost use Rattle.layout.specs.Entries.{entry_count};
ghost use Rattle.text_names.specs.Names.{kind_count, row_of};
ghost use Rattle.text_words.specs.Words.{wrong, taken_kind, taken_name, state, taken_value, taken};

use kinds::Kind;
use layout::ENTRIES;
use std::marker::Model;
use text_values::{Trouble, Value};

// The first thing wrong with a text: the trouble, and the place of its word.
#[derive(Clone, Copy)]
pub struct Mistake {
    pub why: Trouble,
    pub place: usize,
}

// Where a reader stands: the title that was named last, and the entry whose value is due.
#[derive(Clone, Copy)]
pub struct Reader {
    pub title: Option<u32>,
    pub wanted: Option<usize>,
}

impl Model for Reader {
    ghost use Rattle.text_words.specs.Standing.{Standing};
    ghost use Rattle.text_words.specs.Working.{IsWithin};

    ghost Value = { Standing };

    ghost view = { λ r. record { title = r.title; wanted = r.wanted } };

    ghost invariant = { λ r. IsWithin r.title r.wanted };

    ghost inverse = { λ s. record { title = s.title; wanted = s.wanted } };
}

fn wrong(why: Trouble, place: usize) -> Result<Reader, Mistake>
    ensures { result ≡ wrong why place }
{
    Err(Mistake { why, place })
}

impl Reader {
    #[tactic(auto, unfolding(crate::specs::Words::taken_kind))]
    fn take_kind(
        self,
        place: usize,
        kind: u32,
        places: &[Option<usize>; ENTRIES],
    ) -> Result<Reader, Mistake>
        requires { kind < kind_count }
        ensures { result ≡ taken_kind place kind places.now self.title }
    {
        let Some(title) = self.title else {
            return wrong(Trouble::NoTitle, place);
        };
        if !text_names::has_kind(title, kind) {
            return wrong(Trouble::NotOfTitle, place);
        }
        let entry = text_names::entry_in(title, kind) as usize;
        if places[entry].is_some() {
            return wrong(Trouble::Twice, place);
        }
        Ok(Reader {
            title: Some(title),
            wanted: Some(entry),
        })
    }

    #[tactic(auto, unfolding(crate::specs::Words::taken_name))]
    fn take_name(
        self,
        place: usize,
        word: &[u8],
        places: &[Option<usize>; ENTRIES],
    ) -> Result<Reader, Mistake>
        ensures { result ≡ taken_name place (row_of word.now) places.now self.title }
    {
        let Some(row) = text_names::row_of(word) else {
            return wrong(Trouble::Unknown, place);
        };
        if row < text_names::TITLES {
            return Ok(Reader {
                title: Some(row),
                wanted: None,
            });
        }
        self.take_kind(place, row - text_names::TITLES, places)
    }
}

// What is read so far: where the reader stands or what is wrong, the entries, and where the value of each begins that is written.
#[derive(Clone, Copy)]
pub struct State {
    pub reader: Result<Reader, Mistake>,
    pub entries: [u32; ENTRIES],
    pub places: [Option<usize>; ENTRIES],
}

impl State {
    #[tactic(auto, unfolding(crate::specs::Words::taken_value))]
    fn take_value(
        &mut self,
        place: usize,
        word: &[u8],
        reader: Reader,
        entry: usize,
    ) -> Result<Reader, Mistake>
        requires { entry < entry_count }
        ensures { state result self.new.entries self.new.places ≡ taken_value place word.now reader.title entry self.old }
    {
        match text_values::value_of(Kind::at(entry), word) {
            Value::Is(value) => {
                self.entries[entry] = value;
                self.places[entry] = Some(place);
                Ok(Reader {
                    title: reader.title,
                    wanted: None,
                })
            }
            Value::Not(why) => wrong(why, place),
        }
    }

    // Takes a word that begins at a place; after the first thing wrong, nothing any more.
    #[tactic(auto, unfolding(crate::specs::Words::taken))]
    pub fn take(&mut self, place: usize, word: &[u8])
        ensures { self.new ≡ taken place word.now self.old }
    {
        let Ok(reader) = self.reader else {
            return;
        };
        self.reader = match reader.wanted {
            Some(entry) => self.take_value(place, word, reader, entry),
            None => reader.take_name(place, word, &self.places),
        };
    }
}
