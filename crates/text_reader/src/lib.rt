// A text read for a sheet of a kind: the entries, or the first thing wrong and where it stands.
#![tactic(auto)]

ghost use Rattle.std.specs.Prelude.{◌≡◌, Err};
ghost use Rattle.text_scan.specs.Scanning.{parsed};
ghost use Rattle.text_reader.specs.Reader.{entry_at, fault_place, short_reading, reading, kept_unless_read};
ghost use Rattle.text_reader.specs.declared.Misreading.TheVariants.{Misread};

use answers::{Answer, Place, Refusal};
use layout::{ENTRIES, Worksheet};
use text_values::Trouble;
use text_words::Mistake;

// The most bytes that a text has.
pub const TEXT_MOST: usize = 65_535;

// Why a text is not read.
#[derive(Clone, Copy)]
pub enum Misreading {
    Misread(Mistake),
    // The refusal, its place, and the place of the value that it is about.
    Refused(Refusal, u32, usize),
}

impl From<Mistake> for Misreading {
    ghost from_gives = { λ mistake why. why ≡ Misread mistake };

    fn from(mistake: Mistake) -> Misreading {
        Misreading::Misread(mistake)
    }
}

// The entry that a refusal is about, by what its place counts.
fn entry_at(counted: Place, place: u32) -> usize
    ensures { result ≡ entry_at counted place }
{
    let place = place as usize;
    match counted {
        Place::OfApproaches => layout::APPROACHES_FROM
            + layout::APPROACH_ENTRIES * place
            + layout::SHARED_NO,
        Place::OfMovements => layout::MOVEMENT_ENTRIES * place + layout::VOLUME_NO,
        Place::OfNothing | Place::OfEntries | Place::OfBytes | Place::OfRecord | Place::OfStudy =>
            place,
    }
}

// The place in the text of the value that a refusal is about; its start, where that is not written.
fn fault_place(places: &[Option<usize>; ENTRIES], why: Refusal, place: u32) -> usize
    ensures { result ≡ fault_place places.now why place }
{
    let written = places.get(entry_at(why.counts(), place)).copied();
    written.flatten().unwrap_or(0)
}

#[tactic(auto, unfolding(crate::specs::Reader::short_reading))]
fn read_short(kind: Worksheet, text: &[u8], entries: &mut [u32; ENTRIES]) -> Result<(), Misreading>
    ensures value { result ≡ short_reading kind text.now }
    ensures entries_after { entries.new
        ≡ kept_unless_read (short_reading kind text.now) (parsed text.now).entries entries.old }
{
    let state = text_scan::parse(text);
    state.reader?;
    let answer = entries::judge(kind, &state.entries);
    if let Answer::Refused(why, place) = answer {
        let written = fault_place(&state.places, why, place);
        return Err(Misreading::Refused(why, place, written));
    }
    *entries = state.entries;
    Ok(())
}

// The entries that a text writes, and the usual values for the others; only a text that reads well alters them.
#[tactic(auto, unfolding(crate::specs::Reader::reading))]
pub fn read(kind: Worksheet, text: &[u8], entries: &mut [u32; ENTRIES]) -> Result<(), Misreading>
    ensures value { result ≡ reading kind text.now }
    ensures entries_after { entries.new ≡ kept_unless_read (reading kind text.now) (parsed text.now).entries entries.old }
{
    if TEXT_MOST < text.len() {
        let why = Trouble::TooLong;
        let place = TEXT_MOST - text_scan::mark_size(text);
        return Err(Misreading::Misread(Mistake { why, place }));
    }
    read_short(kind, text, entries)
}
