// What is said, in words, where a text or a call is refused.
#![tactic(auto)]

ghost use Rattle.std.specs.Prelude.{◌+◌, ◌≤◌, ◌≡◌, length};
ghost use Rattle.text.specs.Text.{Placed};
ghost use Rattle.text_troubles.specs.Troubles.{trouble_text};
ghost use Rattle.text_refusals.specs.Refusals.{apart_text, span_text, limits_text, outside_text, range_text, approach_row, file_text, why_text};
ghost use Rattle.text_refusals.specs.Refusals.{refusal_text, answer_text, said_of, reading_text};
ghost use Rattle.text_refusals.specs.Working.{apart_most, span_most, limits_most, outside_most, why_most, refusal_most};

use answers::{Answer, Refusal};
use kinds::Kind;
use text_reader::Misreading;
use text_values::Trouble;

// Room for anything that is said: a place, and a refusal or a trouble.
pub const SAYING_BYTES: usize = 256;

// A usual value that stands below the range of its kind.
fn put_apart(out: &mut [u8], at: usize, kind: Kind) -> usize
    requires { at + apart_most ≤ length out.old }
    ensures { Placed out.old at (apart_text kind) out.new result × (result ≤ at + apart_most) }
{
    let limits = kind.limits();
    if limits.least <= limits.usual {
        return at;
    }
    let usual = text_values::put_value(out, at, kind, limits.usual);
    text::put_bytes(out, usual, b" or ")
}

// The range of a kind, at the end of a line.
fn put_span(out: &mut [u8], at: usize, kind: Kind) -> usize
    requires { at + span_most ≤ length out.old }
    ensures { Placed out.old at (span_text kind) out.new result × (result ≤ at + span_most) }
{
    let limits = kind.limits();
    let least = text_values::put_value(out, at, kind, limits.least);
    let parted = text::put_bytes(out, least, b" to ");
    let most = text_values::put_value(out, parted, kind, limits.most);
    text::put_byte(out, most, b'\n')
}

// What a kind takes, as its values are typed, at the end of a line.
fn put_limits(out: &mut [u8], at: usize, kind: Kind) -> usize
    requires { at + limits_most ≤ length out.old }
    ensures { Placed out.old at (limits_text kind) out.new result × (result ≤ at + limits_most) }
{
    let told = put_apart(out, at, kind);
    put_span(out, told, kind)
}

// What a number of a diamond is outside of.
fn put_outside(out: &mut [u8], at: usize, what: &[u8], kind: Kind) -> usize
    requires { at + length what.now + outside_most ≤ length out.old }
    ensures { Placed out.old at (outside_text what.now kind) out.new result
        × (result ≤ at + length what.now + outside_most) }
{
    let named = text::put_bytes(out, at, what);
    let told = text::put_bytes(out, named, b" is outside ");
    put_limits(out, told, kind)
}

fn put_range(out: &mut [u8], at: usize, entry: u32) -> usize
    requires { at + why_most ≤ length out.old }
    ensures { Placed out.old at (range_text entry) out.new result × (result ≤ at + why_most) }
{
    let named = text_phrases::put_entry_name(out, at, entry);
    let told = text::put_bytes(out, named, b" is outside ");
    put_limits(out, told, Kind::at(entry as usize))
}

// The row of an approach's name in the table of words; past its end for a number that is no approach's.
fn approach_row(approach: u32) -> u32
    ensures { result ≡ approach_row approach }
{
    if approach < layout::APPROACHES as u32 {
        return text_names::Class::APPROACHES.title + approach;
    }
    text_names::WORDS
}

fn put_file(out: &mut [u8], at: usize, place: u32) -> usize
    requires { at + why_most ≤ length out.old }
    ensures { Placed out.old at (file_text place) out.new result × (result ≤ at + why_most) }
{
    if place == 0 {
        return text::put_bytes(out, at, b"this is no study file\n");
    }
    let end = text_phrases::put_numbered(
        out,
        at,
        b"the study file is badly laid out at byte ",
        place,
    );
    text::put_byte(out, end, b'\n')
}

fn put_why(out: &mut [u8], at: usize, why: Refusal, place: u32) -> usize
    requires { at + why_most ≤ length out.old }
    ensures { Placed out.old at (why_text why place) out.new result × (result ≤ at + why_most) }
{
    match why {
        Refusal::Size => text::put_bytes(out, at, b"the number of entries or cells is wrong\n"),
        Refusal::Entry => text::put_bytes(out, at, b"there is no such entry\n"),
        Refusal::Range => put_range(out, at, place),
        Refusal::Shared => text_phrases::put_named(
            out,
            at,
            approach_row(place),
            b": a shared lane needs a through lane and no left lane beside it; a single point takes none\n",
        ),
        Refusal::NoLane => text_phrases::put_named(
            out,
            at,
            place,
            b": vehicles, and no lane that takes them\n",
        ),
        Refusal::File => put_file(out, at, place),
        Refusal::Store => put_outside(out, at, b"the storage", Kind::Storage),
        Refusal::Travel => put_outside(out, at, b"the travel time", Kind::TravelTime),
        Refusal::Owner => text::put_bytes(out, at, b"the office has no site there\n"),
        Refusal::Full => text::put_bytes(out, at, b"every place is taken\n"),
    }
}

fn put_refusal(out: &mut [u8], at: usize, why: Refusal, place: u32) -> usize
    requires { at + refusal_most ≤ length out.old }
    ensures { Placed out.old at (refusal_text why place) out.new result × (result ≤ at + refusal_most) }
{
    let numbered = text_phrases::put_numbered(out, at, b"R", why.number());
    let parted = text::put_bytes(out, numbered, b": ");
    put_why(out, parted, why, place)
}

// Writes why a call was refused, and tells how many bytes; nothing where it was accepted.
pub fn say_answer(answer: Answer, out: &mut [u8; SAYING_BYTES]) -> usize
    ensures { Placed out.old 0 (answer_text answer) out.new result }
{
    match answer {
        Answer::Accepted => 0,
        Answer::Refused(why, place) => put_refusal(out, 0, why, place),
    }
}

// Writes what is wrong with a word, and tells how many bytes.
pub fn say_trouble(why: Trouble, word: &[u8], out: &mut [u8; SAYING_BYTES]) -> usize
    ensures { Placed out.old 0 (trouble_text why word.now) out.new result }
{
    text_troubles::put_trouble(out, 0, why, word)
}

fn put_reading(text: &[u8], reading: Result<(), Misreading>, out: &mut [u8; SAYING_BYTES]) -> usize
    ensures { Placed out.old 0 (said_of text.now reading) out.new result }
{
    let Err(why) = reading else {
        return 0;
    };
    match why {
        Misreading::Misread(mistake) => {
            let at = text_places::put_place(out, text, mistake.place);
            let word = text_quotes::word_at(text, mistake.place);
            text_troubles::put_trouble(out, at, mistake.why, word)
        }
        Misreading::Refused(why, place, byte) => {
            let at = text_places::put_place(out, text, byte);
            put_refusal(out, at, why, place)
        }
    }
}

// Writes what is wrong with a text and where, and tells how many bytes; nothing where it was read.
pub fn say_reading(
    text: &[u8],
    reading: Result<(), Misreading>,
    out: &mut [u8; SAYING_BYTES],
) -> usize
    ensures { Placed out.old 0 (reading_text text.now reading) out.new result }
{
    put_reading(text_scan::unmarked(text), reading, out)
}
