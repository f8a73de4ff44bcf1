// Study files of any format written from their sites' entries.
#![tactic(auto)]

ghost use Rattle.std.specs.Prelude.{◌≡◌, not, ◌%◌, ◌≤◌, eqb, ltb, length};
ghost use Rattle.lists.specs.Lists.{over};
ghost use Rattle.study_numbers.specs.Numbers.{packed};
ghost use Rattle.answers.specs.declared.Refusal.TheVariants.{Size, File};
ghost use Rattle.answers.specs.Answers.{refuse_if, left_by};
ghost use Rattle.study_format.specs.Format.{room_place, offsets_place, offset_place, file_bytes, offsets, write_answer, file_of};
ghost use Rattle.study_writer.specs.Working.{Writable};

use answers::{Answer, Refusal};
use study_format::Format;
use study_numbers::NUMBER_BYTES;

fn put_offsets(format: Format, out: &mut [u8], sites: usize)
    requires { (sites ≤ format.most) × (offset_place sites ≤ length out.old) }
    ensures { out.new ≡ over out.old offsets_place (packed (offsets format sites)) }
{
    for placed in 0..sites {
        study_numbers::write(
            out,
            study_format::OFFSETS_PLACE + NUMBER_BYTES * placed,
            format.block_place(sites, placed) as u32,
        );
    }
}

// Whole sites alone are written.
fn check_whole(format: Format, entries: &[u32]) -> Answer
    ensures { result ≡ refuse_if (not (eqb (length entries.now % format.entries) 0)) Size 0 }
{
    if entries.len() % format.entries != 0 {
        return Answer::Refused(Refusal::Size, 0);
    }
    Answer::Accepted
}

// And no more of them than a file holds.
fn check_count(format: Format, sites: usize) -> Answer
    ensures { result ≡ refuse_if (ltb format.most sites) File 0 }
{
    if format.most < sites {
        return study_format::refused(0);
    }
    Answer::Accepted
}

fn check_room(format: Format, sites: usize, room: usize) -> Answer
    requires { sites ≤ format.most }
    ensures { result ≡ refuse_if (ltb room (file_bytes format sites)) File room_place }
{
    if room < format.file_bytes(sites) {
        return study_format::refused(study_format::ROOM_PLACE);
    }
    Answer::Accepted
}

// Whether the entries make a file, and there is room for it.
fn check(format: Format, entries: &[u32], room: usize) -> Answer
    ensures { result ≡ write_answer format entries.now room }
{
    let whole = check_whole(format, entries);
    let Answer::Accepted = whole else {
        return whole;
    };
    let sites = entries.len() / format.entries;
    let count = check_count(format, sites);
    let Answer::Accepted = count else {
        return count;
    };
    check_room(format, sites, room)
}

// The file of entries that were checked, at the front.
fn put_file(format: Format, entries: &[u32], out: &mut [u8])
    requires { Writable format entries.now (length out.old) }
    ensures { out.new ≡ over out.old 0 (file_of format entries.now) }
{
    let sites = entries.len() / format.entries;
    let opening = format.opening;
    text::put_bytes(out, 0, &opening);
    study_numbers::write(out, study_format::COUNT_PLACE, sites as u32);
    put_offsets(format, out, sites);
    study_numbers::write_all(entries, out, format.block_place(sites, 0));
}

// Writes the study file of whole sites' entries to the front of the lent bytes; those past it stay.
pub fn write(format: Format, entries: &[u32], out: &mut [u8]) -> Answer
    ensures value { result ≡ write_answer format entries.now (length out.old) }
    ensures out_after { out.new
        ≡ left_by (write_answer format entries.now (length out.old))
        (over out.old 0 (file_of format entries.now)) out.old }
{
    let answer = check(format, entries, out.len());
    let Answer::Accepted = answer else {
        return answer;
    };
    put_file(format, entries, out);
    Answer::Accepted
}
