// Changes of a sheet's entries that are made together: judged as all would stand, and every cell that one of them reaches renewed.
//
// They come as one list: an entry, its new value, the next entry and so on.
#![tactic(auto)]

ghost use Rattle.std.specs.Prelude.{◌≡◌, ◌≤◌, length};
ghost use Rattle.layout.specs.Entries.{entry_count};
ghost use Rattle.layout.specs.Sheet.{sheet_count};
ghost use Rattle.answers.specs.declared.Answer.TheVariants.{Accepted};
ghost use Rattle.amend_reach.specs.Reach.{merged_from};
ghost use Rattle.amend_sets.specs.Amend.{with_changes, entries_with, entry_answer, entries_answer, together_answer, some_reaches};
ghost use Rattle.amend_sets.specs.Working.{changes_of};

use answers::{Answer, Refusal};
use layout::Worksheet;

// Whether there is such an entry.
pub fn check_entry(entry: u32) -> Answer
    ensures { result ≡ entry_answer entry }
{
    if layout::CYCLE_ENTRY < entry as usize {
        return Answer::Refused(Refusal::Entry, 0);
    }
    Answer::Accepted
}

// Whether each change names an entry.
fn check_entries(changes: &[u32]) -> Answer
    ensures { result ≡ entries_answer (changes_of changes.now) }
{
    for n in 0..changes.len() / 2 {
        let known = check_entry(changes[2 * n]);
        let Answer::Accepted = known else {
            return known;
        };
    }
    Answer::Accepted
}

// Makes the changes.
fn change(entries: &mut [u32], changes: &[u32])
    requires { (length entries.old ≡ entry_count) × (entries_answer (changes_of changes.now) ≡ Accepted) }
    ensures { entries.new ≡ with_changes (changes_of changes.now) entries.old }
{
    for n in 0..changes.len() / 2 {
        let entry = changes[2 * n] as usize;
        entries[entry] = changes[2 * n + 1];
    }
}

// A sheet's entries as they would stand with the changes made.
fn entries_with(sheet: &[u32], changes: &[u32], entries: &mut [u32; layout::ENTRIES])
    requires { (entry_count ≤ length sheet.now) × (entries_answer (changes_of changes.now) ≡ Accepted) }
    ensures { entries.new ≡ entries_with sheet.now (changes_of changes.now) }
{
    lists::put(entries, 0, &sheet[..layout::ENTRIES]);
    change(entries, changes);
}

// Judges a sheet's entries as they would stand with the changes made, and leaves them so where they are accepted.
pub fn judge_changed(
    kind: Worksheet,
    sheet: &[u32],
    changes: &[u32],
    entries: &mut [u32; layout::ENTRIES],
) -> Answer
    ensures value { result ≡ together_answer kind sheet.now (changes_of changes.now) }
    ensures entries_after { result ≡ Accepted → entries.new ≡ entries_with sheet.now (changes_of changes.now) }
{
    let size = sheet_cells::check_sheet(kind, sheet);
    let Answer::Accepted = size else {
        return size;
    };
    let known = check_entries(changes);
    let Answer::Accepted = known else {
        return known;
    };
    entries_with(sheet, changes, entries);
    entries::judge(kind, entries)
}

// Writes the fresh cells that some change reaches; the others stay, whatever they held.
pub fn renew_changed(kind: Worksheet, sheet: &mut [u32], fresh: &[u32], changes: &[u32])
    requires { (length sheet.old ≡ sheet_count kind) × (length fresh.now ≡ sheet_count kind) × (entries_answer (changes_of changes.now) ≡ Accepted) }
    ensures { sheet.new ≡ merged_from (some_reaches kind (changes_of changes.now)) 0 fresh.now sheet.old }
{
    for n in 0..changes.len() / 2 {
        amend_reach::renew(kind, sheet, fresh, changes[2 * n] as usize);
    }
}
