// Entries of a sheet amended: some together, or one.
#![tactic(auto)]

ghost use Rattle.std.specs.Prelude.{◌≡◌, length};
ghost use Rattle.answers.specs.declared.Answer.TheVariants.{Accepted};
ghost use Rattle.layout.specs.Sheet.{sheet_count};
ghost use Rattle.entries.specs.Judging.{judged_for};
ghost use Rattle.procedure.specs.Sheet.{sheet_for};
ghost use Rattle.amend_reach.specs.Reach.{merged_from};
ghost use Rattle.amend_sets.specs.Amend.{entries_answer, some_reaches, together_answer, amended_together, amend_answer, amended};
ghost use Rattle.amend_sets.specs.Working.{changes_of};

use answers::Answer;
use layout::Worksheet;

// Writes anew every cell that one of the changes reaches, from a sheet that is filled in the lent cells.
fn renew_from(
    kind: Worksheet,
    sheet: &mut [u32],
    entries: &[u32],
    changes: &[u32],
    fresh: &mut [u32],
)
    requires { (length sheet.old ≡ sheet_count kind) × (length fresh.old ≡ sheet_count kind) × (judged_for kind entries.now ≡ Accepted)
        × (entries_answer (changes_of changes.now) ≡ Accepted) }
    ensures { sheet.new
        ≡ merged_from (some_reaches kind (changes_of changes.now)) 0 (sheet_for kind entries.now) sheet.old }
{
    sheet::write_fresh(kind, entries, fresh);
    amend_sets::renew_changed(kind, sheet, fresh, changes);
}

// The same, with as many cells as a sheet of the kind has: with that number as a const parameter these two arms would stand in the caller.
fn renew(kind: Worksheet, sheet: &mut [u32], entries: &[u32], changes: &[u32])
    requires { (length sheet.old ≡ sheet_count kind) × (judged_for kind entries.now ≡ Accepted) × (entries_answer (changes_of changes.now) ≡ Accepted) }
    ensures { sheet.new
        ≡ merged_from (some_reaches kind (changes_of changes.now)) 0 (sheet_for kind entries.now) sheet.old }
{
    match kind {
        Worksheet::Junction => {
            renew_from(kind, sheet, entries, changes, &mut [0u32; layout::CELLS])
        }
        Worksheet::Point => {
            renew_from(
                kind,
                sheet,
                entries,
                changes,
                &mut [0u32; layout::POINT_CELLS],
            )
        }
    }
}

// Makes changes of the entries of a sheet of a kind, an entry and its new value in turn, and writes anew every cell that one of them
// reaches; where they are refused, judged as all would stand, the sheet stays as it was.
pub fn amend_together(kind: Worksheet, sheet: &mut [u32], changes: &[u32]) -> Answer
    ensures value { result ≡ together_answer kind sheet.old (changes_of changes.now) }
    ensures sheet_after { sheet.new ≡ amended_together kind sheet.old (changes_of changes.now) }
{
    let mut entries = [0u32; layout::ENTRIES];
    let judged = amend_sets::judge_changed(kind, sheet, changes, &mut entries);
    let Answer::Accepted = judged else {
        return judged;
    };
    renew(kind, sheet, &entries, changes);
    Answer::Accepted
}

// Changes one entry of a sheet and writes anew every cell that it reaches; where it is refused, the sheet stays as it was.
pub fn amend(kind: Worksheet, sheet: &mut [u32], entry: u32, value: u32) -> Answer
    ensures value { result ≡ amend_answer kind sheet.old entry value }
    ensures sheet_after { sheet.new ≡ amended kind sheet.old entry value }
{
    amend_together(kind, sheet, &[entry, value])
}
