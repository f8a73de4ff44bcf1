// The cells of a sheet: how many there must be. Where each stands is said in specs/ and proofs/.
#![tactic(auto)]

ghost use Rattle.std.specs.Prelude.{◌≡◌};
ghost use Rattle.sheet_cells.specs.Cells.{sheet_answer};

use answers::{Answer, Refusal};
use layout::Worksheet;

pub fn check_sheet(kind: Worksheet, sheet: &[u32]) -> Answer
    ensures { result ≡ sheet_answer kind sheet.now }
{
    if sheet.len() != kind.cells() {
        return Answer::Refused(Refusal::Size, 0);
    }
    Answer::Accepted
}
