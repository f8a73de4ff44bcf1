// The listing of a study file: a line for each site, or one line for a bad file.
#![tactic(auto)]

ghost use Rattle.std.specs.Prelude.{◌≡◌, ◌≤◌, length};
ghost use Rattle.text.specs.Text.{Placed};
ghost use Rattle.study_listing.specs.Listing.{site_of, site_lines, listing, list_answer};
ghost use Rattle.study_listing.specs.Working.{area_bytes};
ghost use Rattle.answers.specs.Answers.{left_by};
ghost use Rattle.answers.specs.declared.Answer.TheVariants.{Accepted};
ghost use Rattle.study.specs.Study.{judgement, site_answer, site_entries, sites_of};
ghost use Rattle.lists.specs.Lists.{over};

use answers::Answer;
use layout::Worksheet;
use study_lines::{Rating, Refused};

// Room for the lines of as many sites as a file that is read holds.
pub const AREA_BYTES: usize = study_lines::LINE_BYTES * study::MOST_READ;

// The picks of EB–WB and NB–SB.
const FIRST_PICK_CELL: usize = layout::PAIRS_FROM + layout::PICK;

const SECOND_PICK_CELL: usize = FIRST_PICK_CELL + layout::PAIR_CELLS;

// What the line of a site shows that the file has.
fn site_cells(file: &[u8], site: u32) -> Result<Rating, Refused>
    requires { site_answer file.now site ≡ Accepted }
    ensures { result ≡ site_of (site_entries file.now site) }
{
    let mut entries = [0u32; layout::ENTRIES];
    let mut cells = [0u32; layout::CELLS];
    study::site_entries(file, site, &mut entries);
    let answer = sheet::fill(Worksheet::Junction, &entries, &mut cells);
    match answer {
        Answer::Accepted => Ok(Rating {
            icu: cells[layout::ICU_CELL],
            letter: cells[layout::LETTER_CELL],
            first: cells[FIRST_PICK_CELL],
            second: cells[SECOND_PICK_CELL],
        }),
        Answer::Refused(why, place) => Err(Refused { why, place }),
    }
}

fn put_sites(file: &[u8], out: &mut [u8]) -> usize
    requires { (judgement file.now ≡ Accepted) × (area_bytes ≤ length out.old) }
    ensures { Placed out.old 0 (site_lines file.now (sites_of file.now)) out.new result }
{
    let sites = study::count(file);
    let mut at = 0;
    for site in 0..sites {
        at = study_lines::put_line(out, at, site + 1, site_cells(file, site));
    }
    at
}

fn put_listing(file: &[u8], out: &mut [u8]) -> usize
    requires { area_bytes ≤ length out.old }
    ensures { Placed out.old 0 (listing file.now) out.new result }
{
    let answer = study::check(file);
    let Answer::Accepted = answer else {
        return study_lines::put_bad_file(out, answer.place());
    };
    put_sites(file, out)
}

// Writes the listing of any bytes to the front of the lent bytes, and its length; the bytes past it stay.
pub fn list(file: &[u8], out: &mut [u8], written: &mut u32) -> Answer
    ensures value { result ≡ list_answer file.now (length out.old) }
    ensures out_after { out.new
        ≡ left_by (list_answer file.now (length out.old)) (over out.old 0 (listing file.now)) out.old }
    ensures written_after { written.new
        ≡ left_by (list_answer file.now (length out.old)) (length (listing file.now)) written.old }
{
    let mut area = [0u8; AREA_BYTES];
    let size = put_listing(file, &mut area);
    if out.len() < size {
        return study_format::refused(study_format::ROOM_PLACE);
    }
    text::put_bytes(out, 0, &area[..size]);
    *written = size as u32;
    Answer::Accepted
}
