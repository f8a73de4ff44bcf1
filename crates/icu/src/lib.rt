// The library's calls. None of them asks anything of its caller.
#![tactic(auto)]

ghost use Rattle.std.specs.Prelude.{◌≡◌};
ghost use Rattle.layout.specs.declared.Worksheet.TheVariants.{Junction, Point};
ghost use Rattle.icu.specs.Told.{told};
ghost use Rattle.icu.specs.Calls.{FillAllows, AmendAllows, StartAllows, CheckAllows, CountAllows, SiteAllows, WriteAllows, ListAllows};
ghost use Rattle.icu.specs.Calls.{DiamondAllows, OpenAddAllows, OpenAmendAllows, OpenReadAllows};
ghost use Rattle.open_rules.specs.Open.{study};

use answers::Answer;
use layout::Worksheet;

// Number 0 is accepted, with place 0; else the refusal's number and place.
#[repr(C)]
#[derive(Clone, Copy)]
pub struct IcuAnswer {
    pub number: u32,
    pub place: u32,
}

fn tell(answer: Answer) -> IcuAnswer
    ensures { result ≡ told answer }
{
    let number = answer.number();
    let place = answer.place();
    IcuAnswer { number, place }
}

// Fills a sheet of 221 numbers from 93 entries.
pub fn icu_fill(entries: &[u32], sheet: &mut [u32]) -> IcuAnswer
    ensures { FillAllows Junction entries.now sheet.old result sheet.new }
{
    tell(sheet::fill(Worksheet::Junction, entries, sheet))
}

// Changes one entry of a sheet, and writes anew every cell that it reaches.
pub fn icu_amend(sheet: &mut [u32], entry: u32, value: u32) -> IcuAnswer
    ensures { AmendAllows Junction sheet.old entry value result sheet.new }
{
    tell(amend::amend(Worksheet::Junction, sheet, entry, value))
}

// Writes the 93 entries that a single point interchange begins with.
pub fn icu_point_start(entries: &mut [u32]) -> IcuAnswer
    ensures { StartAllows entries.old result entries.new }
{
    tell(point_start::start(entries))
}

// Fills a single point's sheet of 175 numbers from 93 entries.
pub fn icu_point_fill(entries: &[u32], sheet: &mut [u32]) -> IcuAnswer
    ensures { FillAllows Point entries.now sheet.old result sheet.new }
{
    tell(sheet::fill(Worksheet::Point, entries, sheet))
}

// Changes one entry of a single point's sheet, and writes anew every cell that it reaches.
pub fn icu_point_amend(sheet: &mut [u32], entry: u32, value: u32) -> IcuAnswer
    ensures { AmendAllows Point sheet.old entry value result sheet.new }
{
    tell(amend::amend(Worksheet::Point, sheet, entry, value))
}

// Judges the layout of a study file.
pub fn icu_study_check(file: &[u8]) -> IcuAnswer
    ensures { CheckAllows file.now result }
{
    tell(study::check(file))
}

// The sites of a study file; 0 where it is refused.
pub fn icu_study_count(file: &[u8]) -> u32
    ensures { CountAllows file.now result }
{
    study::count(file)
}

// Copies a site's 93 entries out of a study file; of one of before they are widened, with no measured lane factors.
pub fn icu_study_site(file: &[u8], site: u32, entries: &mut [u32]) -> IcuAnswer
    ensures { SiteAllows file.now site entries.old result entries.new }
{
    tell(study::site_entries(file, site, entries))
}

// Writes a study file of today from the entries of its sites.
pub fn icu_study_write(entries: &[u32], out: &mut [u8]) -> IcuAnswer
    ensures { WriteAllows entries.now out.old result out.new }
{
    tell(study::write(entries, out))
}

// Lists a study file as text, at the front of the lent bytes, and gives the text's length.
pub fn icu_study_list(file: &[u8], out: &mut [u8], written: &mut u32) -> IcuAnswer
    ensures { ListAllows file.now out.old written.old result out.new written.new }
{
    tell(study_listing::list(file, out, written))
}

// Rates a diamond interchange: 29 cells of its worksheet, from a record of 191 numbers.
pub fn icu_diamond(record: &[u32], cells: &mut [u32]) -> IcuAnswer
    ensures { DiamondAllows «record».now cells.old result cells.new }
{
    tell(diamond::rate(record, cells))
}

// Adds an office's site to an open study, at the lowest free place, and gives that place.
pub fn icu_open_add(
    owners: &mut [u32],
    blocks: &mut [u32],
    office: u32,
    entries: &[u32],
    place: &mut u32,
) -> IcuAnswer
    ensures { OpenAddAllows (study owners.old blocks.old) office entries.now place.old
        result (study owners.new blocks.new) place.new }
{
    tell(open_study::add(owners, blocks, office, entries, place))
}

// Changes one entry of an office's site in its block.
pub fn icu_open_amend(
    owners: &[u32],
    blocks: &mut [u32],
    office: u32,
    site: u32,
    entry: u32,
    value: u32,
) -> IcuAnswer
    ensures { OpenAmendAllows (study owners.now blocks.old) office site entry value result blocks.new }
{
    tell(open_study::amend(owners, blocks, office, site, entry, value))
}

// Fills a sheet from an office's site.
pub fn icu_open_read(
    owners: &[u32],
    blocks: &[u32],
    office: u32,
    site: u32,
    sheet: &mut [u32],
) -> IcuAnswer
    ensures { OpenReadAllows (study owners.now blocks.now) office site sheet.old result sheet.new }
{
    tell(open_study::read(owners, blocks, office, site, sheet))
}
