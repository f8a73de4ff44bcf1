// The calls of the crate `icu`, for C and Rust to link. None of them asks anything of its caller.
#![tactic(auto)]

ghost use Rattle.layout.specs.declared.Worksheet.TheVariants.{Junction, Point};
ghost use Rattle.icu.specs.Calls.{FillAllows, AmendAllows, StartAllows, CheckAllows, CountAllows, SiteAllows, WriteAllows, ListAllows};
ghost use Rattle.icu.specs.Calls.{DiamondAllows, OpenAddAllows, OpenAmendAllows, OpenReadAllows};
ghost use Rattle.open_rules.specs.Open.{study};

use icu::IcuAnswer;

// Fills a sheet of 221 numbers from 93 entries.
#[unsafe(no_mangle)]
pub extern "C" fn icu_fill(entries: &[u32], sheet: &mut [u32]) -> IcuAnswer
    ensures { FillAllows Junction entries.now sheet.old result sheet.new }
{
    icu::icu_fill(entries, sheet)
}

// Changes one entry of a sheet, and writes anew every cell that it reaches.
#[unsafe(no_mangle)]
pub extern "C" fn icu_amend(sheet: &mut [u32], entry: u32, value: u32) -> IcuAnswer
    ensures { AmendAllows Junction sheet.old entry value result sheet.new }
{
    icu::icu_amend(sheet, entry, value)
}

// Writes the 93 entries that a single point interchange begins with.
#[unsafe(no_mangle)]
pub extern "C" fn icu_point_start(entries: &mut [u32]) -> IcuAnswer
    ensures { StartAllows entries.old result entries.new }
{
    icu::icu_point_start(entries)
}

// Fills a single point's sheet of 175 numbers from 93 entries.
#[unsafe(no_mangle)]
pub extern "C" fn icu_point_fill(entries: &[u32], sheet: &mut [u32]) -> IcuAnswer
    ensures { FillAllows Point entries.now sheet.old result sheet.new }
{
    icu::icu_point_fill(entries, sheet)
}

// Changes one entry of a single point's sheet, and writes anew every cell that it reaches.
#[unsafe(no_mangle)]
pub extern "C" fn icu_point_amend(sheet: &mut [u32], entry: u32, value: u32) -> IcuAnswer
    ensures { AmendAllows Point sheet.old entry value result sheet.new }
{
    icu::icu_point_amend(sheet, entry, value)
}

// Judges the layout of a study file.
#[unsafe(no_mangle)]
pub extern "C" fn icu_study_check(file: &[u8]) -> IcuAnswer
    ensures { CheckAllows file.now result }
{
    icu::icu_study_check(file)
}

// The sites of a study file; 0 where it is refused.
#[unsafe(no_mangle)]
pub extern "C" fn icu_study_count(file: &[u8]) -> u32
    ensures { CountAllows file.now result }
{
    icu::icu_study_count(file)
}

// Copies a site's 93 entries out of a study file; of one of before they are widened, with no measured lane factors.
#[unsafe(no_mangle)]
pub extern "C" fn icu_study_site(file: &[u8], site: u32, entries: &mut [u32]) -> IcuAnswer
    ensures { SiteAllows file.now site entries.old result entries.new }
{
    icu::icu_study_site(file, site, entries)
}

// Writes a study file of today from the entries of its sites.
#[unsafe(no_mangle)]
pub extern "C" fn icu_study_write(entries: &[u32], out: &mut [u8]) -> IcuAnswer
    ensures { WriteAllows entries.now out.old result out.new }
{
    icu::icu_study_write(entries, out)
}

// Lists a study file as text, at the front of the lent bytes, and gives the text's length.
#[unsafe(no_mangle)]
pub extern "C" fn icu_study_list(file: &[u8], out: &mut [u8], written: &mut u32) -> IcuAnswer
    ensures { ListAllows file.now out.old written.old result out.new written.new }
{
    icu::icu_study_list(file, out, written)
}

// Rates a diamond interchange: 29 cells of its worksheet, from a record of 191 numbers.
#[unsafe(no_mangle)]
pub extern "C" fn icu_diamond(record: &[u32], cells: &mut [u32]) -> IcuAnswer
    ensures { DiamondAllows «record».now cells.old result cells.new }
{
    icu::icu_diamond(record, cells)
}

// Adds an office's site to an open study, at the lowest free place, and gives that place.
#[unsafe(no_mangle)]
pub extern "C" fn icu_open_add(
    owners: &mut [u32],
    blocks: &mut [u32],
    office: u32,
    entries: &[u32],
    place: &mut u32,
) -> IcuAnswer
    ensures { OpenAddAllows (study owners.old blocks.old) office entries.now place.old
        result (study owners.new blocks.new) place.new }
{
    icu::icu_open_add(owners, blocks, office, entries, place)
}

// Changes one entry of an office's site in its block.
#[unsafe(no_mangle)]
pub extern "C" fn icu_open_amend(
    owners: &[u32],
    blocks: &mut [u32],
    office: u32,
    site: u32,
    entry: u32,
    value: u32,
) -> IcuAnswer
    ensures { OpenAmendAllows (study owners.now blocks.old) office site entry value result blocks.new }
{
    icu::icu_open_amend(owners, blocks, office, site, entry, value)
}

// Fills a sheet from an office's site.
#[unsafe(no_mangle)]
pub extern "C" fn icu_open_read(
    owners: &[u32],
    blocks: &[u32],
    office: u32,
    site: u32,
    sheet: &mut [u32],
) -> IcuAnswer
    ensures { OpenReadAllows (study owners.now blocks.now) office site sheet.old result sheet.new }
{
    icu::icu_open_read(owners, blocks, office, site, sheet)
}
