// A page of entries under its heading, and what is said where they are refused.
#![tactic(auto)]

ghost use Rattle.std.specs.Prelude.{◌≡◌, ◌++◌, ◌+◌, ◌≤◌, ◌<◌, length, take};
ghost use Rattle.layout.specs.declared.Worksheet.TheVariants.{Junction};
ghost use Rattle.layout.specs.Sheet.{page_count};
ghost use Rattle.entries.specs.Judging.{judged_for};
ghost use Rattle.page.specs.Worksheet.{sheet_bytes, sheet_text};
ghost use Rattle.text.specs.Text.{Placed};
ghost use Rattle.text_refusals.specs.Refusals.{answer_text};
ghost use Rattle.text_numbers.specs.Numbers.{too_large};
ghost use Rattle.program_outcome.specs.Outcome.{Left};
ghost use Rattle.program_heading.specs.Headings.{text_heading, site_title, site_heading};
ghost use Rattle.program_heading.specs.Working.{heading_most};
ghost use Rattle.program_page.specs.Pages.{body_of, refused_of, text_page, site_page, site_alone};

use answers::Answer;
use layout::{ENTRIES, PAGE_CELLS, Worksheet};
use page::SHEET_BYTES;
use program_heading::{HEADING_BYTES, Spot};
use program_outcome::{Lengths, SAID_BYTES};
use text_refusals::SAYING_BYTES;

// Room for what is printed, a heading and a page; how much of it is used stands beside it, since there is no heap.
pub const PRINTED_BYTES: usize = HEADING_BYTES + SHEET_BYTES;

// A heading, at the front of its area.
#[derive(Drop)]
struct Heading {
    area: [u8; HEADING_BYTES],
    size: usize,
    ghost fits: { size ≤ heading_most },
}

impl Heading {
    // That of a text's page.
    fn of_text(kind: Worksheet, name: &[u8], title: &[u8]) -> Heading
        ensures { take result.size result.area ≡ text_heading kind name.now title.now }
    {
        let mut area = [0u8; HEADING_BYTES];
        let size = program_heading::head_text(kind, name, title, &mut area);
        Heading { area, size }
    }

    // That of a site's.
    fn of_site(kind: Worksheet, name: &[u8], spot: Spot) -> Heading
        requires { spot.site + 1 < too_large }
        ensures { take result.size result.area ≡ site_heading kind name.now spot }
    {
        let mut area = [0u8; HEADING_BYTES];
        let size = program_heading::head_site(kind, name, spot, &mut area);
        Heading { area, size }
    }

    fn text(&self) -> &[u8]
        ensures { (result.now ≡ take self.now.size self.now.area) × (length result.now ≤ heading_most) }
    {
        program_outcome::front(&self.area, self.size)
    }
}

// Puts what stands on a page past its heading.
fn put_under(heading: &Heading, body: &[u8], printed: &mut [u8; PRINTED_BYTES]) -> usize
    requires { length body.now ≤ sheet_bytes Junction }
    ensures { Placed printed.old 0 (take heading.now.size heading.now.area ++ body.now) printed.new result }
{
    let at = text::put_bytes(printed, 0, heading.text());
    text::put_bytes(printed, at, body)
}

// The same of what was made at the front of an area.
fn put_made<const N: usize>(
    heading: &Heading,
    made: &[u8; N],
    size: usize,
    printed: &mut [u8; PRINTED_BYTES],
) -> usize
    requires { N ≤ sheet_bytes Junction }
    ensures { Placed printed.old 0 (take heading.now.size heading.now.area ++ take size made.now) printed.new result }
{
    put_under(heading, program_outcome::front(made, size), printed)
}

// The page that says why entries are refused.
fn put_refusal(heading: &Heading, answer: Answer, printed: &mut [u8; PRINTED_BYTES]) -> usize
    ensures { Placed printed.old 0 (take heading.now.size heading.now.area ++ answer_text answer) printed.new result }
{
    let mut saying = [0u8; SAYING_BYTES];
    let size = text_refusals::say_answer(answer, &mut saying);
    put_made(heading, &saying, size, printed)
}

// Makes the page of the numbers at the front of an area.
fn print_front(kind: Worksheet, area: &[u32], page: &mut [u8; SHEET_BYTES]) -> usize
    requires { page_count kind ≤ length area.now }
    ensures { Placed page.old 0 (sheet_text kind (take (page_count kind) area.now)) page.new result }
{
    let count = kind.cells() + kind.beside_numbers() * layout::APPROACHES;
    page::print(kind, &area[..count], page)
}

// The page of those numbers under its heading.
fn put_sheet(
    kind: Worksheet,
    heading: &Heading,
    area: &[u32; PAGE_CELLS],
    printed: &mut [u8; PRINTED_BYTES],
) -> usize
    ensures { Placed printed.old 0
        (take heading.now.size heading.now.area ++ sheet_text kind (take (page_count kind) area.now)) printed.new result }
{
    let mut page = [0u8; SHEET_BYTES];
    let size = print_front(kind, area, &mut page);
    put_made(heading, &page, size, printed)
}

// The page of entries.
fn put_page(
    kind: Worksheet,
    heading: &Heading,
    entries: &[u32; ENTRIES],
    printed: &mut [u8; PRINTED_BYTES],
) -> usize
    ensures { Placed printed.old 0 (take heading.now.size heading.now.area ++ body_of kind entries.now) printed.new result }
{
    let mut area = [0u32; PAGE_CELLS];
    let answer = sheet_beside::fill(kind, entries, &mut area);
    let Answer::Accepted = answer else {
        return put_refusal(heading, answer, printed);
    };
    put_sheet(kind, heading, &area, printed)
}

// Says why entries are refused, and whose they are; nothing where they are not.
fn say_refused(
    kind: Worksheet,
    whose: &[u8],
    entries: &[u32; ENTRIES],
    said: &mut [u8; SAID_BYTES],
) -> usize
    ensures { Placed said.old 0 (refused_of whose.now (judged_for kind entries.now)) said.new result }
{
    let answer = entries::judge(kind, entries);
    match answer {
        Answer::Accepted => 0,
        Answer::Refused(_, _) => program_refusals::say_answer_of(whose, answer, said),
    }
}

fn say_site(
    kind: Worksheet,
    name: &[u8],
    site: u32,
    entries: &[u32; ENTRIES],
    said: &mut [u8; SAID_BYTES],
) -> usize
    requires { site + 1 < too_large }
    ensures { Placed said.old 0 (refused_of (site_title name.now site) (judged_for kind entries.now))
        said.new result }
{
    let mut whose = [0u8; HEADING_BYTES];
    let size = program_heading::name_site(name, site, &mut whose);
    say_refused(kind, program_outcome::front(&whose, size), entries, said)
}

// The page of a text's entries, under its name and its title.
pub fn print_text(
    kind: Worksheet,
    name: &[u8],
    text: &[u8],
    entries: &[u32; ENTRIES],
    printed: &mut [u8; PRINTED_BYTES],
    said: &mut [u8; SAID_BYTES],
) -> Lengths
    ensures { Left (text_page kind name.now text.now entries.now)
        printed.old said.old printed.new said.new result }
{
    let title = text_titles::title_in(text_scan::unmarked(text));
    let heading = Heading::of_text(kind, name, title);
    let prints = put_page(kind, &heading, entries, printed);
    let says = say_refused(kind, name, entries, said);
    Lengths {
        prints,
        writes: 0,
        says,
    }
}

// The page of a site's entries, under the study's name and the site's number.
pub fn print_site(
    kind: Worksheet,
    name: &[u8],
    spot: Spot,
    entries: &[u32; ENTRIES],
    printed: &mut [u8; PRINTED_BYTES],
    said: &mut [u8; SAID_BYTES],
) -> Lengths
    requires { spot.site + 1 < too_large }
    ensures { Left (site_page kind name.now spot entries.now)
        printed.old said.old printed.new said.new result }
{
    let heading = Heading::of_site(kind, name, spot);
    let prints = put_page(kind, &heading, entries, printed);
    let says = say_site(kind, name, spot.site, entries, said);
    Lengths {
        prints,
        writes: 0,
        says,
    }
}

// The same for a site alone: where its entries are refused, nothing is printed.
pub fn print_alone(
    kind: Worksheet,
    name: &[u8],
    spot: Spot,
    entries: &[u32; ENTRIES],
    printed: &mut [u8; PRINTED_BYTES],
    said: &mut [u8; SAID_BYTES],
) -> Lengths
    requires { spot.site + 1 < too_large }
    ensures { Left (site_alone kind name.now spot entries.now)
        printed.old said.old printed.new said.new result }
{
    let answer = entries::judge(kind, entries);
    if let Answer::Refused(_, _) = answer {
        return Lengths::said(say_site(kind, name, spot.site, entries, said));
    }
    print_site(kind, name, spot, entries, printed, said)
}
