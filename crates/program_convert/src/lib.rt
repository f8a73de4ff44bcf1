// What `icustudy convert` writes and says: one call, between reading and writing.
#![tactic(auto)]

ghost use Rattle.std.specs.Prelude.{◌≡◌, [], ◌*◌, ◌≤◌, ◌<◌, length};
ghost use Rattle.answers.specs.declared.Answer.TheVariants.{Accepted};
ghost use Rattle.layout.specs.Entries.{entry_count};
ghost use Rattle.lists.specs.Lists.{over};
ghost use Rattle.text.specs.Text.{Placed};
ghost use Rattle.study.specs.Study.{site_limit, judgement, count_of, site_answer, site_entries, entries_up_to, converted};
ghost use Rattle.program_outcome.specs.Outcome.{named, Left};
ghost use Rattle.program_convert.specs.Run.{many_text, convert_of, convert_run};

use answers::Answer;
use layout::ENTRIES;
use program_make::ALL_ENTRIES;
use program_outcome::{AREA_BYTES, Input, Lengths, Remark, SAID_BYTES};

pub const WRITTEN_BYTES: usize = program_make::WRITTEN_BYTES;

// The study to be converted, among the words; the file to write follows it.
const STUDY: usize = 1;

pub const NEW: usize = 2;

// Puts the entries of a site that the file has after those of the sites before it.
fn put_site(file: &[u8], site: u32, all: &mut [u32])
    requires { (site_answer file.now site ≡ Accepted) × (site < site_limit) × (length all.old ≡ entry_count * site_limit) }
    ensures { all.new ≡ over all.old (entry_count * site) (site_entries file.now site) }
{
    let mut entries = [0u32; ENTRIES];
    study::site_entries(file, site, &mut entries);
    lists::put(all, ENTRIES * site as usize, &entries);
}

// Puts the entries of the first sites, site after site, to the front.
fn put_sites(file: &[u8], sites: u32, all: &mut [u32])
    requires { (judgement file.now ≡ Accepted) × (sites ≡ count_of file.now) × (sites ≤ site_limit) × (length all.old ≡ entry_count * site_limit) }
    ensures { all.new ≡ over all.old 0 (entries_up_to file.now sites) }
{
    let mut site: u32 = 0;
    while site < sites {
        put_site(file, site, all);
        site += 1;
    }
}

// Writes the study file of today that has the sites of a good file.
fn convert(file: &[u8], sites: u32, written: &mut [u8; WRITTEN_BYTES]) -> usize
    requires { (judgement file.now ≡ Accepted) × (sites ≡ count_of file.now) × (sites ≤ site_limit) }
    ensures { Placed written.old 0 (converted file.now) written.new result }
{
    let mut all = [0u32; ALL_ENTRIES];
    put_sites(file, sites, &mut all);
    program_make::make(sites, &all, written)
}

// Says that there are more sites than a file of today holds.
fn say_many(name: &[u8], said: &mut [u8; SAID_BYTES]) -> usize
    ensures { Placed said.old 0 (named name.now many_text) said.new result }
{
    program_outcome::put_named(
        said,
        name,
        b"has more than 165 sites, which a study file holds at most: make two of its texts (icustudy show, make)\n",
    )
}

fn convert_file(
    name: &[u8],
    file: &[u8],
    written: &mut [u8; WRITTEN_BYTES],
    said: &mut [u8; SAID_BYTES],
) -> Lengths
    ensures left { Left (convert_of name.now file.now) [] said.old [] said.new result }
    ensures placed { Placed written.old 0 (convert_of name.now file.now).writes written.new result.writes }
{
    let answer = study::check(file);
    let Answer::Accepted = answer else {
        return Lengths::said(program_refusals::say_answer_of(name, answer, said));
    };
    let sites = study::count(file);
    if study::MOST_SITES < sites as usize {
        return Lengths::said(say_many(name, said));
    }
    let writes = convert(file, sites, written);
    Lengths::written(writes)
}

// What `icustudy convert` gives; its study was read into the area.
pub fn run(
    input: Input,
    words: &[u8],
    area: &[u8; AREA_BYTES],
    written: &mut [u8; WRITTEN_BYTES],
    said: &mut [u8; SAID_BYTES],
) -> Lengths
    ensures left { Left (convert_run input words.now area.now) [] said.old [] said.new result }
    ensures placed { Placed written.old 0 (convert_run input words.now area.now).writes written.new result.writes }
{
    let name = program_words::word(words, STUDY);
    let Some(size) = input else {
        return Lengths::said(program_outcome::say(name, Remark::Unread, said));
    };
    convert_file(name, program_outcome::front(area, size), written, said)
}
