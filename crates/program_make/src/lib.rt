// What `icustudy make` writes and says: a call for each text, and one that makes the file.
#![tactic(auto)]

ghost use Rattle.std.specs.Prelude.{◌≡◌, ◌*◌, ◌≤◌, length, ⊤};
ghost use Rattle.text.specs.Text.{Placed};
ghost use Rattle.layout.specs.declared.Worksheet.TheVariants.{Junction};
ghost use Rattle.layout.specs.Entries.{entry_count};
ghost use Rattle.study.specs.Study.{site_limit, file_of};
ghost use Rattle.program_outcome.specs.Outcome.{Tells};
ghost use Rattle.text_reader.specs.Reader.{reading, kept_unless_read};
ghost use Rattle.text_scan.specs.Scanning.{parsed};
ghost use Rattle.program_make.specs.Make.{said_by, with_site, text_says, text_adds, study_of};

use layout::{ENTRIES, Worksheet};
use program_outcome::{AREA_BYTES, Input, Remark, SAID_BYTES};
use study::MOST_ENTRIES;

// Room for the entries of all sites, and for what is written.
pub const ALL_ENTRIES: usize = MOST_ENTRIES;

pub const WRITTEN_BYTES: usize = study::MOST_BYTES;

// Puts a site's entries after those of the sites before it, where there is room for them.
fn put_site(all: &mut [u32], site: u32, entries: &[u32])
    ensures { all.new ≡ with_site all.old site entries.now }
{
    let at = ENTRIES * site as usize;
    if all.len() < at {
        return;
    }
    if all.len() - at < entries.len() {
        return;
    }
    lists::put(all, at, entries);
}

fn put_entries(all: &mut [u32; ALL_ENTRIES], site: u32, entries: &[u32; ENTRIES])
    ensures { all.new ≡ with_site all.old site entries.now }
{
    put_site(all, site, entries);
}

// Adds the entries of a text, or says what is wrong with it.
fn add_text(
    name: &[u8],
    text: &[u8],
    site: u32,
    all: &mut [u32; ALL_ENTRIES],
    said: &mut [u8; SAID_BYTES],
) -> Result<(), usize>
    ensures says { Tells (said_by (reading Junction text.now) name.now text.now) said.old said.new (λ _. ⊤) result }
    ensures all_after { all.new
        ≡ kept_unless_read (reading Junction text.now) (with_site all.old site (parsed text.now).entries) all.old }
{
    let mut entries = [0u32; ENTRIES];
    let reading = text_reader::read(Worksheet::Junction, text, &mut entries);
    match reading {
        Ok(()) => {
            put_entries(all, site, &entries);
            Ok(())
        }
        Err(_) => Err(program_refusals::say_reading(name, text, reading, said)),
    }
}

// Adds the entries of the text in a file that was read into the area, or says what is wrong with it.
pub fn add(
    name: &[u8],
    input: Input,
    area: &[u8; AREA_BYTES],
    site: u32,
    all: &mut [u32; ALL_ENTRIES],
    said: &mut [u8; SAID_BYTES],
) -> Result<(), usize>
    ensures says { Tells (text_says input name.now area.now) said.old said.new (λ _. ⊤) result }
    ensures all_after { all.new ≡ text_adds input area.now site all.old }
{
    let Some(size) = input else {
        return Err(program_outcome::say(name, Remark::Unread, said));
    };
    add_text(name, program_outcome::front(area, size), site, all, said)
}

// Writes the study file of some sites' entries.
fn write_entries(sites: usize, entries: &[u32], written: &mut [u8; WRITTEN_BYTES]) -> usize
    requires { (sites ≤ site_limit) × (length entries.now ≡ entry_count * sites) }
    ensures { Placed written.old 0 (file_of entries.now) written.new result }
{
    study::write(entries, written);
    study::file_bytes(sites as u32)
}

fn write_first(sites: usize, all: &[u32], written: &mut [u8; WRITTEN_BYTES]) -> usize
    requires { length all.now ≡ entry_count * site_limit }
    ensures { Placed written.old 0 (study_of sites all.now) written.new result }
{
    if study::MOST_SITES < sites {
        return write_entries(study::MOST_SITES, all, written);
    }
    let end = ENTRIES * sites;
    write_entries(sites, &all[..end], written)
}

// Makes the study file of the first sites; how many bytes it has.
pub fn make(sites: u32, all: &[u32; ALL_ENTRIES], written: &mut [u8; WRITTEN_BYTES]) -> usize
    ensures { Placed written.old 0 (study_of sites all.now) written.new result }
{
    write_first(sites as usize, all, written)
}
