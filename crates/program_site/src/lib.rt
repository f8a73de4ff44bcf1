// The site of a study file that an argument names.
#![tactic(auto)]

ghost use Rattle.std.specs.Prelude.{◌≡◌, ◌+◌, ◌≤◌, length};
ghost use Rattle.text.specs.Text.{Placed};
ghost use Rattle.program_outcome.specs.Outcome.{named};
ghost use Rattle.program_site.specs.Site.{site_of, sought, sites_text, no_site_text};
ghost use Rattle.program_site.specs.Working.{sought_text};
ghost use Rattle.program_site.specs.Working.{entries_sought, sites_most};

use answers::{Answer, Refusal};
use program_outcome::SAID_BYTES;

// Past any site of a study: the largest number of 32 bits.
const NO_SITE: u32 = (text_numbers::TOO_LARGE - 1) as u32;

// Why there is no site that a word names.
#[derive(Clone, Copy)]
pub enum NoSite {
    // The file has no such site: how many it has.
    Missing(u32),
    // The file is badly laid out: the refusal, and its place.
    Bad(Refusal, u32),
}

// A site's number from 1, as a study counts it, from 0; past any site, if there can be none.
#[tactic(auto, unfolding(crate::specs::Site::site_of))]
pub fn site_of(number: u64) -> u32
    ensures { result ≡ site_of number }
{
    if number == 0 {
        return NO_SITE;
    }
    if text_numbers::TOO_LARGE <= number {
        return NO_SITE;
    }
    (number - 1) as u32
}

// Reads the entries of the site that a word names.
pub fn read_site(
    file: &[u8],
    word: &[u8],
    entries: &mut [u32; layout::ENTRIES],
) -> Result<u32, NoSite>
    ensures value { result ≡ sought file.now word.now }
    ensures entries_after { entries.new
        ≡ entries_sought (sought file.now word.now) file.now entries.old }
{
    let answer = study::check(file);
    if let Answer::Refused(why, place) = answer {
        return Err(NoSite::Bad(why, place));
    }
    let site = site_of(text_numbers::number_of(word));
    let sites = study::count(file);
    if sites <= site {
        return Err(NoSite::Missing(sites));
    }
    study::site_entries(file, site, entries);
    Ok(site)
}

fn put_sites(out: &mut [u8], at: usize, sites: u32) -> usize
    requires { at + sites_most ≤ length out.old }
    ensures { Placed out.old at (sites_text sites) out.new result × (result ≤ at + sites_most) }
{
    let counted = text_phrases::put_numbered(out, at, b"the study has ", sites);
    if sites == 1 {
        return text::put_bytes(out, counted, b" site\n");
    }
    text::put_bytes(out, counted, b" sites\n")
}

// Says of a word how many sites the study has, since it names none of them.
fn say_sites(word: &[u8], sites: u32, said: &mut [u8; SAID_BYTES]) -> usize
    ensures { Placed said.old 0 (named word.now (sites_text sites)) said.new result }
{
    let at = program_outcome::put_opening(said, word);
    put_sites(said, at, sites)
}

// Says of the word, or of the file, why there is no such site.
fn say_no_site(why: NoSite, name: &[u8], word: &[u8], said: &mut [u8; SAID_BYTES]) -> usize
    ensures { Placed said.old 0 (no_site_text why name.now word.now) said.new result }
{
    match why {
        NoSite::Missing(sites) => say_sites(word, sites, said),
        NoSite::Bad(why, place) => {
            program_refusals::say_answer_of(name, Answer::Refused(why, place), said)
        }
    }
}

// Says why there is no such site; nothing where there is.
pub fn say_site(
    sought: Result<u32, NoSite>,
    name: &[u8],
    word: &[u8],
    said: &mut [u8; SAID_BYTES],
) -> usize
    ensures { Placed said.old 0 (sought_text sought name.now word.now) said.new result }
{
    match sought {
        Ok(_) => 0,
        Err(why) => say_no_site(why, name, word, said),
    }
}
