// A study file of today with other entries for one of its sites.
#![tactic(auto)]

ghost use Rattle.std.specs.Prelude.{◌≡◌, ◌≤◌, length};
ghost use Rattle.layout.specs.Entries.{entry_count};
ghost use Rattle.answers.specs.declared.Answer.TheVariants.{Accepted};
ghost use Rattle.text.specs.Text.{Placed};
ghost use Rattle.study_format.specs.Format.{block_place};
ghost use Rattle.study.specs.Study.{icut, format_of, sites_of, site_answer};
ghost use Rattle.study_changed.specs.Changed.{with_entries};

// Where the block of a site stands that the file has.
fn site_place(file: &[u8], site: u32) -> usize
    requires { (site_answer file.now site ≡ Accepted) × (format_of file.now ≡ icut) }
    ensures { result ≡ block_place icut (sites_of file.now) site }
{
    study::ICUT.block_place(study_format::sites_of(file), site as usize)
}

// Puts the file with these entries for a site that it has to the front of the lent bytes.
pub fn put(file: &[u8], site: u32, entries: &[u32], out: &mut [u8; study::MOST_BYTES]) -> usize
    requires { (site_answer file.now site ≡ Accepted) × (format_of file.now ≡ icut) × (length entries.now ≡ entry_count) }
    ensures { Placed out.old 0 (with_entries file.now site entries.now) out.new result }
{
    let at = site_place(file, site);
    let end = text::put_bytes(out, 0, file);
    study_numbers::write_all(entries, out, at);
    end
}
