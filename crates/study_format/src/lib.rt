// The format of study files: an opening, the number of sites, an offset for each site, a block of entries for each site.
//
// A format says which bytes open a file, how many entries a block has, and how many sites a file has at most; a file is
// judged by its format.
#![tactic(auto)]

ghost use Rattle.std.specs.Prelude.{◌≡◌, ◌+◌, ◌*◌, ◌≤◌, ◌<◌, length};
ghost use Rattle.study_numbers.specs.Numbers.{number_bytes, number_limit};
ghost use Rattle.answers.specs.declared.Refusal.TheVariants.{File};
ghost use Rattle.answers.specs.declared.Answer.TheVariants.{Refused};
ghost use Rattle.study_format.specs.Fields.{offsets_place, offset_place, sites_of, whole};

use answers::{Answer, Refusal};
use study_numbers::NUMBER_BYTES;

// The number of sites stands past the opening, which is as long as a number.
pub const COUNT_PLACE: usize = NUMBER_BYTES;

// The offsets stand past the number of sites.
pub const OFFSETS_PLACE: usize = COUNT_PLACE + NUMBER_BYTES;

// Where a file is refused that has too little room to be written.
pub const ROOM_PLACE: usize = 4;

#[derive(Clone, Copy)]
pub struct Format {
    pub opening: [u8; NUMBER_BYTES],
    // The entries of a site's block.
    pub entries: usize,
    // The most sites that a file holds.
    pub most: usize,
    // What serves every format: the opening is as long as a number, there is something to hold, and the largest file's end is a u32.
    pub ghost opening_long: { length opening ≡ number_bytes },
    pub ghost some_entries: { 0 < entries },
    pub ghost some_sites: { 0 < most },
    pub ghost fits: { offset_place most + number_bytes * entries * most < number_limit },
}

// The number of sites as it stands in the file.
pub fn sites_of(file: &[u8]) -> usize
    requires { offsets_place ≤ length file.now }
    ensures { (result ≡ sites_of file.now) × (result < number_limit) }
{
    study_numbers::read(file, COUNT_PLACE) as usize
}

pub fn refused(place: usize) -> Answer
    requires { place < number_limit }
    ensures { result ≡ Refused File place }
{
    Answer::Refused(Refusal::File, place as u32)
}

// A field that is cut short is refused at the file's end.
fn check_whole(file: &[u8], at: usize) -> Answer
    requires { at + number_bytes < number_limit }
    ensures { result ≡ whole file.now at }
{
    if file.len() < at + NUMBER_BYTES {
        return refused(file.len());
    }
    Answer::Accepted
}

impl Format {
    ghost use Rattle.study_format.specs.Fields.{starts_with};
    ghost use Rattle.study_format.specs.Format.{block_bytes, block_place, file_bytes};
    ghost use Rattle.study_format.specs.Format.{opening_field, count_field, offset_field, offset_fields, ending, judgement};

    // A site's block has a number for each entry.
    pub fn block_bytes(self) -> usize
        ensures { result ≡ block_bytes self }
    {
        NUMBER_BYTES * self.entries
    }

    // The offset of a site's block.
    pub fn block_place(self, sites: usize, site: usize) -> usize
        requires { (sites < number_limit) × (site ≤ sites) }
        ensures { result ≡ block_place self sites site }
    {
        OFFSETS_PLACE + NUMBER_BYTES * sites + NUMBER_BYTES * self.entries * site
    }

    // A file ends where one block more would start.
    pub fn file_bytes(self, sites: usize) -> usize
        requires { sites < number_limit }
        ensures { result ≡ file_bytes self sites }
    {
        self.block_place(sites, sites)
    }

    // Whether a file begins with the format's opening.
    pub fn opens(self, file: &[u8]) -> bool
        ensures { result ≡ starts_with file.now self.opening }
    {
        file.starts_with(&self.opening)
    }

    fn check_opening(self, file: &[u8]) -> Answer
        ensures { result ≡ opening_field self file.now }
    {
        let whole = check_whole(file, 0);
        let Answer::Accepted = whole else {
            return whole;
        };
        if !self.opens(file) {
            return refused(0);
        }
        Answer::Accepted
    }

    fn check_count(self, file: &[u8]) -> Answer
        ensures { result ≡ count_field self file.now }
    {
        let whole = check_whole(file, COUNT_PLACE);
        let Answer::Accepted = whole else {
            return whole;
        };
        if self.most < sites_of(file) {
            return refused(COUNT_PLACE);
        }
        Answer::Accepted
    }

    fn check_offset(self, file: &[u8], sites: usize, site: usize) -> Answer
        requires { (sites ≤ self.most) × (site < sites) }
        ensures { result ≡ offset_field self file.now sites site }
    {
        let at = OFFSETS_PLACE + NUMBER_BYTES * site;
        let whole = check_whole(file, at);
        let Answer::Accepted = whole else {
            return whole;
        };
        if study_numbers::read(file, at) as usize != self.block_place(sites, site) {
            return refused(at);
        }
        Answer::Accepted
    }

    fn check_offsets(self, file: &[u8], sites: usize) -> Answer
        requires { sites ≤ self.most }
        ensures { result ≡ offset_fields self file.now sites }
    {
        for site in 0..sites {
            let answer = self.check_offset(file, sites, site);
            let Answer::Accepted = answer else {
                return answer;
            };
        }
        Answer::Accepted
    }

    fn check_ending(self, file: &[u8], sites: usize) -> Answer
        requires { sites ≤ self.most }
        ensures { result ≡ ending self file.now sites }
    {
        let end = self.file_bytes(sites);
        let length = file.len();
        if length < end {
            return refused(length);
        }
        let extra = length - end;
        if 0 < extra {
            return refused(end);
        }
        Answer::Accepted
    }

    // Judges any bytes, of any length, as a study file.
    pub fn check(self, file: &[u8]) -> Answer
        ensures { result ≡ judgement self file.now }
    {
        let opening = self.check_opening(file);
        let Answer::Accepted = opening else {
            return opening;
        };
        let count = self.check_count(file);
        let Answer::Accepted = count else {
            return count;
        };
        let sites = sites_of(file);
        let offsets = self.check_offsets(file, sites);
        let Answer::Accepted = offsets else {
            return offsets;
        };
        self.check_ending(file, sites)
    }
}
