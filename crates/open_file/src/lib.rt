// The file of an open study: four bytes that open it, the owners of its places, and their blocks.
#![tactic(auto)]

ghost use Rattle.std.specs.Prelude.{◌≡◌, true, ◌+◌, ◌*◌, ◌≤◌, length, drop};
ghost use Rattle.text.specs.Text.{Placed};
ghost use Rattle.study_numbers.specs.Numbers.{number_bytes, numbers_in};
ghost use Rattle.open_file.specs.File.{is_open, owners_in, blocks_in, open_file};

use layout::{BLOCKS, PLACES};
use study_numbers::NUMBER_BYTES;

// What opens a file, as long as a number.
const OPENS: [u8; NUMBER_BYTES] = *b"ICUO";

const OWNERS_PLACE: usize = NUMBER_BYTES;

const BLOCKS_PLACE: usize = OWNERS_PLACE + NUMBER_BYTES * PLACES;

pub const OPEN_BYTES: usize = BLOCKS_PLACE + NUMBER_BYTES * BLOCKS;

// Whether any bytes, of any length, are the file of an open study.
pub fn is_open(file: &[u8]) -> bool
    ensures { result ≡ is_open file.now }
{
    if file.len() != OPEN_BYTES {
        return false;
    }
    study_numbers::read(file, 0) == study_numbers::read(&OPENS, 0)
}

// Fills the lent numbers from a place of the file on.
fn read_from(file: &[u8], at: usize, numbers: &mut [u32])
    requires { at + number_bytes * length numbers.old ≤ length file.now }
    ensures { numbers.new ≡ numbers_in (drop at file.now) (length numbers.old) }
{
    study_numbers::read_all(&file[at..], numbers);
}

pub fn owners_in(file: &[u8], owners: &mut [u32; PLACES])
    requires { is_open file.now ≡ true }
    ensures { owners.new ≡ owners_in file.now }
{
    read_from(file, OWNERS_PLACE, owners);
}

pub fn blocks_in(file: &[u8], blocks: &mut [u32; BLOCKS])
    requires { is_open file.now ≡ true }
    ensures { blocks.new ≡ blocks_in file.now }
{
    read_from(file, BLOCKS_PLACE, blocks);
}

// Writes the file over the lent bytes, which it fills, and tells its length.
pub fn write(owners: &[u32; PLACES], blocks: &[u32; BLOCKS], out: &mut [u8; OPEN_BYTES]) -> usize
    ensures { Placed out.old 0 (open_file owners.now blocks.now) out.new result }
{
    text::put_bytes(out, 0, &OPENS);
    study_numbers::write_all(owners, out, OWNERS_PLACE);
    study_numbers::write_all(blocks, out, BLOCKS_PLACE);
    OPEN_BYTES
}
