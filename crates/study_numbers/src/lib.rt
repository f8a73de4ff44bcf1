// Little-endian u32s in lent bytes.
#![tactic(auto)]

ghost use Rattle.std.specs.Prelude.{◌≡◌, ◌+◌, ◌*◌, ◌≤◌, ◌<◌, length};
ghost use Rattle.lists.specs.Lists.{over};
ghost use Rattle.study_numbers.specs.Numbers.{number_bytes, number_at, numbers_in, bytes_of, packed};

// The bytes of a number.
pub const NUMBER_BYTES: usize = 4;

// The number whose four bytes stand at a place.
pub fn read(bytes: &[u8], at: usize) -> u32
    requires { at + number_bytes ≤ length bytes.now }
    ensures { result ≡ number_at bytes.now at }
{
    u32::from_le_bytes([bytes[at], bytes[at + 1], bytes[at + 2], bytes[at + 3]])
}

// Writes a number's four bytes at a place; every other byte stays.
pub fn write(bytes: &mut [u8], at: usize, number: u32)
    requires { at + number_bytes ≤ length bytes.old }
    ensures { bytes.new ≡ over bytes.old at (bytes_of number) }
{
    let four = number.to_le_bytes();
    bytes[at..at + NUMBER_BYTES].copy_from_slice(&four);
}

// Fills the lent numbers from the front of the bytes.
pub fn read_all(bytes: &[u8], numbers: &mut [u32])
    requires { number_bytes * length numbers.old ≤ length bytes.now }
    ensures { numbers.new ≡ numbers_in bytes.now (length numbers.old) }
{
    for (i, number) in numbers.iter_mut().enumerate() {
        *number = read(bytes, NUMBER_BYTES * i);
    }
}

// Writes the numbers one after the other from a place on; every other byte stays.
pub fn write_all(numbers: &[u32], bytes: &mut [u8], at: usize)
    requires { at + number_bytes * length numbers.now ≤ length bytes.old }
    ensures { bytes.new ≡ over bytes.old at (packed numbers.now) }
{
    for (i, number) in numbers.iter().enumerate() {
        write(bytes, at + NUMBER_BYTES * i, *number);
    }
}
