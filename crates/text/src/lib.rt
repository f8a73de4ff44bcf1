// Text in a lent area: bytes and decimal numbers, put at a place. Each call tells the place past what it put.
#![tactic(auto)]

ghost use Rattle.std.specs.Prelude.{[], ◌∷◌, ◌+◌, ◌≤◌, ◌<◌, length};
ghost use Rattle.text.specs.Text.{digit, decimal, number_then, Placed};

// The most digits of a number of 32 bits.
pub const DIGITS_MOST: usize = 10;

pub fn put_byte(out: &mut [u8], at: usize, byte: u8) -> usize
    requires { at < length out.old }
    ensures { Placed out.old at (byte ∷ []) out.new result }
{
    out[at] = byte;
    at + 1
}

pub fn put_bytes(out: &mut [u8], at: usize, bytes: &[u8]) -> usize
    requires { at + length bytes.now ≤ length out.old }
    ensures { Placed out.old at bytes.now out.new result }
{
    let end = at + bytes.len();
    out[at..end].copy_from_slice(bytes);
    end
}

// A digit, of a number below ten.
pub fn put_digit(out: &mut [u8], at: usize, number: u32) -> usize
    requires { (at < length out.old) × (number < 10) }
    ensures { Placed out.old at (digit number ∷ []) out.new result }
{
    put_byte(out, at, b'0' + number as u8)
}

// A number in decimal: what stands before its last digit, then that digit.
pub fn put_number(out: &mut [u8], at: usize, number: u32) -> usize
    requires { at + length (decimal number) ≤ length out.old }
    ensures { Placed out.old at (decimal number) out.new result }
{
    if number < 10 {
        return put_digit(out, at, number);
    }
    let end = put_number(out, at, number / 10);
    put_digit(out, end, number % 10)
}

// A number in decimal and the byte that parts it from what follows.
pub fn put_number_then(out: &mut [u8], at: usize, number: u32, byte: u8) -> usize
    requires { at + length (number_then number byte) ≤ length out.old }
    ensures { Placed out.old at (number_then number byte) out.new result }
{
    let end = put_number(out, at, number);
    put_byte(out, end, byte)
}
