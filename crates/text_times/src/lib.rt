// Times in a text, with their unit, and factors, without one: read, and put at a place.
#![tactic(auto)]

ghost use Rattle.std.specs.Prelude.{◌≡◌, ◌+◌, ◌≤◌, ◌<◌, ◌^◌, length};
ghost use Rattle.text.specs.Text.{Placed};
ghost use Rattle.text_times.specs.Times.{second, point_in, scaled, thousandths, together, decimal_of, from_end, time_of};
ghost use Rattle.text_times.specs.Times.{decimals, fraction_text, decimal_text, time_text};
ghost use Rattle.text_times.specs.Working.{fraction_most, decimal_most, time_most};
ghost use Rattle.text_numbers.specs.Numbers.{too_large, not_number};

use text_numbers::{NOT_NUMBER, TOO_LARGE};

// A second has so many milliseconds, and one so many thousandths.
const SECOND: u32 = 1_000;

// A point and three digits.
const FRACTION_MOST: usize = 4;

// The most bytes of a time: its seconds, what stands past them, and the unit.
pub const TIME_MOST: usize = text::DIGITS_MOST + FRACTION_MOST + 1;

fn point_in(word: &[u8]) -> usize
    ensures { (result ≡ point_in word.now) × (result ≤ length word.now) }
{
    let mut at: usize = 0;
    while at < word.len() {
        if word[at] == b'.' {
            return at;
        }
        at += 1;
    }
    at
}

fn scaled(number: u64, digits: usize) -> u64
    requires { number < too_large }
    ensures { result ≡ scaled number digits }
{
    match digits {
        1 => 100 * number,
        2 => 10 * number,
        3 => number,
        _ => NOT_NUMBER,
    }
}

fn thousandths(word: &[u8]) -> u64
    ensures { result ≡ thousandths word.now }
{
    let number = text_numbers::number_of(word);
    if TOO_LARGE <= number {
        return NOT_NUMBER;
    }
    scaled(number, word.len())
}

fn together(seconds: u64, part: u64) -> u64
    ensures { result ≡ together seconds part }
{
    if TOO_LARGE <= seconds {
        if seconds < part {
            return part;
        }
        return seconds;
    }
    if TOO_LARGE <= part {
        return part;
    }
    let time = SECOND as u64 * seconds + part;
    if TOO_LARGE <= time {
        return TOO_LARGE;
    }
    time
}

// The thousandths that a word without a unit spells; TOO_LARGE if they need more than 32 bits, NOT_NUMBER if it is no number.
pub fn decimal_of(word: &[u8]) -> u64
    ensures { result ≡ decimal_of word.now }
{
    let at = point_in(word);
    if at == word.len() {
        return together(text_numbers::number_of(word), 0);
    }
    let past = at + 1;
    let seconds = text_numbers::number_of(&word[..at]);
    together(seconds, thousandths(&word[past..]))
}

fn from_end(word: &[u8], n: usize) -> u8
    requires { 0 < n }
    ensures { result ≡ from_end word.now n }
{
    if word.len() < n {
        return 0;
    }
    word[word.len() - n]
}

// The milliseconds that a word with its unit spells; TOO_LARGE if they need more than 32 bits, NOT_NUMBER if it is no time.
pub fn time_of(word: &[u8]) -> u64
    ensures { result ≡ time_of word.now }
{
    if from_end(word, 1) != b's' {
        return NOT_NUMBER;
    }
    if from_end(word, 2) == b'm' {
        let end = word.len() - 2;
        return text_numbers::number_of(&word[..end]);
    }
    let end = word.len() - 1;
    decimal_of(&word[..end])
}

fn put_decimals(out: &mut [u8], at: usize, part: u32) -> usize
    requires { (part < second) × (at + 3 ≤ length out.old) }
    ensures { Placed out.old at (decimals part) out.new result × (result ≤ at + 3) }
{
    let tenths = text::put_digit(out, at, part / 100);
    if part % 100 == 0 {
        return tenths;
    }
    let hundredths = text::put_digit(out, tenths, part / 10 % 10);
    if part % 10 == 0 {
        return hundredths;
    }
    text::put_digit(out, hundredths, part % 10)
}

// Nothing for no thousandths, else a point and their digits.
fn put_fraction(out: &mut [u8], at: usize, part: u32) -> usize
    requires { (part < second) × (at + fraction_most ≤ length out.old) }
    ensures { Placed out.old at (fraction_text part) out.new result × (result ≤ at + fraction_most) }
{
    if part == 0 {
        return at;
    }
    let pointed = text::put_byte(out, at, b'.');
    put_decimals(out, pointed, part)
}

// Thousandths as whole ones with their decimals.
pub fn put_decimal(out: &mut [u8], at: usize, number: u32) -> usize
    requires { at + decimal_most ≤ length out.old }
    ensures { Placed out.old at (decimal_text number) out.new result × (result ≤ at + decimal_most) }
{
    let whole = text::put_number(out, at, number / SECOND);
    put_fraction(out, whole, number % SECOND)
}

// A time in seconds, with its unit.
pub fn put_time(out: &mut [u8], at: usize, time: u32) -> usize
    requires { at + time_most ≤ length out.old }
    ensures { Placed out.old at (time_text time) out.new result × (result ≤ at + time_most) }
{
    let end = put_decimal(out, at, time);
    text::put_byte(out, end, b's')
}
