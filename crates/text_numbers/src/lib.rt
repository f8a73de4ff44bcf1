// Numbers in a text: what a word of digits spells.
#![tactic(auto)]

ghost use Rattle.std.specs.Prelude.{◌≡◌, ◌≤◌};
ghost use Rattle.text_numbers.specs.Numbers.{not_number, next_number, digits_of, number_of};

// No number of 32 bits reaches it: what digits spell that make a larger number.
pub const TOO_LARGE: u64 = u32::MAX as u64 + 1;

// What a word spells that is no number.
pub const NOT_NUMBER: u64 = TOO_LARGE + 1;

fn next_number(number: u64, byte: u8) -> u64
    requires { number ≤ not_number }
    ensures { (result ≡ next_number number byte) × (result ≤ not_number) }
{
    if byte < b'0' {
        return NOT_NUMBER;
    }
    if b'9' < byte {
        return NOT_NUMBER;
    }
    if TOO_LARGE <= number {
        return number;
    }
    let next = 10 * number + (byte - b'0') as u64;
    if TOO_LARGE <= next {
        return TOO_LARGE;
    }
    next
}

fn digits_of(word: &[u8]) -> u64
    ensures { result ≡ digits_of word.now }
{
    let mut number: u64 = 0;
    let mut n: usize = 0;
    while n < word.len() {
        number = next_number(number, word[n]);
        n += 1;
    }
    number
}

// The number that a word spells; TOO_LARGE if it is one of more than 32 bits, NOT_NUMBER if it is none.
pub fn number_of(word: &[u8]) -> u64
    ensures { result ≡ number_of word.now }
{
    if word.len() == 0 {
        return NOT_NUMBER;
    }
    digits_of(word)
}
