// The values of entries in a text: a time with its unit, a factor with its decimals, or a whole number.
#![tactic(auto)]

ghost use Rattle.std.specs.Prelude.{◌≡◌, ◌+◌, ◌≤◌, length};
ghost use Rattle.text.specs.Text.{Placed};
ghost use Rattle.text_values.specs.Values.{form_of, value_from, value_of, value_text};
ghost use Rattle.text_values.specs.Working.{value_most};

use kinds::Kind;
use text_numbers::TOO_LARGE;

// The most bytes of a value: those of a time.
pub const VALUE_MOST: usize = text_times::TIME_MOST;

// What can be wrong with a text.
#[derive(Clone, Copy)]
pub enum Trouble {
    Unknown,
    NoTitle,
    NotOfTitle,
    Twice,
    NotNumber,
    NotTime,
    NotFactor,
    TooLarge,
    Ends,
    TooLong,
    BadTitle,
}

// What a word is as a value: a number of 32 bits, or none, and why.
#[derive(Clone, Copy)]
pub enum Value {
    Is(u32),
    Not(Trouble),
}

// How the values of a kind are written: whole, as times in milliseconds, or as factors in thousandths.
#[derive(Clone, Copy)]
pub enum Form {
    Number,
    Time,
    Factor,
}

impl Form {
    fn of(kind: Kind) -> Form
        ensures { result ≡ form_of kind }
    {
        match kind {
            Kind::Lanes => Form::Number,
            Kind::Volume => Form::Number,
            Kind::IdealFlow => Form::Number,
            Kind::LostTime => Form::Time,
            Kind::MinimumGreen => Form::Time,
            Kind::LaneFactor => Form::Factor,
            Kind::SharedLane => Form::Number,
            Kind::Pedestrians => Form::Number,
            Kind::PushButton => Form::Number,
            Kind::PedestrianTime => Form::Time,
            Kind::FreeRight => Form::Number,
            Kind::Cycle => Form::Number,
            Kind::Storage => Form::Number,
            Kind::TravelTime => Form::Time,
        }
    }
}

fn value_from(why: Trouble, number: u64) -> Value
    ensures { result ≡ value_from why number }
{
    if number < TOO_LARGE {
        return Value::Is(number as u32);
    }
    if number == TOO_LARGE {
        return Value::Not(Trouble::TooLarge);
    }
    Value::Not(why)
}

// What a word is as the value of an entry of that kind.
pub fn value_of(kind: Kind, word: &[u8]) -> Value
    ensures { result ≡ value_of kind word.now }
{
    match Form::of(kind) {
        Form::Number => value_from(Trouble::NotNumber, text_numbers::number_of(word)),
        Form::Time => value_from(Trouble::NotTime, text_times::time_of(word)),
        Form::Factor => value_from(Trouble::NotFactor, text_times::decimal_of(word)),
    }
}

// A value of an entry of that kind, put at a place: times in seconds, with their unit, factors with their decimals.
pub fn put_value(out: &mut [u8], at: usize, kind: Kind, value: u32) -> usize
    requires { at + value_most ≤ length out.old }
    ensures { Placed out.old at (value_text kind value) out.new result × (result ≤ at + value_most) }
{
    match Form::of(kind) {
        Form::Number => text::put_number(out, at, value),
        Form::Time => text_times::put_time(out, at, value),
        Form::Factor => text_times::put_decimal(out, at, value),
    }
}
