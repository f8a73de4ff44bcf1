// The decay number: e^(-m/7200) in billionths.
#![tactic(auto)]

ghost use Rattle.std.specs.Prelude.{◌≡◌, ◌+◌, ◌*◌, ◌/◌, ◌<◌, ◌≤◌, eqb};
ghost use Rattle.line_decay.specs.Decay.{term, turns, decay_number};

// The whole, in billionths.
const WHOLE: u32 = 1_000_000_000;

// After each of these the number has faded by e^-1; after sixteen it is 0.
const FOLD: u64 = 7_200;

const END: u64 = 16 * FOLD;

// Terms 1 to 12 are taken off and added two by two.
const PAIRS: u32 = 6;

// Of each pair, terms 2j + 1 and 2j + 2, the least r whose first one is not 0.
const FIRST: [u32; PAIRS as usize] = [1, 14, 298, 1_261, 2_992, 5_383];

// Whether term 2j + 1 is 0: r alone tells, and nothing has to wait for a division.
fn ended(r: u32, j: u32) -> bool
    requires { j < 6 }
    ensures { result ≡ eqb (term r (2 * j + 1)) 0 }
{
    r < FIRST[j as usize]
}

// Term k + 1 from term k.
fn next_term(last: u32, r: u32, k: u32) -> u32
    requires { (r < 7200) × (k < 12) × (last ≡ term r k) }
    ensures { result ≡ term r (k + 1) }
{
    (last as u64 * r as u64 / (FOLD * (k as u64 + 1))) as u32
}

// Terms 0 to 12, added and subtracted in turn. Once one is 0 so are all after it, and none of them is worked out.
fn series(r: u32) -> u32
    requires { r < 7200 }
    ensures { result ≡ turns r 6 }
{
    let mut term = WHOLE;
    let mut sum = WHOLE;
    for j in 0..PAIRS {
        if ended(r, j) {
            return sum;
        }
        let odd = next_term(term, r, 2 * j);
        term = next_term(odd, r, 2 * j + 1);
        sum = sum - odd + term;
    }
    sum
}

// One fold more of e^-1, down; of a number of 32 bits the compiler makes a shorter quotient.
fn fade(d: u32) -> u32
    requires { d ≤ 1_000_000_000 }
    ensures { (result ≡ d * 367_879_441 / 1_000_000_000) × (result ≤ d) }
{
    (d as u64 * 367_879_441 / WHOLE as u64) as u32
}

// The decay number of any m.
pub fn decay_number(m: u64) -> u64
    ensures { (result ≡ decay_number m) × (result ≤ 1_000_000_000) }
{
    if END <= m {
        return 0;
    }
    let c = m / FOLD;
    let mut d = series((m % FOLD) as u32);
    for _ in 0..c {
        d = fade(d);
    }
    d as u64
}
