// The decay number by itself, for C and Rust to link: so that it can be compared and timed over every m. The library does without it.
#![tactic(auto)]

ghost use Rattle.std.specs.Prelude.{◌≡◌};
ghost use Rattle.line_decay.specs.Decay.{decay_number};

#[unsafe(no_mangle)]
pub extern "C" fn icu_decay_number(m: u64) -> u64
    ensures { result ≡ decay_number m }
{
    line_decay::decay_number(m)
}
