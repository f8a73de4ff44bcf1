// A site's entries as they were before movements had a measured lane factor, made into those of today.
#![tactic(auto)]

ghost use Rattle.std.specs.Prelude.{◌≡◌, ◌<◌, length};
ghost use Rattle.layout.specs.Entries.{entry_count};
ghost use Rattle.study_before.specs.Before.{entries_before, widened_at, widened};

use kinds::LaneFactor;

// The entries that each movement had.
const MOVEMENT_BEFORE: usize = 5;

// What all movements have got since.
const ADDED: usize = layout::APPROACHES_FROM - MOVEMENT_BEFORE * layout::MOVEMENTS;

// The entries that a site had.
pub const ENTRIES_BEFORE: usize = layout::ENTRIES - ADDED;

// What stands at a place today: no lane factor was measured, every other entry is the one of before.
fn widened_at(before: &[u32], i: usize) -> u32
    requires { (length before.now ≡ entries_before) × (i < entry_count) }
    ensures { result ≡ widened_at before.now i }
{
    if layout::APPROACHES_FROM <= i {
        return before[i - ADDED];
    }
    let number = i % layout::MOVEMENT_ENTRIES;
    if number == layout::FACTOR_NO {
        return LaneFactor::LIMITS.usual;
    }
    before[MOVEMENT_BEFORE * (i / layout::MOVEMENT_ENTRIES) + number]
}

// The entries of today that entries of before are.
pub fn widen(before: &[u32], entries: &mut [u32])
    requires { (length before.now ≡ entries_before) × (length entries.old ≡ entry_count) }
    ensures { entries.new ≡ widened before.now }
{
    for (i, entry) in entries.iter_mut().enumerate() {
        *entry = widened_at(before, i);
    }
}
