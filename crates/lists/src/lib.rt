// Numbers written over a part of a lent list.
#![tactic(auto)]

ghost use Rattle.std.specs.Prelude.{◌≡◌, ◌+◌, ◌≤◌, length};
ghost use Rattle.lists.specs.Lists.{over};

// Writes the part from a place on; every other number stays.
pub fn put(list: &mut [u32], at: usize, part: &[u32])
    requires { at + length part.now ≤ length list.old }
    ensures { list.new ≡ over list.old at part.now }
{
    // Number by number: over `copy_from_slice`, what C links would need `memmove` from outside.
    for i in 0..part.len() {
        list[at + i] = part[i];
    }
}
