// An open study that offices share: the entries of a site as a part of the blocks.
//
// The definitions of what each call on it answers and leaves stand in specs/.
#![tactic(auto)]

ghost use Rattle.std.specs.Prelude.{◌≡◌, ◌<◌, length};
ghost use Rattle.layout.specs.Entries.{entry_count};
ghost use Rattle.layout.specs.Open.{place_count, blocks_count};
ghost use Rattle.open_rules.specs.Open.{block_at};

// The owner of a place that is free.
pub const FREE: u32 = 0;

// The entries of the site at a place, a part of the lent blocks.
pub fn block(blocks: &[u32], site: u32) -> &[u32]
    requires { (length blocks.now ≡ blocks_count) × (site < place_count) }
    ensures { (result.now ≡ block_at blocks.now site) × (length result.now ≡ entry_count) }
{
    let from = layout::ENTRIES * site as usize;
    let end = from + layout::ENTRIES;
    &blocks[from..end]
}
