// The words of a junction's text, in one table: the titles, then the kinds of the entries that stand under them.
#![tactic(auto)]

ghost use Rattle.std.specs.Prelude.{◌≡◌, true, ◌+◌, ◌*◌, ◌≤◌, ◌<◌, length, IfSome};
ghost use Rattle.text.specs.Text.{Placed};
ghost use Rattle.layout.specs.Entries.{entry_count};
ghost use Rattle.text_names.specs.Names.{title_count, kind_count, word_count, word_width, word_byte, word_of, padded, is_word, row_of};
ghost use Rattle.text_names.specs.Names.{number_under, has_kind, entry_in, title_of, kind_of, is_first, is_last, entry_for, entry_named};
ghost use Rattle.text_names.specs.Working.{OfTitle, OfEntry};

// The titles: each movement's, each approach's, the junction's.
pub const TITLES: u32 = (layout::MOVEMENTS + layout::APPROACHES + 1) as u32;

// The junction has the cycle alone.
const JUNCTION_ENTRIES: usize = layout::ENTRIES - layout::CYCLE_ENTRY;

const KINDS: u32 = (layout::MOVEMENT_ENTRIES + layout::APPROACH_ENTRIES + JUNCTION_ENTRIES) as u32;

pub const WORDS: u32 = TITLES + KINDS;

pub const WIDTH: usize = 16;

const TABLE: [u8; WIDTH * WORDS as usize] = *b"EBL             \
    EBT             \
    EBR             \
    WBL             \
    WBT             \
    WBR             \
    NBL             \
    NBT             \
    NBR             \
    SBL             \
    SBT             \
    SBR             \
    EB              \
    WB              \
    NB              \
    SB              \
    junction        \
    lanes           \
    volume          \
    ideal-flow      \
    lost-time       \
    minimum-green   \
    lane-factor     \
    shared-lane     \
    pedestrians     \
    push-button     \
    pedestrian-time \
    free-right      \
    cycle           ";

pub fn word_byte(row: u32, i: usize) -> u8
    requires { (row < word_count) × (i < word_width) }
    ensures { result ≡ word_byte row i }
{
    TABLE[WIDTH * row as usize + i]
}

fn padded(word: &[u8], i: usize) -> u8
    ensures { result ≡ padded word.now i }
{
    word.get(i).copied().unwrap_or(b' ')
}

fn is_word(word: &[u8], row: u32) -> bool
    requires { row < word_count }
    ensures { result ≡ is_word word.now row }
{
    if WIDTH < word.len() {
        return false;
    }
    for i in 0..WIDTH {
        if padded(word, i) != word_byte(row, i) {
            return false;
        }
    }
    true
}

// Puts the word of a row at a place, without the blanks that fill its row.
pub fn put_word(out: &mut [u8], at: usize, row: u32) -> usize
    requires { (row < word_count) × (at + word_width ≤ length out.old) }
    ensures { Placed out.old at (word_of row) out.new result }
{
    let mut end = at;
    for i in 0..WIDTH {
        let byte = word_byte(row, i);
        if byte != b' ' {
            end = text::put_byte(out, end, byte);
        }
    }
    end
}

// The row of a word, if the table has it.
pub fn row_of(word: &[u8]) -> Option<u32>
    ensures value { result ≡ row_of word.now }
    ensures bound { IfSome result (λ row. row < word_count) }
{
    (0..WORDS).find(|row| is_word(word, *row))
}

// A class of titles: its first title, its first entry, how many entries each of its titles has, its first kind.
#[derive(Clone, Copy)]
pub struct Class {
    pub title: u32,
    pub entry: u32,
    pub width: u32,
    pub kind: u32,
}

impl Class {
    pub const MOVEMENTS: Class = Class {
        title: 0,
        entry: 0,
        width: layout::MOVEMENT_ENTRIES as u32,
        kind: 0,
    };

    pub const APPROACHES: Class = Class {
        title: layout::MOVEMENTS as u32,
        entry: layout::APPROACHES_FROM as u32,
        width: layout::APPROACH_ENTRIES as u32,
        kind: layout::MOVEMENT_ENTRIES as u32,
    };

    pub const JUNCTION: Class = Class {
        title: (layout::MOVEMENTS + layout::APPROACHES) as u32,
        entry: layout::CYCLE_ENTRY as u32,
        width: JUNCTION_ENTRIES as u32,
        kind: (layout::MOVEMENT_ENTRIES + layout::APPROACH_ENTRIES) as u32,
    };

    fn of_title(title: u32) -> Class
        ensures { OfTitle title result }
    {
        if title < Class::APPROACHES.title {
            return Class::MOVEMENTS;
        }
        if title < Class::JUNCTION.title {
            return Class::APPROACHES;
        }
        Class::JUNCTION
    }

    fn of_entry(entry: u32) -> Class
        ensures { OfEntry entry result }
    {
        if entry < Class::APPROACHES.entry {
            return Class::MOVEMENTS;
        }
        if entry < Class::JUNCTION.entry {
            return Class::APPROACHES;
        }
        Class::JUNCTION
    }

    // The number of an entry among those of its title.
    fn number(self, entry: u32) -> u32
        requires { OfEntry entry self }
        ensures { (result ≡ number_under self entry) × (result < self.width) }
    {
        (entry - self.entry) % self.width
    }
}

// Whether a title has entries of that kind.
pub fn has_kind(title: u32, kind: u32) -> bool
    ensures { result ≡ has_kind title kind }
{
    let class = Class::of_title(title);
    if kind < class.kind {
        return false;
    }
    kind < class.kind + class.width
}

// The entry of a kind that its title has.
pub fn entry_in(title: u32, kind: u32) -> u32
    requires { (title < title_count) × (kind < kind_count) × (has_kind title kind ≡ true) }
    ensures { (result ≡ entry_in title kind) × (result < entry_count) }
{
    let class = Class::of_title(title);
    class.entry + class.width * (title - class.title) + (kind - class.kind)
}

// The title under which an entry stands.
pub fn title_of(entry: u32) -> u32
    ensures { result ≡ title_of entry }
{
    let class = Class::of_entry(entry);
    class.title + (entry - class.entry) / class.width
}

pub fn kind_of(entry: u32) -> u32
    ensures { (result ≡ kind_of entry) × (result < kind_count) }
{
    let class = Class::of_entry(entry);
    class.kind + class.number(entry)
}

// Whether an entry is the first of its title.
pub fn is_first(entry: u32) -> bool
    ensures { result ≡ is_first entry }
{
    let class = Class::of_entry(entry);
    class.number(entry) == 0
}

// Whether an entry is the last of its title.
pub fn is_last(entry: u32) -> bool
    ensures { result ≡ is_last entry }
{
    let class = Class::of_entry(entry);
    class.number(entry) + 1 == class.width
}

// The entry of a title and of the kind in a row of the table, if there is one.
fn entry_for(title: u32, row: u32) -> Option<u32>
    requires { row < word_count }
    ensures value { result ≡ entry_for title row }
    ensures bound { IfSome result (λ entry. entry < entry_count) }
{
    if TITLES <= title {
        return None;
    }
    if row < TITLES {
        return None;
    }
    if !has_kind(title, row - TITLES) {
        return None;
    }
    Some(entry_in(title, row - TITLES))
}

// The entry that two words name, as `EBL` and `lanes`, if they name one.
pub fn entry_named(title: &[u8], kind: &[u8]) -> Option<u32>
    ensures value { result ≡ entry_named title.now kind.now }
    ensures bound { IfSome result (λ entry. entry < entry_count) }
{
    entry_for(row_of(title)?, row_of(kind)?)
}
