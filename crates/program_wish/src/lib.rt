// What a program is asked for: in place of its work, how it is called, or its version; before it, which worksheet.
#![tactic(auto)]

ghost use Rattle.std.specs.Prelude.{◌≡◌, ◌≤◌, length};
ghost use Rattle.text.specs.Text.{Placed};
ghost use Rattle.program_wish.specs.Wish.{same, wish_of, version_text, worksheet_of, words_for, arguments_for};
ghost use Rattle.program_wish.specs.Working.{version_most};

use layout::Worksheet;

// Each program matches on it: with its use and its work as closures over lent areas, one head for all would be no shorter.
#[derive(Clone, Copy)]
pub enum Wish {
    Help,
    Version,
    Work,
}

// The number of arguments with one word, the program's name among them.
const ONE_WORD: usize = 2;

// Whether two words are the same.
#[tactic(auto, unfolding(crate::specs::Wish::same))]
pub fn is_same(word: &[u8], other: &[u8]) -> bool
    ensures { result ≡ same word.now other.now }
{
    word == other
}

// What is wished for, by the number of arguments and the first word.
#[tactic(auto, unfolding(crate::specs::Wish::wish_of, text::specs::Text::ascii))]
pub fn wish_of(count: usize, word: &[u8]) -> Wish
    ensures { result ≡ wish_of count word.now }
{
    if count != ONE_WORD {
        return Wish::Work;
    }
    if is_same(word, b"--help") {
        return Wish::Help;
    }
    if is_same(word, b"--version") {
        return Wish::Version;
    }
    Wish::Work
}

// Puts the version's line at the front.
#[tactic(auto, unfolding(crate::specs::Wish::version_text, text::specs::Text::ascii))]
pub fn put_version(out: &mut [u8]) -> usize
    requires { version_most ≤ length out.old }
    ensures { Placed out.old 0 version_text out.new result }
{
    text::put_bytes(out, 0, b"icu2003 3.1\n")
}

// The worksheet that the first word asks for.
#[tactic(auto, unfolding(crate::specs::Wish::worksheet_of, text::specs::Text::ascii))]
pub fn worksheet_of(words: &[u8]) -> Worksheet
    ensures { result ≡ worksheet_of words.now }
{
    if is_same(program_words::word(words, 0), b"--point") {
        return Worksheet::Point;
    }
    Worksheet::Junction
}

// The words past the one that asked for a worksheet.
pub fn words_for(kind: Worksheet, words: &[u8]) -> &[u8]
    ensures { result.now ≡ words_for kind words.now }
{
    match kind {
        Worksheet::Junction => words,
        Worksheet::Point => program_words::past_first(words),
    }
}

// How many arguments are left without it.
pub fn arguments_for(kind: Worksheet, count: usize) -> usize
    ensures { result ≡ arguments_for kind count }
{
    match kind {
        Worksheet::Junction => count,
        Worksheet::Point => count.saturating_sub(1),
    }
}
