// The words that a program is called with, each ended by a byte 0, one after the other.
#![tactic(auto)]

ghost use Rattle.std.specs.Prelude.{◌≡◌, ◌+◌, ◌≤◌, length, drop};
ghost use Rattle.program_words.specs.Words.{first_word, later_words, word_at};

// Where the word that begins at a place ends.
fn end_of(words: &[u8], from: usize) -> usize
    requires { from ≤ length words.now }
    ensures { (result ≡ from + length (first_word (drop from words.now))) × (result ≤ length words.now) }
{
    let rest = &words[from..];
    from + rest
        .iter()
        .position(|byte| *byte == 0)
        .unwrap_or(rest.len())
}

// Where the word after it begins; at the end, where there is none.
fn next_after(words: &[u8], from: usize) -> usize
    requires { from ≤ length words.now }
    ensures { (drop result words.now ≡ later_words (drop from words.now)) × (result ≤ length words.now) }
{
    let end = end_of(words, from);
    if end < words.len() {
        return end + 1;
    }
    end
}

// The words past the first.
pub fn past_first(words: &[u8]) -> &[u8]
    ensures { result.now ≡ later_words words.now }
{
    let from = next_after(words, 0);
    &words[from..]
}

// Word n, from 0; past the last, a word of no bytes.
pub fn word(words: &[u8], n: usize) -> &[u8]
    ensures { result.now ≡ word_at words.now n }
{
    let mut from = 0;
    for _ in 0..n {
        from = next_after(words, from);
    }
    let end = end_of(words, from);
    &words[from..end]
}
