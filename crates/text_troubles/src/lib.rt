// What is said, in words, of what is wrong with a text.
#![tactic(auto)]

ghost use Rattle.std.specs.Prelude.{◌+◌, ◌≤◌, length};
ghost use Rattle.text.specs.Text.{Placed};
ghost use Rattle.text_troubles.specs.Troubles.{trouble_text};
ghost use Rattle.text_troubles.specs.Working.{trouble_most};

use text::put_bytes;
use text_values::Trouble;

fn put_unknown(out: &mut [u8], at: usize, word: &[u8]) -> usize
    requires { at + trouble_most ≤ length out.old }
    ensures { Placed out.old at (trouble_text Trouble.Unknown word.now) out.new result × (result ≤ at + trouble_most) }
{
    let end = text_quotes::put_quoted(out, at, word);
    put_bytes(
        out,
        end,
        b": no movement, approach or entry has this name\n",
    )
}

// A sentence for each trouble with a word.
pub fn put_trouble(out: &mut [u8], at: usize, why: Trouble, word: &[u8]) -> usize
    requires { at + trouble_most ≤ length out.old }
    ensures { Placed out.old at (trouble_text why word.now) out.new result × (result ≤ at + trouble_most) }
{
    match why {
        Trouble::Unknown => put_unknown(out, at, word),
        Trouble::NoTitle => put_bytes(
            out,
            at,
            b"name a movement, an approach or the junction before its entries\n",
        ),
        Trouble::NotOfTitle => put_bytes(out, at, b"what was named before has no such entry\n"),
        Trouble::Twice => put_bytes(out, at, b"this entry was written before\n"),
        Trouble::NotNumber => put_bytes(
            out,
            at,
            b"a whole number without a unit is expected here\n",
        ),
        Trouble::NotTime => put_bytes(
            out,
            at,
            b"a time is written with its unit, as 4s, 4.5s or 4000ms\n",
        ),
        Trouble::NotFactor => put_bytes(
            out,
            at,
            b"a factor is written as 0.971 or 1, or as 0 for the table's\n",
        ),
        Trouble::TooLarge => put_bytes(out, at, b"this number is too large\n"),
        Trouble::Ends => put_bytes(out, at, b"the text ends where a value is expected\n"),
        Trouble::TooLong => put_bytes(out, at, b"a text has at most 65535 bytes\n"),
        Trouble::BadTitle => put_bytes(
            out,
            at,
            b"a title is written in quotes, as title \"Elm and 3rd\", with at most 60 bytes\n",
        ),
    }
}
