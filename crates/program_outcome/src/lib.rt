// What one run of a program gives, in lent areas; and what every program says of a file.
#![tactic(auto)]

ghost use Rattle.std.specs.Prelude.{◌≡◌, ◌+◌, ◌≤◌, length, take};
ghost use Rattle.text.specs.Text.{Placed};
ghost use Rattle.program_outcome.specs.Outcome.{is_either, opening, named, remark_text, remarked};
ghost use Rattle.program_outcome.specs.Working.{only_said, only_printed, only_written, lengths_of, opening_most, remark_most};

use layout::Worksheet;

// How many bytes of a file were read into an area; none, where it could not be read.
pub type Input = Option<usize>;

// What is said of an argument, or of the program itself.
#[derive(Clone, Copy)]
pub enum Remark {
    Unread,
    Unwritten,
    NoName,
    NoEntry,
    IsStudy,
    WantsText,
    InTheWay,
    Stays,
    IsLink,
    NoInput,
    NoOutput,
}

// How a program was called: which worksheet its first word asks for; how many arguments it has past that word, its own name among them;
// and what reading its file came to.
#[derive(Clone, Copy)]
pub struct Call {
    pub worksheet: Worksheet,
    pub arguments: usize,
    pub input: Input,
}

// How many bytes are to be printed, to be written to a file, and to be said on standard error.
#[derive(Clone, Copy, Default)]
pub struct Lengths {
    pub prints: usize,
    pub writes: usize,
    pub says: usize,
}

// Nothing that a program's calls are made of allocates (a rule of the project: no heap). So what is read, printed, written and said
// stands in arrays of these sizes, each with how many of its bytes are used; `front` gives those as a slice.

// The most bytes of an argument.
pub const WORD_BYTES: usize = 4_096;

// One byte more than a text has at most, so that a longer one is seen to be too long; no study file is longer.
pub const AREA_BYTES: usize = 65_536;

// Room for an argument, and as much for what is said of it.
pub const SAID_BYTES: usize = 2 * WORD_BYTES;

// The front of the bytes; all of them, where they are fewer.
pub fn front(bytes: &[u8], size: usize) -> &[u8]
    ensures { (result.now ≡ take size bytes.now) × (length result.now ≤ size) }
{
    if size < bytes.len() {
        return &bytes[..size];
    }
    bytes
}

impl Lengths {
    // Where something is said, and nothing else given.
    pub fn said(says: usize) -> Lengths
        ensures { result ≡ only_said says }
    {
        Lengths {
            says,
            ..Lengths::default()
        }
    }

    // Where something is printed.
    pub fn printed(prints: usize) -> Lengths
        ensures { result ≡ only_printed prints }
    {
        Lengths {
            prints,
            ..Lengths::default()
        }
    }

    // Where something is written.
    pub fn written(writes: usize) -> Lengths
        ensures { result ≡ only_written writes }
    {
        Lengths {
            writes,
            ..Lengths::default()
        }
    }

    // What a run gives that stops where something is said: an error is how many bytes that is.
    pub fn of(run: Result<Lengths, usize>) -> Lengths
        ensures { result ≡ lengths_of run }
    {
        run.unwrap_or_else(Lengths::said)
    }
}

// Whether a number is one of two.
pub fn is_either(number: usize, one: usize, other: usize) -> bool
    ensures { result ≡ is_either number one other }
{
    number == one || number == other
}

// Puts an argument and a colon, before what is said of it.
pub fn put_opening(out: &mut [u8], word: &[u8]) -> usize
    requires { opening_most ≤ length out.old }
    ensures { Placed out.old 0 (opening word.now) out.new result × (result ≤ opening_most) }
{
    let shown = text::put_bytes(out, 0, front(word, WORD_BYTES));
    text::put_bytes(out, shown, b": ")
}

// Puts an argument, a colon and what is to say of it.
pub fn put_named(out: &mut [u8], word: &[u8], what: &[u8]) -> usize
    requires { opening_most + length what.now ≤ length out.old }
    ensures { Placed out.old 0 (named word.now what.now) out.new result }
{
    let at = put_opening(out, word);
    text::put_bytes(out, at, what)
}

fn put_remark(out: &mut [u8], at: usize, remark: Remark) -> usize
    requires { at + remark_most ≤ length out.old }
    ensures { Placed out.old at (remark_text remark) out.new result × (result ≤ at + remark_most) }
{
    match remark {
        Remark::Unread => text::put_bytes(out, at, b"cannot be read\n"),
        Remark::Unwritten => text::put_bytes(out, at, b"cannot be written\n"),
        Remark::NoName => text::put_bytes(
            out,
            at,
            b"no movement, no approach and not the junction has this name\n",
        ),
        Remark::NoEntry => text::put_bytes(out, at, b"no entry has this name there\n"),
        Remark::IsStudy => text::put_bytes(
            out,
            at,
            b"this is a study file: add a site, counted from 1, or all\n",
        ),
        Remark::WantsText => text::put_bytes(
            out,
            at,
            b"this is a study file: name a junction's text, as icustudy show prints one\n",
        ),
        Remark::InTheWay => text::put_bytes(
            out,
            at,
            b"there is such a file and it is no study file, so it stays as it is: name another\n",
        ),
        Remark::Stays => text::put_bytes(
            out,
            at,
            b"stays as it was, since not all that was asked for was done: name a new file\n",
        ),
        Remark::IsLink => text::put_bytes(
            out,
            at,
            b"this is a symbolic link, which stays as it is: name its file\n",
        ),
        Remark::NoInput => text::put_bytes(out, at, b"standard input cannot be read\n"),
        Remark::NoOutput => text::put_bytes(out, at, b"standard output cannot be written\n"),
    }
}

// Says one of the sentences of an argument.
pub fn say(word: &[u8], remark: Remark, said: &mut [u8; SAID_BYTES]) -> usize
    ensures { Placed said.old 0 (remarked word.now remark) said.new result }
{
    let at = put_opening(said, word);
    put_remark(said, at, remark)
}
