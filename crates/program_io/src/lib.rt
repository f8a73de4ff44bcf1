// Input and output: arguments and files in lent areas, and areas written out. What the system reads or writes, no promise
// can say; what is read lies within its area, and of a reader whose bytes are known it is all that it has or that there is room
// for. A file is written whole beside its place, and then takes its name. Where several may change one file, the new one beside
// it has one name only, and is the lock. The system's names are text: a name that is not UTF-8 is one of no file.
#![tactic(auto)]

ghost use Rattle.std.specs.Prelude.{◌+◌, ◌≤◌, ◌<◌, length, IsTrue};
ghost use Rattle.std.specs.Io.KnownBytes.{Appends};
ghost use Rattle.program_outcome.specs.Outcome.{word_most};
ghost use Rattle.io.specs.Counts.{IsPrefixLen};
ghost use Rattle.program_io.specs.Input.{Within, Reads, ReadsOnce, beside_most};

use program_outcome::{AREA_BYTES, Input, Lengths, Remark, SAID_BYTES, WORD_BYTES};
use program_target::{Barred, Found};
use std::env::FillError;
use std::fs::{OpenFile, OpenOptions};
use std::io::{ErrorKind, Read, Seek, Write};
use std::rt::{Env, Files};
use std::{fs, io, str};

// The room that an argument takes among the words.
pub const WORD_ROOM: usize = WORD_BYTES + 1;

// How many names there are for a new file beside the one that it is for, and where the digit stands that tells them apart.
const PARTS: u32 = 10;

const PART_DIGIT: usize = 5;

// What the name of a lock ends with, beside the file that it is for.
const LOCK: [u8; 5] = *b".lock";

// The bytes of an ending at most, and of a name beside another.
const ENDING_BYTES: usize = 6;

const BESIDE_BYTES: usize = WORD_BYTES + ENDING_BYTES;

// How many arguments there are, the program's own name among them.
pub fn count_arguments(env: &impl Env) -> usize {
    let mut none = [0u8; 0];
    for argument in 0..usize::MAX {
        if let Err(FillError::NotPresent) = env.arg(argument, &mut none) {
            return argument;
        }
    }
    usize::MAX
}

// Puts an argument at the start of the area; how many bytes it has. One that is too long is taken as one of no bytes.
pub fn take_argument(env: &impl Env, argument: usize, area: &mut [u8]) -> usize
    ensures { result ≤ length area.new }
{
    match env.arg(argument, area) {
        Ok(size) => size,
        Err(_) => 0,
    }
}

// Takes an argument, and ends it by a byte 0.
fn take_word(env: &impl Env, words: &mut [u8], at: usize, argument: usize) -> usize
    requires { at + word_most < length words.old }
    ensures { result ≤ length words.old }
{
    let end = at + WORD_BYTES;
    let past = at + take_argument(env, argument, &mut words[at..end]);
    words[past] = 0;
    past + 1
}

// Puts the arguments after the program's own name into the area, as many as there is room for; how many bytes they are.
fn put_words(env: &impl Env, words: &mut [u8]) -> usize
    ensures { result ≤ length words.new }
{
    let count = count_arguments(env);
    let mut at: usize = 0;
    for argument in 1..count {
        if words.len() - at < WORD_ROOM {
            return at;
        }
        at = take_word(env, words, at, argument);
    }
    at
}

// The arguments after the program's own name, put into the area.
pub fn take_words<'a>(env: &impl Env, words: &'a mut [u8]) -> &'a [u8]
    ensures { length result.now ≤ length words.old }
{
    let size = put_words(env, words);
    &words[..size]
}

// One read, into the front of the lent bytes.
fn read_once<F: Read>(file: &mut F, area: &mut [u8]) -> Input
    ensures within { Within result (length area.new) }
    ensures bytes { ReadsOnce result (F.remaining file.old) (F.remaining file.new) area.new }
{
    match file.read(area) {
        Ok(count) => Some(count),
        Err(_) => None,
    }
}

// Reads until the file ends, the lent bytes are full or a read fails.
pub fn read_open<F: Read>(file: &mut F, area: &mut [u8]) -> Input
    ensures within { Within result (length area.new) }
    ensures bytes { Reads result (F.remaining file.old) (F.remaining file.new) area.new }
{
    let mut done: usize = 0;
    // A `while`: how far each read goes is the reader's to say, and no range counts it.
    while done < area.len() {
        let count = read_once(file, &mut area[done..])?;
        if count == 0 {
            return Some(done);
        }
        done += count;
    }
    Some(done)
}

pub fn read_named(files: &impl Files, path: &[u8], area: &mut [u8]) -> Input
    ensures { Within result (length area.new) }
{
    let path = str::from_utf8(path).ok()?;
    let mut file = fs::open(files, path).ok()?;
    read_open(&mut file, area)
}

fn is_link(files: &impl Files, name: &str) -> bool {
    fs::symlink_metadata(files, name).is_ok_and(|found| found.is_symlink())
}

// Reads a file that was opened at its start; what has no start is no file, and reading it could wait for ever.
fn find_open<F: Read + Seek>(file: &mut F, area: &mut [u8]) -> Found {
    let Ok(0) = file.stream_position() else {
        return Err(Barred::Closed);
    };
    let size = read_open(file, area).ok_or(Barred::Closed)?;
    Ok(Some(size))
}

// What there is where a file is to be written; it stays as it is. It is opened for writing, too, since it may be protected.
// No file has a name of no bytes.
pub fn find(files: &impl Files, name: &[u8], area: &mut [u8]) -> Found {
    if name.is_empty() {
        return Err(Barred::Closed);
    }
    let Ok(name) = str::from_utf8(name) else {
        return Err(Barred::Closed);
    };
    if is_link(files, name) {
        return Err(Barred::Link);
    }
    match OpenOptions::new().read(true).write(true).open(files, name) {
        Ok(mut file) => find_open(&mut file, area),
        Err(e) if e.kind() == ErrorKind::NotFound => Ok(None),
        Err(_) => Err(Barred::Closed),
    }
}

// Whether a file may be written there; says why not.
fn is_free(files: &impl Files, err: &impl Print, name: &[u8], whole: bool) -> bool {
    let mut area = [0u8; AREA_BYTES];
    let mut said = [0u8; SAID_BYTES];
    let found = find(files, name, &mut area);
    match program_target::judge(found, name, &area, whole, &mut said) {
        Ok(()) => true,
        Err(says) => {
            say(err, &said, says);
            false
        }
    }
}

// The ending of a new file's name, `.part` and a digit.
fn part(number: u32) -> [u8; ENDING_BYTES] {
    let mut ending = *b".part0";
    text::put_digit(&mut ending, PART_DIGIT, number % PARTS);
    ending
}

// The name of a file beside another: that one's, and an ending.
fn put_beside(name: &[u8], ending: &[u8], path: &mut [u8]) -> usize
    requires { beside_most ≤ length path.old }
    ensures { IsPrefixLen result path.new }
{
    let at = text::put_bytes(path, 0, program_outcome::front(name, WORD_BYTES));
    text::put_bytes(path, at, program_outcome::front(ending, ENDING_BYTES))
}

// Makes the file beside, if none has its name.
fn make_beside<R: Files>(files: &R, name: &[u8], ending: &[u8]) -> io::Result<R::File> {
    let mut path = [0u8; BESIDE_BYTES];
    let size = put_beside(name, ending, &mut path);
    match str::from_utf8(&path[..size]) {
        Ok(path) => OpenOptions::new()
            .write(true)
            .create_new(true)
            .open(files, path),
        Err(_) => Err(io::Error::from(ErrorKind::InvalidFilename)),
    }
}

fn remove_beside(files: &impl Files, name: &[u8], ending: &[u8]) {
    let mut path = [0u8; BESIDE_BYTES];
    let size = put_beside(name, ending, &mut path);
    if let Ok(path) = str::from_utf8(&path[..size]) {
        let _ = fs::remove_file(files, path);
    }
}

// Gives a file beside the name that it is for, in one step of the system; whatever had the name before loses it then.
fn rename_beside(files: &impl Files, name: &[u8], ending: &[u8]) -> bool {
    let mut path = [0u8; BESIDE_BYTES];
    let size = put_beside(name, ending, &mut path);
    let (Ok(path), Ok(name)) = (str::from_utf8(&path[..size]), str::from_utf8(name)) else {
        return false;
    };
    fs::rename(files, path, name).is_ok()
}

// Fills a new file; every step must go well, the last one too.
fn fill<F: Write + OpenFile>(file: &mut F, bytes: &[u8]) -> bool
    ensures { IsTrue result → Appends (F.contents file.old) (F.contents file.new) bytes.now }
{
    file.write_all(bytes).is_ok() && file.sync_all().is_ok()
}

// The file is closed once it is let go; what the disk refuses is told before.
fn fill_and_close<F: Write + OpenFile + Drop>(mut file: F, bytes: &[u8]) -> bool {
    fill(&mut file, bytes)
}

// Writes the bytes to a new file beside, under the first name that is free; that name's ending. None where the file cannot be
// written whole, and then it is not left there.
fn write_beside(files: &impl Files, name: &[u8], bytes: &[u8]) -> Option<[u8; ENDING_BYTES]> {
    for number in 0..PARTS {
        let ending = part(number);
        if let Ok(file) = make_beside(files, name, &ending) {
            if fill_and_close(file, bytes) {
                return Some(ending);
            }
            remove_beside(files, name, &ending);
            return None;
        }
    }
    None
}

// Says the front of an area, if it can be said.
pub fn say(err: &impl Print, said: &[u8], size: usize) {
    let _ = err.write_all(program_outcome::front(said, size));
}

fn say_of(err: &impl Print, word: &[u8], remark: Remark) {
    let mut said = [0u8; SAID_BYTES];
    let says = program_outcome::say(word, remark, &mut said);
    say(err, &said, says);
}

// Prints, and answers whether all was printed; says so where it was not.
fn print(out: &impl Print, err: &impl Print, program: &[u8], printed: &[u8]) -> bool {
    if out.write_all(printed).is_ok() {
        return true;
    }
    say_of(err, program, Remark::NoOutput);
    false
}

// Prints and says what a run gives, and answers whether all was printed.
pub fn put_out(
    out: &impl Print,
    err: &impl Print,
    program: &[u8],
    lengths: Lengths,
    printed: &[u8],
    said: &[u8; SAID_BYTES],
) -> bool {
    let is_printed = print(
        out,
        err,
        program,
        program_outcome::front(printed, lengths.prints),
    );
    say(err, said, lengths.says);
    is_printed
}

// Puts a file that was written beside in its place, once what there is to print is printed; else it is removed.
fn settle<R: Files + Print>(
    rt: &R,
    err: &impl Print,
    program: &[u8],
    name: &[u8],
    ending: &[u8],
    printed: &[u8],
) {
    if !print(rt, err, program, printed) {
        remove_beside(rt, name, ending);
        return;
    }
    if rename_beside(rt, name, ending) {
        return;
    }
    remove_beside(rt, name, ending);
    say_of(err, name, Remark::Unwritten);
}

// Prints, and writes the file of that name, if there is something for it: both, or nothing and what is said. What had that name
// stays whole until the new file is. Whether all that was asked for was done is told, since a study is replaced only then.
pub fn give<R: Files + Print>(
    rt: &R,
    err: &impl Print,
    program: &[u8],
    name: &[u8],
    printed: &[u8],
    written: &[u8],
    whole: bool,
) {
    if written.is_empty() {
        print(rt, err, program, printed);
        return;
    }
    if !is_free(rt, err, name, whole) {
        return;
    }
    let Some(ending) = write_beside(rt, name, written) else {
        say_of(err, name, Remark::Unwritten);
        return;
    };
    settle(rt, err, program, name, &ending, printed);
}

// Says of a lock that it stands.
fn say_locked(err: &impl Print, name: &[u8]) {
    let mut path = [0u8; BESIDE_BYTES];
    let mut said = [0u8; SAID_BYTES];
    let size = put_beside(name, &LOCK, &mut path);
    let says = program_outcome::put_named(
        &mut said,
        &path[..size],
        b"stands while somebody changes the study: try again, or remove it if nobody is at work\n",
    );
    say(err, &said, says);
}

// Takes the lock of a file, which nobody else has then: it is a new file beside, open for writing. Where it cannot be taken,
// says why and answers none. No file has a name of no bytes.
pub fn take_lock<R: Files>(files: &R, err: &impl Print, name: &[u8]) -> Option<R::File> {
    if name.is_empty() {
        say_of(err, name, Remark::Unwritten);
        return None;
    }
    match make_beside(files, name, &LOCK) {
        Ok(file) => Some(file),
        Err(e) if e.kind() == ErrorKind::AlreadyExists => {
            say_locked(err, name);
            None
        }
        Err(_) => {
            say_of(err, name, Remark::Unwritten);
            None
        }
    }
}

fn drop_lock<R: Files>(files: &R, name: &[u8], file: R::File) {
    drop(file);
    remove_beside(files, name, &LOCK);
}

// Prints, and gives up the lock: it is removed where there is nothing to write, and else holds the new file and takes its name.
pub fn settle_lock<R: Files + Print>(
    rt: &R,
    err: &impl Print,
    program: &[u8],
    name: &[u8],
    file: R::File,
    printed: &[u8],
    written: &[u8],
) {
    if written.is_empty() {
        drop_lock(rt, name, file);
        print(rt, err, program, printed);
        return;
    }
    if !fill_and_close(file, written) {
        remove_beside(rt, name, &LOCK);
        say_of(err, name, Remark::Unwritten);
        return;
    }
    settle(rt, err, program, name, &LOCK, printed);
}

#[cfg(test)]
mod tests {
    use super::*;
    use std::test::Fail;

    // Gives up to three bytes a read, and fails once it was read so often.
    #[derive(Drop)]
    struct Failing {
        left: u8,
    }

    impl Read for Failing {
        fn read(&mut self, buf: &mut [u8]) -> io::Result<usize> {
            if self.left == 0 {
                return Err(io::Error::from(ErrorKind::Other));
            }
            self.left -= 1;
            let count = buf.len().min(3);
            buf[..count].fill(7);
            Ok(count)
        }
    }

    #[test]
    fn a_read_that_fails_in_mid_stream_is_told(rt: HostRuntime) -> Result<(), Fail> {
        let mut area = [0u8; 10];
        let input = read_open(&mut Failing { left: 2 }, &mut area);
        assert!(rt; matches!(input, None), "a failure is told");
        let input = read_open(&mut Failing { left: 4 }, &mut area);
        assert!(rt; matches!(input, Some(10)), "the area is filled");
        Ok(())
    }
}
