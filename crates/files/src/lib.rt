// Books from files, for the programs: the bytes of a file that is named, or of standard input, to their end; and the program's arguments, and what is
// written. A file that cannot be read to its end is told on standard error.
//
// A failed read says neither that a file ended nor what follows. One byte past the limit of a book is enough to refuse a book of any length. What a
// file of the system holds is not promised here, but that no byte is counted which was not read.
//
// A file's name may be any bytes, but std opens a file by UTF-8 alone: a name that is not is told as one that cannot be opened.
#![tactic(auto)]

ghost use Rattle.std.specs.Prelude.{◌≡◌, ◌+◌, ◌<◌, ◌≤◌, length, take, drop, IfOk, OnErr};
ghost use Rattle.std.specs.Io.KnownBytes.{Consumes, Keeps, IsAtEnd};
ghost use Rattle.files.specs.Counts.{IsPrefixLen, read_len};

use std::env::FillError;
use std::fs::File;
use std::io;
use std::io::{Cursor, Read, Write};
use std::rt::{Env, Files};

// A read that failed: how many bytes were read before it, and why.
#[derive(Debug, Drop)]
pub struct Unfinished {
    pub len: usize,
    pub why: io::Error,
}

// The system's number of an argument that is missing, of one that is too long, and of a name that is no text.
const MISSING: i32 = 22;

const TOO_LONG: i32 = 36;

const NO_TEXT: i32 = 84;

// Writes bytes. What cannot be written is left out.
pub fn put<P: Print>(to: &P, bytes: &[u8]) {
    let _ = to.write_all(bytes);
}

// Writes a number in decimal digits. What cannot be written is left out.
pub fn put_number<P: Print>(to: &P, n: u64) {
    let _ = to.print(n);
}

// How many arguments the program was started with, its own name among them.
pub fn arg_count<R: Env>(rt: &R) -> usize {
    let mut none = [0u8; 0];
    for i in 0..usize::MAX {
        if let Err(FillError::NotPresent) = rt.arg(i, &mut none) {
            return i;
        }
    }
    usize::MAX
}

// Puts an argument at the start of a buffer; and how long it is, or 0 where it is missing or longer than the buffer. Of one that is longer the first
// bytes are in the buffer. The answer is a number, since programs take a missing argument for an empty one.
pub fn argument<R: Env>(rt: &R, i: usize, buf: &mut [u8]) -> usize
    ensures { IsPrefixLen result buf.new }
{
    rt.arg(i, buf).unwrap_or(0)
}

// One read, into a buffer from a place on.
fn read_at<R: Read>(file: &mut R, buf: &mut [u8], at: usize) -> io::Result<usize>
    requires { at < length buf.old }
    ensures front { take at buf.new ≡ take at buf.old }
    ensures fits { IfOk result (λ n. at + n ≤ length buf.new) }
    ensures ok { IfOk result (λ n. Consumes (R.remaining file.old) (R.remaining file.new) (take n (drop at buf.new))) }
    ensures err { OnErr result (Keeps (R.remaining file.old) (R.remaining file.new)) }
    ensures end { IfOk result (λ n. n ≡ 0 → IsAtEnd (R.remaining file.new)) }
{
    file.read(&mut buf[at..])
}

// Reads until the buffer is full, or the file ends, or a read fails: how many bytes are at the start of the buffer then. Where the file says which bytes
// it has left, these are the next of them.
fn fill<R: Read>(file: &mut R, buf: &mut [u8]) -> Result<usize, Unfinished>
    ensures within { IsPrefixLen (read_len result) buf.new }
    ensures bytes { Consumes (R.remaining file.old) (R.remaining file.new) (take (read_len result) buf.new) }
    ensures end { IfOk result (λ n. n < length buf.new → IsAtEnd (R.remaining file.new)) }
{
    let mut len = 0;
    // by as many bytes as each read gives
    while len < buf.len() {
        match read_at(file, buf, len) {
            Ok(0) => return Ok(len),
            Ok(n) => len += n,
            Err(why) => return Err(Unfinished { len, why }),
        }
    }
    Ok(len)
}

// Reads until the buffer is full, or the file ends, or a read fails, and tells how many bytes are at the start of the buffer. Where the file says which
// bytes it has left, these are the next of them.
pub fn read_full<R: Read>(file: &mut R, buf: &mut [u8]) -> usize
    ensures within { IsPrefixLen result buf.new }
    ensures bytes { Consumes (R.remaining file.old) (R.remaining file.new) (take result buf.new) }
{
    match fill(file, buf) {
        Ok(len) => len,
        Err(unfinished) => unfinished.len,
    }
}

// The words of an error, without the number that std puts behind them.
fn words_of<'a>(text: &'a str) -> &'a str {
    match text.split_once(" (os error ") {
        Some((words, _)) => words,
        None => text,
    }
}

// What an error says, and the line's end.
fn tell_why<P: Print>(err: &P, why: &io::Error) {
    let mut text = Cursor::new([0u8; 256]);
    let _ = write!(text, "{why}");
    let len = text.position() as usize;
    let text = text.into_inner();
    let words = str::from_utf8(&text[..len.min(256)]).unwrap_or("");
    put(err, words_of(words).as_bytes());
    put(err, b"\n");
}

// What a program says of a file, and why.
fn tell<P: Print>(err: &P, program: &[u8], name: &[u8], why: &io::Error) {
    put(err, program);
    put(err, b": ");
    put(err, name);
    put(err, b": ");
    tell_why(err, why);
}

// The bytes of an open file. Where the file says which bytes it has left, the next of them, and all of them where the buffer has room to spare and no
// read failed.
pub fn read_open<R: Read>(file: &mut R, text: &mut [u8; 65537]) -> Result<usize, Unfinished>
    ensures within { IsPrefixLen (read_len result) text.new }
    ensures bytes { Consumes (R.remaining file.old) (R.remaining file.new) (take (read_len result) text.new) }
    ensures whole { IfOk result (λ n. n < 65537 → IsAtEnd (R.remaining file.new)) }
{
    fill(file, text)
}

// Opens the file so named.
fn open_named<R: Files>(rt: &R, name: &[u8]) -> io::Result<R::File> {
    match str::from_utf8(name) {
        Ok(path) => File::open(rt, path),
        Err(_) => Err(io::Error::from_raw_os_error(NO_TEXT)),
    }
}

// The bytes of the file so named; of one that cannot be opened there are none.
fn read_named<R: Files>(rt: &R, name: &[u8], text: &mut [u8; 65537]) -> Result<usize, Unfinished>
    ensures { IsPrefixLen (read_len result) text.new }
{
    match open_named(rt, name) {
        Ok(mut file) => fill(&mut file, text),
        Err(why) => Err(Unfinished { len: 0, why }),
    }
}

// Why an argument did not come.
fn missed(why: FillError) -> io::Error {
    match why {
        FillError::NotPresent => io::Error::from_raw_os_error(MISSING),
        FillError::TooLong => io::Error::from_raw_os_error(TOO_LONG),
    }
}

// The bytes of the file that an argument names. What keeps it from its end is told to `err`, by the program's name.
pub fn read_argument<R: Env + Files, P: Print>(
    rt: &R,
    err: &P,
    program: &[u8],
    i: usize,
    text: &mut [u8; 65537],
) -> Result<usize, Unfinished>
    ensures { IsPrefixLen (read_len result) text.new }
{
    let mut name = [0u8; 4096];
    let len = match rt.arg(i, &mut name) {
        Ok(len) => len,
        Err(why) => {
            let why = missed(why);
            tell(err, program, &name, &why);
            return Err(Unfinished { len: 0, why });
        }
    };
    let read = read_named(rt, &name[..len], text);
    if let Err(unfinished) = &read {
        tell(err, program, &name[..len], &unfinished.why);
    }
    read
}

// The bytes of the file that an argument names, or these, where there is no such argument.
pub fn read_argument_or<R: Env + Files, P: Print>(
    rt: &R,
    err: &P,
    program: &[u8],
    i: usize,
    other: &[u8],
    text: &mut [u8; 65537],
) -> Result<usize, Unfinished>
    requires { length other.now ≤ 65537 }
    ensures { IsPrefixLen (read_len result) text.new }
{
    if i < arg_count(rt) {
        return read_argument(rt, err, program, i, text);
    }
    let len = other.len();
    text[..len].copy_from_slice(other);
    Ok(len)
}
