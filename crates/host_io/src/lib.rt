// What the programs do outside themselves, over std: standard input, output and error, the words of the command line, and files.
// Each takes the runtime's handle that `main` is given, by as few of its traits as it needs. Nothing here takes memory of the heap.
#![tactic(auto)]

ghost use Rattle.std.specs.Prelude.{◌≡◌, ◌≤◌, length};

use arrayvec::ArrayString;
use std::env::FillError;
use std::fmt::Write;
use std::io::{Input, Read};
use std::rt::{Env, Files};
use std::{fs, io, str};

// ---- standard output and error

// Standard error for bytes that need not be text, as a path or a cell of a file; std's Eprint prints text alone.
pub trait EprintBytes {
    fn eprint_bytes(&self, bytes: &[u8]) -> io::Result<()>;
}

impl EprintBytes for HostRuntime {
    fn eprint_bytes(&self, bytes: &[u8]) -> io::Result<()> {
        self.stderr().write_all(bytes)
    }
}

// Writes all of the bytes to standard output, and says whether that went through.
pub fn write_all(rt: &impl Print, bytes: &[u8]) -> bool {
    rt.write_all(bytes).is_ok()
}

// Writes n in decimal digits.
pub fn print_decimal(rt: &impl Print, n: u64) -> bool {
    rt.print(n).is_ok()
}

// Writes n in 16 hexadecimal digits.
pub fn print_hex(rt: &impl Print, n: u64) -> bool {
    print!(rt; "{n:016x}").is_ok()
}

// Writes the bytes to standard error, as far as it takes them.
pub fn complain(rt: &impl EprintBytes, bytes: &[u8]) {
    let _ = rt.eprint_bytes(bytes);
}

// ---- standard input

// Reads until `buf` is full, the input ends or a read fails, and says how many bytes it put at the start of `buf`.
pub fn read_full(rt: &impl Input, buf: &mut [u8]) -> usize
    ensures { result ≤ length buf.new }
{
    let mut input = rt.reader();
    let mut done = 0;
    for _ in 0..buf.len() {
        let n = read_some(&mut input, &mut buf[done..]);
        if n == 0 {
            return done;
        }
        done += n;
    }
    done
}

// 0 where the input ends, as std's `read` says it, or a read fails.
fn read_some(input: &mut impl Read, buf: &mut [u8]) -> usize
    ensures { result ≤ length buf.new }
{
    input.read(buf).unwrap_or(0)
}

// ---- the command line

// 4,096 zeros: room for a word of the command line, a path, or a line of a file.
pub fn buffer() -> [u8; 4096]
    ensures { 4096 ≡ length result }
{
    [0; 4096]
}

// Puts word i of the command line at the start of `buf`, and says how many bytes it has: 0 where there is none, or it does not fit,
// which its callers take for an empty word.
// Word 0 is the program's name.
pub fn arg(rt: &impl Env, i: usize, buf: &mut [u8]) -> usize
    ensures { result ≤ length buf.new }
{
    rt.arg(i, buf).unwrap_or(0)
}

// How many words there are, the program's name among them.
pub fn arg_count(rt: &impl Env) -> usize {
    (0..usize::MAX).take_while(|i| has_arg(rt, *i)).count()
}

fn has_arg(rt: &impl Env, i: usize) -> bool {
    let mut start = [0; 1];
    !matches!(rt.arg(i, &mut start), Err(FillError::NotPresent))
}

// ---- files

// Opens the file for reading. A name that is not UTF-8 is none that std opens.
pub fn open_read<R: Files>(rt: &R, path: &[u8]) -> io::Result<R::File> {
    match str::from_utf8(path) {
        Ok(name) => fs::open(rt, name),
        Err(_) => Err(io::Error::from(io::ErrorKind::InvalidFilename)),
    }
}

// What a program reads: a file, or standard input.
#[derive(Drop)]
pub enum Opened<F, I> {
    File(F),
    Input(I),
}

impl<F: Read, I: Read> Read for Opened<F, I> {
    fn read(&mut self, buf: &mut [u8]) -> io::Result<usize> {
        match self {
            Opened::File(file) => file.read(buf),
            Opened::Input(input) => input.read(buf),
        }
    }
}

// ---- why a call failed

// An error as std writes it; behind one of the system's stands its number, as ` (os error 2)`.
pub type Told = ArrayString<320>;

pub fn told(error: io::Error) -> Told {
    let mut text = ArrayString::new();
    let _ = write!(text, "{error}");
    text
}

// The error's own words, as `No such file or directory`, without a number behind them.
pub fn words(text: &str) -> &str {
    match text.split_once(" (os error ") {
        Some((words, _)) => words,
        None => text,
    }
}
