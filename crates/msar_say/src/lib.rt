// What the program says on standard error: notes, and at the end one line that begins with `msar: error` or `msar: refused`.
#![tactic(auto)]

pub mod file;
pub mod put;
pub mod refusals;

use host_io::EprintBytes;
use put::Text;
use std::io;

// ---- errors of the command line

pub fn error(rt: &impl EprintBytes, what: &[u8]) {
    error_of(rt, what, b"");
}

// With the word of the command line that is at fault.
pub fn error_of(rt: &impl EprintBytes, what: &[u8], word: &[u8]) {
    let mut out = error_begun(what);
    out.bytes(word);
    out.say_line(rt);
}

// With the system's word for why a file could not be opened or read.
pub fn failed(rt: &impl EprintBytes, what: &[u8], path: &[u8], error: io::Error) {
    let mut out = error_begun(what);
    out.name(path);
    out.bytes(b": ");
    let told = host_io::told(error);
    out.bytes(host_io::words(told.as_str()).as_bytes());
    out.say_line(rt);
}

fn error_begun(what: &[u8]) -> Text {
    let mut out = Text::new();
    out.bytes(b"msar: error: ");
    out.bytes(what);
    out
}

// ---- notes, beside an answer

pub fn note(rt: &impl EprintBytes, what: &[u8]) {
    let mut out = note_begun();
    out.bytes(what);
    out.say_line(rt);
}

// With a whole number between two texts.
pub fn note_of(rt: &impl EprintBytes, before: &[u8], i: usize, behind: &[u8]) {
    let mut out = note_begun();
    out.bytes(before);
    out.whole(i as u64);
    out.bytes(behind);
    out.say_line(rt);
}

pub fn note_begun() -> Text {
    let mut out = Text::new();
    out.bytes(b"msar: note: ");
    out
}
