// The lines of a file, read in blocks of 4,096 bytes. A line's end is no part of it.
ghost use Rattle.std.specs.Prelude.{◌≤◌, length};

use arrayvec::ArrayVec;
use host_io::EprintBytes;
use msar_say::file::At;
use std::io;
use std::io::Read;
use text_words::Span;

// Room for a line.
pub type Text = ArrayVec<u8, 4096>;

// ---- a line, and parts of it

#[derive(Clone, Copy)]
pub struct Line<'a> {
    pub path: &'a [u8],
    pub number: u64,
    pub text: &'a [u8],
}

impl<'a> Line<'a> {
    // The line with this number, without a byte order mark.
    pub fn of(path: &'a [u8], number: u64, text: &'a [u8]) -> Line<'a> {
        let from = text_words::mark(text, number == 1);
        Line {
            path,
            number,
            text: &text[from..],
        }
    }

    pub fn at(self, column: u64) -> At<'a> {
        At {
            path: self.path,
            line: self.number,
            column,
        }
    }
}

// The column of a place in a line. Columns count from 1.
pub fn column(place: usize) -> u64 {
    place.min(4096) as u64 + 1
}

// A part of a line, and the column where it begins.
#[derive(Clone, Copy)]
pub struct Part<'a> {
    pub column: u64,
    pub text: &'a [u8],
}

impl<'a> Part<'a> {
    pub fn of(line: &'a [u8], span: Span) -> Part<'a>
        requires { span.end ≤ length line.now }
    {
        Part::at(span.start, span.of(line))
    }

    // What the line has between these places.
    pub fn within(line: &'a [u8], span: Span) -> Part<'a> {
        Part::of(line, text_words::part(line, span.start, span.end))
    }

    // The text that begins at this place.
    pub fn at(place: usize, text: &'a [u8]) -> Part<'a> {
        Part {
            column: column(place),
            text,
        }
    }
}

// ---- what is at fault in a line

pub trait Say {
    fn say(self, rt: &impl EprintBytes, line: Line<'_>);
}

// What was found, if nothing is at fault, which is said by then.
pub fn said<T: Drop, E: Say>(
    rt: &impl EprintBytes,
    line: Line<'_>,
    found: Result<T, E>,
) -> Option<T> {
    match found {
        Ok(found) => Some(found),
        Err(fault) => {
            fault.say(rt, line);
            None
        }
    }
}

// ---- where a line cannot be read

#[derive(Clone, Copy)]
pub enum Unread {
    Long,
    Failed(io::Error),
}

impl From<io::Error> for Unread {
    fn from(error: io::Error) -> Unread {
        Unread::Failed(error)
    }
}

impl Unread {
    pub fn say(self, rt: &impl EprintBytes, path: &[u8], line: u64) {
        match self {
            Unread::Long => At {
                path,
                line,
                column: 4097,
            }
            .expected(rt, b"the line's end: a line has at most 4096 bytes"),
            Unread::Failed(error) => msar_say::failed(rt, b"cannot read ", path, error),
        }
    }
}

// ---- the lines of a file

// What was read of the file and not yet taken: of the block's first `have` bytes those from `at` on.
#[derive(Drop)]
pub struct Lines {
    block: [u8; 4096],
    at: usize,
    have: usize,
    ghost within: { have ≤ 4096 },
}

impl Lines {
    pub fn new() -> Lines {
        Lines {
            block: [0; 4096],
            at: 0,
            have: 0,
        }
    }

    // None where the file ends.
    fn byte(&mut self, input: &mut impl Read) -> io::Result<Option<u8>> {
        if self.at >= self.have {
            self.have = input.read(&mut self.block)?;
            self.at = 0;
            if self.have == 0 {
                return Ok(None);
            }
        }
        let c = self.block[self.at];
        self.at += 1;
        Ok(Some(c))
    }

    // Puts the next line into `line`, and says whether there is one. Where the file ends, the bytes that came are a line, though nothing
    // ends it.
    pub fn next(&mut self, input: &mut impl Read, line: &mut Text) -> Result<bool, Unread> {
        line.clear();
        for _ in 0..=line.capacity() {
            match self.byte(input)? {
                None => return Ok(!line.is_empty()),
                Some(b'\n') => return Ok(true),
                Some(c) if line.is_full() => return Err(Unread::Long),
                Some(c) => line.push(c),
            }
        }
        Err(Unread::Long)
    }
}

// Hands the lines of the file on, one after the other, and gives the number of the line behind the last. None where `take` gives up, or
// a line cannot be read, which is said by then. A proved loop has to end, and nothing says that the file does: it stops after 2 ^ 32
// lines.
pub fn each<F: FnMut(Line<'_>) -> Option<()>>(
    rt: &impl EprintBytes,
    input: &mut impl Read,
    path: &[u8],
    mut take: F,
) -> Option<u64>
    requires { F.IsAlwaysCallable take }
{
    let mut lines = Lines::new();
    let mut text = Text::new();
    for number in 1..0x1_0000_0000u64 {
        match lines.next(input, &mut text) {
            Ok(true) => take(Line::of(path, number, text.as_slice()))?,
            Ok(false) => return Some(number),
            Err(unread) => {
                unread.say(rt, path, number);
                return None;
            }
        }
    }
    // no call failed: the system's words for its number 0
    let error = io::Error::from_raw_os_error(0);
    msar_say::failed(rt, b"too many lines in ", path, error);
    None
}
