// A message or a row of output, put together piece by piece. What finds no room is left out; the largest message fits.
ghost use Rattle.std.specs.Prelude.{◌≡◌, ◌≤◌, [], ◌++◌, take, decimal};

use host_io::EprintBytes;
use itoa::Buffer;
use std::fmt;

// Room for a path and a message, and for a model of 16 regimes, of 8,100 bytes.
const ROOM: usize = 16384;

// The text so far is the first bytes, as many as its length says.
#[derive(Clone, Copy)]
pub struct Text {
    pub bytes: [u8; ROOM],
    pub length: usize,
    pub ghost within: { length ≤ 16384 },
}

// For `write!`. It is never refused: what finds no room is left out.
impl fmt::Write for Text {
    fn write_str(&mut self, text: &str) -> fmt::Result {
        self.bytes(text.as_bytes());
        Ok(())
    }
}

impl Text {
    ghost use Rattle.msar_say.specs.SoFar.{bytes_so_far};

    pub fn new() -> Self
        ensures { bytes_so_far result ≡ [] }
    {
        Text {
            bytes: [0; ROOM],
            length: 0,
        }
    }

    pub fn as_slice(&self) -> &[u8]
        ensures { result.now ≡ bytes_so_far self.now }
    {
        &self.bytes[..self.length]
    }

    // As many of the bytes as find room.
    pub fn bytes(&mut self, text: &[u8])
        ensures { bytes_so_far self.new ≡ take 16384 (bytes_so_far self.old ++ text.now) }
    {
        self.length = text_words::put(&mut self.bytes, self.length, text);
    }

    pub fn whole(&mut self, n: u64)
        ensures { bytes_so_far self.new ≡ take 16384 (bytes_so_far self.old ++ decimal n) }
    {
        let mut digits = Buffer::new();
        self.bytes(digits.format(n).as_bytes());
    }

    // 17 significant digits, from which the same bits are read back.
    pub fn number(&mut self, x: f64) {
        self.figure(x, None);
    }

    // With so many digits, or all 17.
    pub fn figure(&mut self, x: f64, digits: Option<usize>) {
        self.bytes(written(x, digits).as_slice());
    }

    // The name of a file, as an error names it.
    pub fn name(&mut self, path: &[u8]) {
        match path {
            b"-" => self.bytes(b"standard input"),
            _ => self.bytes(path),
        }
    }

    // Says the text on standard error.
    pub fn say(&self, rt: &impl EprintBytes) {
        host_io::complain(rt, self.as_slice());
    }

    // Ends the line, and says it.
    pub fn say_line(&mut self, rt: &impl EprintBytes) {
        self.bytes(b"\n");
        self.say(rt);
    }

    // ---- a text that was found in a file

    // The text between back quotes; an empty one is named so.
    pub fn quoted(&mut self, text: &[u8]) {
        if text.is_empty() {
            self.bytes(b"an empty cell");
            return;
        }
        self.bytes(b"`");
        self.start_of(text);
        self.bytes(b"`");
    }

    // The first bytes of the text, at most 48.
    fn start_of(&mut self, text: &[u8]) {
        for c in text.iter().take(48) {
            self.bytes(&[shown(*c)]);
        }
        if text.len() > 48 {
            self.bytes(b"..");
        }
    }
}

// A byte that a terminal may show. Those of letters beyond ASCII pass, those that no letter has do not.
fn shown(c: u8) -> u8 {
    match c {
        0..32 | 127 | 0xC0 | 0xC1 | 0xF5.. => b'?',
        _ => c,
    }
}

// ---- numbers

// For people to read: so many digits, as C's `%g` lays them out. Without a number of digits all 17.
fn written(x: f64, digits: Option<usize>) -> text_decimal_write::Written {
    match digits {
        Some(n) => text_decimal_short::short(x, n),
        None => text_decimal_write::write(x),
    }
}

// A number of so many digits, or of all 17, for `{}`.
#[derive(Clone, Copy)]
pub struct Figure {
    pub value: f64,
    pub digits: Option<usize>,
}

impl Figure {
    pub fn of(value: f64, digits: usize) -> Figure {
        Figure {
            value,
            digits: Some(digits),
        }
    }
}

impl fmt::Display for Figure {
    fn fmt<W: fmt::Write>(&self, f: &mut fmt::Formatter<W>) -> fmt::Result {
        for c in written(self.value, self.digits).as_slice() {
            f.write_char(char::from(*c))?;
        }
        Ok(())
    }
}
