// What is at fault in a file: its name, a line and a byte of the line, both counted from 1, and what was found or expected there.
use crate::note_begun;
use crate::put::Text;
use host_io::EprintBytes;
use std::fmt::Write;
use text_no_number::Why;

// The place.
#[derive(Clone, Copy)]
pub struct At<'a> {
    pub path: &'a [u8],
    pub line: u64,
    pub column: u64,
}

impl<'a> At<'a> {
    // An error there, begun.
    fn begun(self) -> Text {
        let mut out = Text::new();
        out.bytes(b"msar: error: ");
        out.name(self.path);
        let _ = write!(out, ":{}:{}: ", self.line, self.column);
        out
    }

    pub fn wrong(self, rt: &impl EprintBytes, what: &[u8]) {
        self.wrong_of(rt, what, b"", b"");
    }

    // What is said of a text that was found there or asked for, before it and behind it.
    pub fn wrong_of(self, rt: &impl EprintBytes, before: &[u8], text: &[u8], behind: &[u8]) {
        let mut out = self.begun();
        out.bytes(before);
        out.bytes(text);
        out.bytes(behind);
        out.say_line(rt);
    }

    // The same of a text that stands between back quotes.
    pub fn found(self, rt: &impl EprintBytes, before: &[u8], text: &[u8], behind: &[u8]) {
        let mut out = self.begun();
        out.bytes(before);
        out.quoted(text);
        out.bytes(behind);
        out.say_line(rt);
    }

    // Of two such texts, the second behind the words between them.
    pub fn found_both(
        self,
        rt: &impl EprintBytes,
        before: &[u8],
        text: &[u8],
        between: &[u8],
        other: &[u8],
        behind: &[u8],
    ) {
        let mut out = self.begun();
        out.bytes(before);
        out.quoted(text);
        out.bytes(between);
        out.quoted(other);
        out.bytes(behind);
        out.say_line(rt);
    }

    // Of two counts.
    pub fn counted(
        self,
        rt: &impl EprintBytes,
        before: &[u8],
        i: usize,
        between: &[u8],
        j: usize,
        behind: &[u8],
    ) {
        let mut out = self.begun();
        out.bytes(before);
        out.whole(i as u64);
        out.bytes(between);
        out.whole(j as u64);
        out.bytes(behind);
        out.say_line(rt);
    }

    pub fn expected(self, rt: &impl EprintBytes, what: &[u8]) {
        self.wrong_of(rt, b"expected ", what, b"");
    }

    // With a count.
    pub fn expected_count(self, rt: &impl EprintBytes, what: &[u8], count: usize) {
        let mut out = self.begun();
        out.bytes(b"expected ");
        out.bytes(what);
        out.whole(count as u64);
        out.say_line(rt);
    }

    // The text, and why it is no number.
    pub fn no_number(self, rt: &impl EprintBytes, text: &[u8]) {
        let mut out = self.begun();
        out.quoted(text);
        out.bytes(b" is no number");
        out.bytes(advice(text_no_number::reason(text)));
        out.say_line(rt);
    }
}

fn advice(why: Why) -> &'static [u8] {
    match why {
        Why::Empty | Why::Missing =>
            b": a missing reading has to be filled in or left out beforehand, the model has no place for it",
        Why::Comma =>
            b": if it has a decimal comma, write a point; if commas part cells, name the column with --column",
        Why::Cells =>
            b": if it is a line or a part of a CSV file, name the column with --column, and what parts its cells with --separator",
        Why::Minus => b": its minus sign is another character than `-`",
        Why::Digits => b": it has more than 19 significant digits",
        Why::Exponent => b": its exponent is beyond 400",
        Why::More =>
            b": it begins with one, and what stands behind it (a unit, say, or another cell) does not belong there",
        Why::Wide => b": the file looks like UTF-16, save it as UTF-8",
        Why::Other =>
            b": a number is digits, with or without a sign, a point, an exponent (-0.25, 2e-3)",
    }
}

// Which column was read, by its place from 1 and its heading, if the file has one.
pub fn column_read(rt: &impl EprintBytes, path: &[u8], column: u64, heading: Option<&[u8]>) {
    let mut out = note_begun();
    out.name(path);
    let _ = write!(out, ": the readings are column {column}");
    match heading {
        None => out.bytes(b", the file has no heading"),
        Some(heading) => {
            out.bytes(b", headed ");
            out.quoted(heading);
        }
    }
    out.say_line(rt);
}
