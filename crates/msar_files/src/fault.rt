// What is at fault in a line of a SERIES.
use crate::lines::{Line, Part, Say, column};
use host_io::EprintBytes;

#[derive(Clone, Copy)]
pub enum Fault<'a> {
    // a blank line before this one, with this number
    Blank(u64),
    NoNumber(Part<'a>),
    // without columns: a comment that stands for a missing reading; a second word
    Missing(Part<'a>),
    Second(usize),
    // with columns
    Unclosed,
    // so many cells, and the first line has so many
    Cells(usize, usize),
    // a cell that cannot be kept
    Long(Part<'a>),
    Loose(Part<'a>),
}

// In a first line with columns.
#[derive(Clone, Copy)]
pub enum FirstFault<'a> {
    Semicolons,
    Tabs,
    // a number, and a cell that is none
    Mixed(&'a [u8], &'a [u8]),
    // a name, or a damaged reading
    Strange(Part<'a>),
    Column(ColumnFault<'a>),
}

// In the word that asks for a column.
#[derive(Clone, Copy)]
pub enum ColumnFault<'a> {
    // no column is headed so; two are; it is the place of one column, and heads another
    NoName(&'a [u8]),
    Twice(usize, usize),
    Other(&'a [u8]),
    // it is a name, and there is no heading; it is a place behind the last
    NoHeading(&'a [u8]),
    Fewer(&'a [u8]),
}

impl<'a> From<ColumnFault<'a>> for FirstFault<'a> {
    fn from(fault: ColumnFault<'a>) -> FirstFault<'a> {
        FirstFault::Column(fault)
    }
}

impl Say for ColumnFault<'_> {
    fn say(self, rt: &impl EprintBytes, line: Line<'_>) {
        let at = line.at(1);
        match self {
            ColumnFault::NoName(word) => at.found_both(
                rt,
                b"no column ",
                word,
                b" in the heading line ",
                line.text,
                b" (a column by its place is '#2', say)",
            ),
            ColumnFault::Twice(i, j) => at.counted(
                rt,
                b"two columns have this heading, ",
                i.min(4096) + 1,
                b" and ",
                j.min(4096) + 1,
                b": name the one by its place, '#2', say",
            ),
            ColumnFault::Other(word) => at.found(
                rt,
                b"another column than the one at this place is headed ",
                word,
                b": name the column that is meant by its heading",
            ),
            ColumnFault::NoHeading(word) => at.found(
                rt,
                b"no column ",
                word,
                b": there is no heading line; a column by its place is '#2', say",
            ),
            ColumnFault::Fewer(word) => at.found(rt, b"no column ", word, b": there are fewer"),
        }
    }
}

impl Say for FirstFault<'_> {
    fn say(self, rt: &impl EprintBytes, line: Line<'_>) {
        let at = line.at(1);
        match self {
            FirstFault::Semicolons => at.wrong(
                rt,
                b"cells seem to be parted by `;` here: say so with --separator ';', or --separator , if it is commas",
            ),
            FirstFault::Tabs => at.wrong(
                rt,
                b"cells seem to be parted by tabs here: say so with --separator tab, or --separator , if it is commas",
            ),
            FirstFault::Mixed(number, cell) => at.found_both(
                rt,
                b"the first line has a number, ",
                number,
                b", and a cell that is none, ",
                cell,
                b": say --heading, if it is a heading, or --no-heading",
            ),
            FirstFault::Strange(cell) => line.at(cell.column).found(
                rt,
                b"",
                cell.text,
                b" may be a heading, or a reading that is damaged or missing: say --heading or --no-heading",
            ),
            FirstFault::Column(fault) => fault.say(rt, line),
        }
    }
}

impl Say for Fault<'_> {
    fn say(self, rt: &impl EprintBytes, line: Line<'_>) {
        match self {
            Fault::Blank(number) => Line { number, ..line }.at(1).wrong(
                rt,
                b"a blank line, and more readings follow: one may be missing here",
            ),
            Fault::NoNumber(part) => line.at(part.column).no_number(rt, part.text),
            Fault::Missing(part) => line.at(part.column).found(
                rt,
                b"",
                part.text,
                b" stands for a missing reading, and would be passed over as a comment: fill it in, or take the line out",
            ),
            Fault::Second(place) => line.at(column(place)).wrong(
                rt,
                b"a second word: a line has one number alone (the cells of a CSV file need --column)",
            ),
            Fault::Unclosed => line.at(1).wrong(rt, b"a quote is not closed on this line"),
            Fault::Cells(count, first) => line.at(1).counted(
                rt,
                b"this line has ",
                count,
                b" cells, and the first one ",
                first,
                b": a cell is missing, or a decimal comma or a comma between thousands cuts a number in two: write a point; a text that has commas goes between quotes",
            ),
            Fault::Long(cell) => line.at(cell.column).found(
                rt,
                b"",
                cell.text,
                b" has more than the 63 bytes that --keep carries along",
            ),
            Fault::Loose(cell) => line.at(cell.column).found(
                rt,
                b"",
                cell.text,
                b" has quotes, and a comma outside them, which --keep cannot carry along",
            ),
        }
    }
}
