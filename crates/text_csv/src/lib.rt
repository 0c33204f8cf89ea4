// A line of a CSV file: a heading that names the columns, or a row of cells. docs/MODEL.md has the rules. Cells count from 0.
#![tactic(auto)]

ghost use Rattle.std.specs.Prelude.{◌≤◌, length};

use text_words::Span;

// What the caller says of the first line: that it is a heading, that it is none, or nothing.
// Not an Option<bool>, which is no plainer: each use would have to say again that true is the heading.
#[derive(Clone, Copy, PartialEq, Eq)]
pub enum Heading {
    Open,
    Given,
    Absent,
}

// What the first line is: a heading, where no cell is a number; a row, where each is; or both, with a cell of either kind.
#[derive(Clone, Copy, PartialEq, Eq)]
pub enum First {
    Names,
    Row,
    Mixed(usize, usize),
}

// Why no one column is meant under a heading line.
#[derive(Clone, Copy, PartialEq, Eq)]
pub enum NoColumn {
    Nothing,
    // two columns have the name
    Twice(usize, usize),
    // another column has the place for its name
    Other(usize),
}

// The place that is asked for, where the word is one: `#` and a number from 1 on. Anything else is a name.
pub fn asked(word: &[u8]) -> Option<usize> {
    let [b'#', digits @ ..] = word else {
        return None;
    };
    match text_words::whole(digits) {
        None | Some(0) => None,
        Some(n) => Some(n - 1),
    }
}

// A line, and the byte that parts its cells.
#[derive(Clone, Copy)]
pub struct Row<'a> {
    pub line: &'a [u8],
    pub separator: u8,
}

impl<'a> Row<'a> {
    // ---- cells

    // Where the cell's content stands.
    pub fn content(self, number: usize) -> Span
        ensures { result.end ≤ length self.entry.line.now }
    {
        text_words::unquoted(
            self.line,
            text_words::cell(self.line, number, self.separator),
        )
    }

    fn text(self, number: usize) -> &'a [u8] {
        self.content(number).of(self.line)
    }

    fn count(self) -> usize {
        text_words::cells(self.line, self.separator)
    }

    fn is_number(self, number: usize) -> bool {
        text_decimal_read::read(self.text(number)).is_ok()
    }

    // ---- the first line

    // What the line is as the first of a file.
    pub fn first_line(self) -> First {
        let count = self.count();
        let Some(number) = (0..count).find(|i| self.is_number(*i)) else {
            return First::Names;
        };
        match (0..count).find(|i| !self.is_number(*i)) {
            None => First::Row,
            Some(name) => First::Mixed(number, name),
        }
    }

    // The one column with this name.
    fn named(self, name: &[u8]) -> Result<usize, NoColumn> {
        let mut places = (0..self.count()).filter(|i| self.text(*i) == name);
        let i = places.next().ok_or(NoColumn::Nothing)?;
        match places.next() {
            None => Ok(i),
            Some(j) => Err(NoColumn::Twice(i, j)),
        }
    }

    // The word is `#` and the place; a column may have just that for its name.
    fn placed(self, word: &[u8], i: usize) -> Result<usize, NoColumn> {
        let count = self.count();
        if i >= count {
            return Err(NoColumn::Nothing);
        }
        match (0..count).find(|j| *j != i && self.text(*j) == word) {
            None => Ok(i),
            Some(j) => Err(NoColumn::Other(j)),
        }
    }

    // Where the column of this word stands under the heading line.
    pub fn under(self, word: &[u8]) -> Result<usize, NoColumn> {
        match asked(word) {
            None => self.named(word),
            Some(i) => self.placed(word, i),
        }
    }

    // Whether a cell begins as a number or a date does: with a digit, or with a sign or point.
    fn begins_as_number(self, number: usize) -> bool {
        matches!(
            self.text(number),
            [b'0'..=b'9' | b'-' | b'+' | b'.' | 0xE2, ..]
        )
    }

    // The first of `count` cells of a line of names that begins as a number does. Such a line may be a damaged row.
    pub fn first_strange(self, count: usize) -> Option<usize> {
        (0..count).find(|i| self.begins_as_number(*i))
    }

    // ---- a number that a comma cuts in two

    // Whether these two cells could be one number.
    fn is_cut(self, before: usize, behind: usize) -> bool {
        is_whole(self.text(before)) && is_behind(self.text(behind))
    }

    // Whether the cell could be a part of a number that a comma cuts in two.
    pub fn is_doubtful(self, number: usize) -> bool {
        if number >= 4096 {
            return false;
        }
        self.is_cut(number, number + 1) || (number > 0 && self.is_cut(number - 1, number))
    }
}

// A sign or none, and digits alone.
fn is_whole(text: &[u8]) -> bool {
    let digits = match text {
        [b'-' | b'+', rest @ ..] => rest,
        _ => text,
    };
    !digits.is_empty() && digits.iter().all(|c| c.is_ascii_digit())
}

// What may stand behind a comma: digits, with an exponent or none; or, where the comma parts thousands, three digits and a point.
fn is_behind(text: &[u8]) -> bool {
    let n = text.iter().take_while(|c| c.is_ascii_digit()).count();
    match text.get(n) {
        None | Some(b'e' | b'E') => n > 0,
        Some(b'.') => n == 3,
        Some(_) => false,
    }
}
