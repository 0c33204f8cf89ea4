// A SERIES file with columns: where they stand, and what its rows hold.
ghost use Rattle.std.specs.Prelude.{◌≡◌};

use crate::fault::{ColumnFault, Fault, FirstFault};
use crate::lines::Part;
use text_csv::{First, Heading, NoColumn, Row};

// What the caller says of the file: the word that asks for the column of the readings, and the one for the column that is to be kept;
// what parts the cells, and what the first line is.
#[derive(Clone, Copy)]
pub struct Columns<'a> {
    pub name: &'a [u8],
    pub kept: Option<&'a [u8]>,
    pub separator: Option<u8>,
    pub heading: Heading,
}

// What the first line says: whether it is a heading, how many cells a line has, and where the reading and the kept cell stand.
#[derive(Clone, Copy)]
pub struct Layout {
    pub headed: bool,
    pub cells: usize,
    pub column: usize,
    pub kept: Option<usize>,
}

// Where the column of this word stands under the heading.
fn under<'a>(names: Row<'_>, word: &'a [u8]) -> Result<usize, ColumnFault<'a>> {
    names.under(word).map_err(|fault| match fault {
        NoColumn::Nothing => ColumnFault::NoName(word),
        NoColumn::Twice(i, j) => ColumnFault::Twice(i, j),
        NoColumn::Other(_) => ColumnFault::Other(word),
    })
}

// The same without a heading: by place alone.
fn by_place(word: &[u8], cells: usize) -> Result<usize, ColumnFault<'_>> {
    match text_csv::asked(word) {
        None => Err(ColumnFault::NoHeading(word)),
        Some(i) if i < cells => Ok(i),
        Some(_) => Err(ColumnFault::Fewer(word)),
    }
}

// Whether the text would be several cells between commas, and cannot be put between quotes since it has some.
fn is_loose(text: &[u8]) -> bool {
    (text_words::cells(text, b',') > 1) & text.contains(&b'"')
}

impl<'a> Columns<'a> {
    pub(crate) fn separator(self) -> u8 {
        self.separator.unwrap_or(b',')
    }

    fn cells(self, text: &[u8]) -> usize {
        text_words::cells(text, self.separator())
    }

    pub(crate) fn row(self, line: &'a [u8]) -> Row<'a>
        ensures { result.line.now ≡ line.now }
    {
        Row {
            line,
            separator: self.separator(),
        }
    }

    // The content of the cell with this number.
    pub(crate) fn content(self, text: &'a [u8], i: usize) -> Part<'a> {
        Part::of(text, self.row(text).content(i))
    }

    // Where tabs part the cells, a line of tabs has cells.
    pub(crate) fn is_blank(self, text: &[u8]) -> bool {
        text_words::is_blank_line(text) && !text.contains(&self.separator())
    }

    // ---- the first line

    // Refused where another character than a comma seems to part cells.
    fn parted(self, text: &[u8]) -> Result<(), FirstFault<'a>> {
        if self.separator.is_some() {
            return Ok(());
        }
        if text.contains(&b';') {
            return Err(FirstFault::Semicolons);
        }
        if text.contains(&b'\t') {
            return Err(FirstFault::Tabs);
        }
        Ok(())
    }

    fn kind(self, text: &'a [u8]) -> First {
        let heading = self.heading;
        match heading {
            Heading::Given => First::Names,
            Heading::Absent => First::Row,
            Heading::Open => self.row(text).first_line(),
        }
    }

    // A line of names that may be a damaged row, where a column is asked for by its place.
    fn sound(self, text: &'a [u8], column: usize) -> Result<(), FirstFault<'a>> {
        if self.heading != Heading::Open || text_csv::asked(self.name).is_none() {
            return Ok(());
        }
        if let Some(i) = self.row(text).first_strange(self.cells(text)) {
            return Err(FirstFault::Strange(self.content(text, i)));
        }
        let cell = self.content(text, column);
        if text_no_number::is_missing(cell.text) {
            return Err(FirstFault::Strange(cell));
        }
        Ok(())
    }

    fn headed(self, text: &'a [u8]) -> Result<Layout, FirstFault<'a>> {
        let column = under(self.row(text), self.name)?;
        self.sound(text, column)?;
        let kept = match self.kept {
            Some(word) => Some(under(self.row(text), word)?),
            None => None,
        };
        Ok(Layout {
            headed: true,
            cells: self.cells(text),
            column,
            kept,
        })
    }

    // A first line that is a row.
    fn unheaded(self, text: &'a [u8]) -> Result<Layout, FirstFault<'a>> {
        let cells = self.cells(text);
        let column = by_place(self.name, cells)?;
        let kept = match self.kept {
            Some(word) => Some(by_place(word, cells)?),
            None => None,
        };
        Ok(Layout {
            headed: false,
            cells,
            column,
            kept,
        })
    }

    pub(crate) fn layout(self, text: &'a [u8]) -> Result<Layout, FirstFault<'a>> {
        self.parted(text)?;
        match self.kind(text) {
            First::Names => self.headed(text),
            First::Row => self.unheaded(text),
            First::Mixed(i, j) => Err(FirstFault::Mixed(
                self.content(text, i).text,
                self.content(text, j).text,
            )),
        }
    }

    // ---- a row

    // Its reading.
    pub(crate) fn reading(self, layout: Layout, text: &'a [u8]) -> Result<f64, Fault<'a>> {
        let count = self.cells(text);
        if count != layout.cells {
            return Err(Fault::Cells(count, layout.cells));
        }
        let cell = self.content(text, layout.column);
        text_decimal_read::read(cell.text).map_err(|_| Fault::NoNumber(cell))
    }

    // The cell that is to be carried along, if one is.
    pub(crate) fn kept_cell(
        self,
        layout: Layout,
        text: &'a [u8],
    ) -> Result<Option<&'a [u8]>, Fault<'a>> {
        let Some(kept) = layout.kept else {
            return Ok(None);
        };
        let cell = Part::of(text, text_words::cell(text, kept, self.separator()));
        if cell.text.len() > 63 {
            return Err(Fault::Long(cell));
        }
        if is_loose(cell.text) {
            return Err(Fault::Loose(cell));
        }
        Ok(Some(cell.text))
    }
}
