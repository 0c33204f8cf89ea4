// Reads a SERIES file.
use crate::csv::{Columns, Layout};
use crate::fault::Fault;
use crate::lines;
use crate::lines::{Line, Part, Say, said};
use crate::readings::{HEADING, Readings};
use host_io::EprintBytes;
use msar_say::file::At;
use std::io::Read;
use text_series::Item;

// How many readings there are, past the room for them, and whether they stand under a heading.
#[derive(Clone, Copy)]
pub struct Reading {
    pub count: usize,
    pub headed: bool,
}

// So far: the readings counted; the line of the first blank one since the last reading; what the first line says of the columns;
// whether every reading could be half a number.
#[derive(Clone, Copy)]
struct Progress {
    count: usize,
    blank: Option<u64>,
    layout: Option<Layout>,
    doubtful: bool,
}

impl Progress {
    fn none() -> Progress {
        Progress {
            count: 0,
            blank: None,
            layout: None,
            doubtful: false,
        }
    }

    // A blank line is fine where nothing but blank lines and comments follows it.
    fn blank_line(&mut self, line: Line<'_>) -> Option<()> {
        self.blank = self.blank.or(Some(line.number));
        Some(())
    }

    fn follows(self) -> Result<(), Fault<'static>> {
        match self.blank {
            Some(number) => Err(Fault::Blank(number)),
            None => Ok(()),
        }
    }

    fn count(&mut self, line: Line<'_>, x: f64, readings: &mut Readings) {
        self.count = self.count.saturating_add(1);
        readings.add(x, line.number);
    }

    // ---- without columns

    fn plain(
        &mut self,
        rt: &impl EprintBytes,
        line: Line<'_>,
        readings: &mut Readings,
    ) -> Option<()> {
        let item = match text_series::read(line.text) {
            Item::Comment => return Some(()),
            Item::Blank => return self.blank_line(line),
            Item::Reading(x) => Ok(x),
            Item::Missing(word) => Err(Fault::Missing(Part::within(line.text, word))),
            Item::NoNumber(word) => Err(Fault::NoNumber(Part::within(line.text, word))),
            Item::Second(place) => Err(Fault::Second(place)),
        };
        let x = said(rt, line, item)?;
        said(rt, line, self.follows())?;
        self.count(line, x, readings);
        Some(())
    }

    // ---- with columns

    fn first(
        &mut self,
        rt: &impl EprintBytes,
        line: Line<'_>,
        columns: Columns<'_>,
    ) -> Option<Layout> {
        let layout = said(rt, line, columns.layout(line.text))?;
        let cell = columns.content(line.text, layout.column).text;
        let heading = if layout.headed { Some(cell) } else { None };
        msar_say::file::column_read(rt, line.path, lines::column(layout.column), heading);
        self.layout = Some(layout);
        self.doubtful = !layout.headed & columns.separator.is_none();
        Some(layout)
    }

    fn heading(
        &self,
        rt: &impl EprintBytes,
        line: Line<'_>,
        columns: Columns<'_>,
        layout: Layout,
        readings: &mut Readings,
    ) -> Option<()> {
        if let Some(cell) = said(rt, line, columns.kept_cell(layout, line.text))? {
            readings.keep(HEADING, cell);
        }
        Some(())
    }

    fn row(
        &mut self,
        rt: &impl EprintBytes,
        line: Line<'_>,
        columns: Columns<'_>,
        layout: Layout,
        readings: &mut Readings,
    ) -> Option<()> {
        let x = said(rt, line, columns.reading(layout, line.text))?;
        self.doubtful = self.doubtful && columns.row(line.text).is_doubtful(layout.column);
        // where a blank line and the kept cell are at fault, both are said
        let follows = said(rt, line, self.follows());
        let kept = said(rt, line, columns.kept_cell(layout, line.text))?;
        follows?;
        if let Some(cell) = kept {
            readings.keep(self.count, cell);
        }
        self.count(line, x, readings);
        Some(())
    }

    fn cells(
        &mut self,
        rt: &impl EprintBytes,
        line: Line<'_>,
        columns: Columns<'_>,
        readings: &mut Readings,
    ) -> Option<()> {
        if columns.is_blank(line.text) {
            return self.blank_line(line);
        }
        if !text_words::closed(line.text) {
            Fault::Unclosed.say(rt, line);
            return None;
        }
        match self.layout {
            Some(layout) => self.row(rt, line, columns, layout, readings),
            None => {
                let layout = self.first(rt, line, columns)?;
                if layout.headed {
                    return self.heading(rt, line, columns, layout, readings);
                }
                self.row(rt, line, columns, layout, readings)
            }
        }
    }

    // ---- the end

    // Without a heading nothing says that a comma parts cells and does not cut numbers.
    fn ended(self, rt: &impl EprintBytes, path: &[u8], readings: &Readings) -> Option<Reading> {
        if self.doubtful & (self.count > 0) {
            let at = At {
                path,
                line: readings.lines.as_slice().first().copied().unwrap_or(1),
                column: 1,
            };
            at.wrong(
                rt,
                b"every reading could be a part of a number that a comma cuts in two, as `0,37` or `1,234.5`: write a point and no comma, or say with --separator , that commas part the cells",
            );
            return None;
        }
        Some(Reading {
            count: self.count,
            headed: self.layout.is_some_and(|layout| layout.headed),
        })
    }
}

// The readings of the file, with their lines and the kept cells, as far as there is room. None where something is at fault, which is said
// by then.
pub fn read(
    rt: &impl EprintBytes,
    input: &mut impl Read,
    path: &[u8],
    columns: Option<Columns<'_>>,
    readings: &mut Readings,
) -> Option<Reading> {
    let mut progress = Progress::none();
    lines::each(rt, input, path, |line| match columns {
        Some(columns) => progress.cells(rt, line, columns, readings),
        None => progress.plain(rt, line, readings),
    })?;
    progress.ended(rt, path, readings)
}
