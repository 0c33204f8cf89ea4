// A MODEL, as `start` and `fit` write it: numbers with 17 digits, so that the same bits are read back.
use crate::{entry, is_written, row_start};
use host_io::EprintBytes;
use msar_say::put::{Figure, Text};
use params::MsarParams;
use std::fmt::Write;
use std::{fmt, io};
use text_model_line::Kind;

// What stands in front of a fitted MODEL. The best of so many starts was the one with this number.
#[derive(Clone, Copy)]
pub struct Head {
    pub loglik: f64,
    pub iterations: usize,
    pub converged: bool,
    pub parameters: usize,
    pub rows: usize,
    pub aic: f64,
    pub bic: f64,
    pub starts: usize,
    pub best: usize,
}

// ---- lines

// The numbers of row number `row`, of n numbers.
fn row_of(out: &mut Text, keyword: &[u8], values: &[f64], row: usize, n: usize) {
    let count = n.min(16);
    let from = row_start(row.min(15), count);
    out.bytes(keyword);
    for j in 0..count {
        out.bytes(b" ");
        out.number(entry(values, from + j));
    }
}

// A line of this kind; of the table and of the AR blocks the row with this number.
fn of_kind(q: MsarParams, kind: Kind, row: usize) -> Text {
    let k = q.means_count;
    let mut out = Text::new();
    match kind {
        Kind::Regimes => {
            let _ = write!(out, "regimes {k}");
        }
        Kind::Order => {
            let _ = write!(out, "order {}", q.order);
        }
        Kind::Transition => row_of(&mut out, b"transition", &q.transition, row, k),
        Kind::Means => row_of(&mut out, b"means", &q.means, 0, k),
        Kind::Ar => row_of(&mut out, b"ar", &q.ar, row, q.order),
        Kind::Variances => row_of(&mut out, b"variances", &q.variances, 0, q.variances_count),
    }
    out
}

fn write_line(rt: &impl Print, q: MsarParams, kind: Kind, row: usize) -> io::Result<()> {
    let mut out = of_kind(q, kind, row);
    out.bytes(b"\n");
    rt.write_all(out.as_slice())
}

// ---- a MODEL without one to follow

fn rows(rt: &impl Print, q: MsarParams, kind: Kind, count: usize) -> io::Result<()> {
    for row in 0..count.min(16) {
        write_line(rt, q, kind, row)?;
    }
    Ok(())
}

pub fn plain(rt: &impl Print, q: MsarParams) -> io::Result<()> {
    write_line(rt, q, Kind::Regimes, 0)?;
    write_line(rt, q, Kind::Order, 0)?;
    rows(rt, q, Kind::Transition, q.means_count)?;
    write_line(rt, q, Kind::Means, 0)?;
    rows(rt, q, Kind::Ar, q.ar_blocks)?;
    write_line(rt, q, Kind::Variances, 0)
}

// ---- a MODEL that follows the one that was read, line by line

fn kind_of(line: &[u8]) -> Option<Kind> {
    text_model_line::keyword(text_words::word(line, 0).of(line))
}

// A comment, or a blank line. What an earlier fit put in front is left away, and what `start` did.
fn as_it_stands(rt: &impl Print, line: &[u8]) -> io::Result<()> {
    if text_words::begins(line, b"# fit:") || text_words::begins(line, b"# start:") {
        return Ok(());
    }
    rt.write_all(line)?;
    rt.write_all(b"\n")
}

// The line's comment stays behind its numbers.
fn followed(rt: &impl Print, q: MsarParams, line: &[u8], kind: Kind, row: usize) -> io::Result<()> {
    let from = text_words::comment(line);
    let comment = &line[from..];
    if comment.is_empty() {
        return write_line(rt, q, kind, row);
    }
    let mut out = of_kind(q, kind, row);
    out.bytes(b"   ");
    out.bytes(comment);
    out.bytes(b"\n");
    rt.write_all(out.as_slice())
}

// The parameters q in the lines of `own`, the MODEL that was read.
fn following(rt: &impl Print, q: MsarParams, own: &[u8]) -> io::Result<()> {
    let lines = own.strip_suffix(b"\n").unwrap_or(own);
    let mut rows = 0usize;
    let mut blocks = 0usize;
    for line in lines.split(|c| *c == b'\n') {
        let kind = kind_of(line);
        match kind {
            None => as_it_stands(rt, line)?,
            Some(Kind::Transition) => {
                followed(rt, q, line, Kind::Transition, rows)?;
                rows = rows.saturating_add(1);
            }
            Some(Kind::Ar) => {
                followed(rt, q, line, Kind::Ar, blocks)?;
                blocks = blocks.saturating_add(1);
            }
            Some(kind) => followed(rt, q, line, kind, 0)?,
        }
    }
    Ok(())
}

// ---- in front

fn exact(value: f64) -> Figure {
    Figure {
        value,
        digits: None,
    }
}

impl fmt::Display for Head {
    fn fmt<W: Write>(&self, f: &mut fmt::Formatter<W>) -> fmt::Result {
        let converged = if self.converged { "yes" } else { "no" };
        writeln!(f, "# fit: log-likelihood {}", exact(self.loglik))?;
        writeln!(f, "# fit: iterations {}", self.iterations)?;
        writeln!(f, "# fit: converged {converged}")?;
        writeln!(f, "# fit: parameters {}", self.parameters)?;
        writeln!(f, "# fit: rows {}", self.rows)?;
        writeln!(f, "# fit: AIC {}", exact(self.aic))?;
        writeln!(f, "# fit: BIC {}", exact(self.bic))?;
        if self.starts < 2 {
            return Ok(());
        }
        writeln!(f, "# fit: starts {}", self.starts)?;
        writeln!(f, "# fit: best of them, counted from 0, {}", self.best)
    }
}

// In the lines of `own`; plain where they were too many to be kept.
fn in_lines(rt: &impl Print, q: MsarParams, h: Head, own: &[u8]) -> io::Result<()> {
    let mut out = Text::new();
    let _ = write!(out, "{h}");
    rt.write_all(out.as_slice())?;
    if own.is_empty() {
        return plain(rt, q);
    }
    following(rt, q, own)
}

// The fitted MODEL, in the lines of `own`; plain where they were too many to be kept.
pub fn fitted(rt: &(impl Print + EprintBytes), q: MsarParams, h: Head, own: &[u8]) {
    is_written(rt, in_lines(rt, q, h, own));
}
