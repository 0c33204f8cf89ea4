// The tables that the program writes to standard output: comma separated cells under a line of names.
ghost use Rattle.std.specs.Prelude.{◌<◌, ◌≤◌};

use crate::{entry, is_written, row_start};
use host_io::EprintBytes;
use msar_say::put::{Figure, Text};
use msar_verdict::{Finding, Verdict};
use std::fmt::Write;
use std::io;

// ---- kept cells

// The cells of a column that is carried along, each as 64 bytes of which the first is its length: one for each reading, and behind 4,097 of
// them the heading, if the column has one.
#[derive(Clone, Copy)]
pub struct Kept<'a> {
    pub texts: &'a [u8],
    pub headed: bool,
}

impl<'a> Kept<'a> {
    // Empty where there is none.
    fn cell(self, i: usize) -> &'a [u8] {
        let texts = self.texts;
        let from = i.min(4097) * 64;
        match texts.get(from..) {
            Some([n, cell @ ..]) => &cell[..cell.len().min(*n as usize).min(63)],
            _ => b"",
        }
    }

    fn heading(self) -> &'a [u8] {
        if self.headed {
            self.cell(4097)
        } else {
            b"kept"
        }
    }
}

// As a cell between commas: a text with a comma and without quotes, as other separators leave one, is put between quotes.
fn put_cell(out: &mut Text, text: &[u8]) {
    let quotes: &[u8] = if text.contains(&b',') && !text.contains(&b'"') {
        b"\""
    } else {
        b""
    };
    out.bytes(quotes);
    out.bytes(text);
    out.bytes(quotes);
}

// How a table is written: with so many digits, or all 17; with a kept cell beside each reading, or without.
#[derive(Clone, Copy)]
pub struct Style<'a> {
    pub digits: Option<usize>,
    pub kept: Option<Kept<'a>>,
}

impl<'a> Style<'a> {
    // The kept cell of this reading behind a comma, where there is one.
    fn put_kept(self, out: &mut Text, i: usize) {
        let kept = self.kept;
        if let Some(kept) = kept {
            out.bytes(b",");
            put_cell(out, kept.cell(i));
        }
    }

    // Its heading.
    fn put_heading(self, out: &mut Text) {
        let kept = self.kept;
        if let Some(kept) = kept {
            out.bytes(b",");
            put_cell(out, kept.heading());
        }
    }

    // A number behind a comma.
    fn put_number(self, out: &mut Text, x: f64) {
        out.bytes(b",");
        out.figure(x, self.digits);
    }
}

// ---- probabilities

// The names: reading, the kept column's, value, p0, p1, ..
fn header(rt: &impl Print, k: usize, style: Style<'_>) -> io::Result<()> {
    let mut out = Text::new();
    out.bytes(b"reading");
    style.put_heading(&mut out);
    out.bytes(b",value");
    for j in 0..k {
        let _ = write!(out, ",p{j}");
    }
    out.bytes(b"\n");
    rt.write_all(out.as_slice())
}

// Row number `row`: the reading with number t is x.
fn one_row(
    rt: &impl Print,
    row: usize,
    t: usize,
    x: f64,
    table: &[f64],
    k: usize,
    style: Style<'_>,
) -> io::Result<()>
    requires { (row < 4096) × (k ≤ 16) }
{
    let mut out = Text::new();
    out.whole(t as u64);
    style.put_kept(&mut out, t);
    style.put_number(&mut out, x);
    let from = row_start(row, k);
    for j in 0..k {
        style.put_number(&mut out, entry(table, from + j));
    }
    out.bytes(b"\n");
    rt.write_all(out.as_slice())
}

// The names, and a row for each reading from number `order` on.
fn rows(
    rt: &impl Print,
    y: &[f64],
    order: usize,
    table: &[f64],
    k: usize,
    style: Style<'_>,
) -> io::Result<()>
    requires { (order ≤ 4096) × (k ≤ 16) }
{
    header(rt, k, style)?;
    for (row, (t, x)) in y.iter().enumerate().skip(order).take(4096).enumerate() {
        one_row(rt, row, t, *x, table, k, style)?;
    }
    Ok(())
}

// The probabilities of k labels at each reading from number `order` on.
pub fn probabilities(
    rt: &(impl Print + EprintBytes),
    y: &[f64],
    order: usize,
    table: &[f64],
    k: usize,
    style: Style<'_>,
) {
    let written = rows(rt, y, order.min(4096), table, k.min(16), style);
    is_written(rt, written);
}

// ---- a verdict

fn word_of(verdict: Verdict) -> &'static str {
    match verdict {
        Verdict::No => "no",
        Verdict::NotSettled => "not settled",
        Verdict::Settled => "settled",
    }
}

pub fn verdict_names(rt: &impl Print, style: Style<'_>) -> io::Result<()> {
    let mut out = Text::new();
    out.bytes(b"regime,verdict,since,line");
    style.put_heading(&mut out);
    out.bytes(b",readings,needed,probability\n");
    rt.write_all(out.as_slice())
}

// The reading with which the run begins, its line and kept cell; empty cells where there is no run.
fn since(out: &mut Text, run: usize, t: usize, line: u64, style: Style<'_>) {
    if run > 0 {
        let _ = write!(out, ",{t},{line}");
        style.put_kept(out, t);
        return;
    }
    let kept = style.kept;
    out.bytes(if kept.is_some() { b",,," } else { b",," });
}

// What was found of a regime; its run begins with reading t, on this line.
pub fn verdict(
    rt: &impl Print,
    regime: usize,
    found: Finding,
    t: usize,
    line: u64,
    style: Style<'_>,
) -> io::Result<()> {
    let verdict = found.verdict;
    let mut out = Text::new();
    let _ = write!(out, "{regime},{}", word_of(verdict));
    since(&mut out, found.run, t, line, style);
    let _ = write!(out, ",{},{}", found.run, found.needed);
    style.put_number(&mut out, found.share);
    out.bytes(b"\n");
    rt.write_all(out.as_slice())
}

// ---- the rest

// Two numbers under their names.
pub fn loglike(
    rt: &(impl Print + EprintBytes),
    readings: usize,
    loglik: f64,
    digits: Option<usize>,
) {
    let loglik = Figure {
        value: loglik,
        digits,
    };
    let mut out = Text::new();
    let _ = write!(out, "readings,loglik\n{readings},{loglik}\n");
    is_written(rt, rt.write_all(out.as_slice()));
}

// The shape of a model, and the longest series that every command takes for it.
pub fn shape(
    rt: &(impl Print + EprintBytes),
    k: usize,
    order: usize,
    windows: usize,
    longest: usize,
) {
    let mut out = Text::new();
    let _ = write!(
        out,
        "regimes,order,windows,longest\n{k},{order},{windows},{longest}\n"
    );
    is_written(rt, rt.write_all(out.as_slice()));
}

// A row for each label.
pub fn durations(
    rt: &(impl Print + EprintBytes),
    values: [f64; 16],
    k: usize,
    digits: Option<usize>,
) {
    let mut out = Text::new();
    out.bytes(b"regime,duration\n");
    for (j, value) in values.iter().take(k).enumerate() {
        let duration = Figure {
            value: *value,
            digits,
        };
        let _ = write!(out, "{j},{duration}\n");
    }
    is_written(rt, rt.write_all(out.as_slice()));
}
