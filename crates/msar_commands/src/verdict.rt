// Which regime holds at the end, and since when: a row for each regime, and a sentence.
use crate::refusals::passed;
use crate::{Series, time_of};
use host_io::EprintBytes;
use msar_out::table::Style;
use msar_out::{is_written, table};
use msar_say::put::Figure;
use msar_verdict::Finding;
use params::MsarParams;
use spec::MsarSpec;
use std::fmt::Write;
use std::io;

// ---- the sentence

fn holds(rt: &impl EprintBytes, regime: usize, found: Finding, t: usize, line: u64) {
    let mut out = msar_say::note_begun();
    let _ = write!(
        out,
        "regime {regime} holds since reading {t} (line {line}), {} readings up to the last one, whose probability is {}; ",
        found.run,
        Figure::of(found.share, 6)
    );
    let _ = if found.run < found.needed {
        write!(out, "not settled before {} readings", found.needed)
    } else {
        write!(out, "settled, since {} readings are enough", found.needed)
    };
    out.say_line(rt);
}

fn does_not_hold(rt: &impl EprintBytes, regime: usize, found: Finding) {
    let mut out = msar_say::note_begun();
    let _ = write!(
        out,
        "regime {regime} does not hold at the end: its probability there is {}",
        Figure::of(found.share, 6)
    );
    out.say_line(rt);
}

// ---- the rows

// Writes the row. The regime that holds has its sentence, and so has one that was asked for.
fn one_regime(
    rt: &(impl Print + EprintBytes),
    regime: usize,
    found: Finding,
    is_asked: bool,
    order: usize,
    series: Series<'_>,
    style: Style<'_>,
) -> io::Result<()> {
    let t = time_of(found.since, order);
    let line = series.line(t);
    if found.run > 0 {
        holds(rt, regime, found, t, line);
    } else if is_asked {
        does_not_hold(rt, regime, found);
    }
    table::verdict(rt, regime, found, t, line, style)
}

// Whether a regime stands above one half at the end.
fn any_holds(smoothed: &[f64], n: usize, k: usize) -> bool {
    (0..k).any(|r| msar_verdict::run(smoothed, n, k, r) > 0)
}

// The names, and the rows: of the regime that is asked for, or of all.
fn rows(
    rt: &(impl Print + EprintBytes),
    s: MsarSpec,
    n: usize,
    smoothed: &[f64],
    durations: [f64; 16],
    asked: Option<usize>,
    series: Series<'_>,
    style: Style<'_>,
) -> io::Result<()> {
    table::verdict_names(rt, style)?;
    let k = s.k_regimes.min(16);
    for (r, duration) in durations.iter().take(k).enumerate() {
        if asked.is_none_or(|regime| regime == r) {
            let found = msar_verdict::of_regime(smoothed, n, k, r, *duration);
            one_regime(rt, r, found, asked.is_some(), s.order, series, style)?;
        }
    }
    Ok(())
}

fn written(
    rt: &(impl Print + EprintBytes),
    s: MsarSpec,
    series: Series<'_>,
    q: MsarParams,
    asked: Option<usize>,
    style: Style<'_>,
    smoothed: &[f64],
) {
    let durations = q.expected_durations().unwrap_or([0.0; 16]);
    let n = series.values.len().saturating_sub(s.order);
    if asked.is_none() & !any_holds(smoothed, n, s.k_regimes) {
        msar_say::note(rt, b"no regime has a probability above one half at the end");
    }
    let went = rows(rt, s, n, smoothed, durations, asked, series, style);
    is_written(rt, went);
}

// At order 0 the smoothed numbers of rule 1 are no probabilities.
fn is_possible(rt: &impl EprintBytes, s: MsarSpec, rule: usize, asked: Option<usize>) -> bool {
    if (s.order == 0) & (rule == 1) {
        msar_say::error(
            rt,
            b"there is no verdict at order 0 with --rule 1, whose smoothed rows do not add up to 1 there: leave out --rule 1",
        );
        return false;
    }
    if let Some(regime) = asked
        && regime >= s.k_regimes
    {
        msar_say::error(
            rt,
            b"--regime names a regime that the MODEL does not have: they count from 0",
        );
        return false;
    }
    true
}

// Of all regimes, or of the one that is asked for.
pub fn verdict(
    rt: &(impl Print + EprintBytes),
    s: MsarSpec,
    series: Series<'_>,
    q: MsarParams,
    rule: usize,
    asked: Option<usize>,
    style: Style<'_>,
    work: &mut [f64],
    filtered: &mut [f64],
    smoothed: &mut [f64],
) {
    if !is_possible(rt, s, rule, asked) {
        return;
    }
    let answer = calls::smooth(s, series.values, q, rule, work, filtered, smoothed);
    if passed(rt, answer, s, q, series).is_some() {
        written(rt, s, series, q, asked, style, smoothed);
    }
}
