// The commands, each a call and what it writes; `fit` and `start` stand in msar_fit. Work memory holds 393,216 numbers. For n rows of m
// windows `smooth`, `verdict` and `fit` need 2 * n * m of them, so they take 4,096 readings with 48 windows, 768 rows with 256. `loglike`
// and `filter` need n * m + 256, so n * m may be 392,960: 4,096 readings with 95 windows, 1,535 rows with 256.
#![tactic(auto)]

ghost use Rattle.std.specs.Prelude.{◌<◌};

pub mod refusals;
pub mod verdict;

use host_io::EprintBytes;
use msar_out::table::Style;
use msar_out::{entry, row_start, table};
use params::MsarParams;
use refusals::{passed, passed_alone};
use spec::MsarSpec;

const LONGEST: usize = 4096;

// Rows times windows that work memory has room for in every command: half of its numbers.
const CELLS: usize = 196608;

// ---- a series

// The readings that are kept of a file, the line on which each stands, and how many the file has.
#[derive(Clone, Copy)]
pub struct Series<'a> {
    pub values: &'a [f64],
    pub lines: &'a [u64],
    pub readings: usize,
}

impl<'a> Series<'a> {
    // The line on which reading t stands.
    pub fn line(self, t: usize) -> u64 {
        self.lines.get(t).copied().unwrap_or(0)
    }
}

// The reading of a row.
fn time_of(row: usize, order: usize) -> usize {
    row.min(4096) + order.min(7)
}

// ---- on a model

// The longest series that every command takes for so many windows.
fn longest(order: usize, windows: usize) -> usize {
    match CELLS.checked_div(windows) {
        Some(rows) => rows.saturating_add(order).min(LONGEST),
        None => 0,
    }
}

fn note_stays(rt: &impl EprintBytes, i: usize) {
    msar_say::note_of(
        rt,
        b"regime ",
        i,
        b" cannot be left (its probability of staying is 1): every call starts as if it held already, and no verdict on another regime lasts",
    );
}

// Says which regimes cannot be left.
fn note_all_that_stay(rt: &impl EprintBytes, q: MsarParams) {
    let k = q.means_count.min(16);
    for i in 0..k {
        if entry(&q.transition, row_start(i, k) + i) >= 1.0 {
            note_stays(rt, i);
        }
    }
}

// The shape, after the checks of the parameters and of the shares from which every call starts.
pub fn check(rt: &(impl Print + EprintBytes), s: MsarSpec, q: MsarParams) {
    let Some(m) = passed_alone(rt, s.expanded_states(), s, q) else {
        return;
    };
    if passed_alone(rt, stationary::stationary_shares(q), s, q).is_some() {
        note_all_that_stay(rt, q);
        table::shape(rt, s.k_regimes, s.order, m, longest(s.order, m));
    }
}

// How long the model stays in each regime, on average.
pub fn durations(
    rt: &(impl Print + EprintBytes),
    s: MsarSpec,
    q: MsarParams,
    digits: Option<usize>,
) {
    if let Some(values) = passed_alone(rt, q.expected_durations(), s, q) {
        table::durations(rt, values, q.means_count, digits);
    }
}

// ---- on a model and a series

// What rule 1 means at order 0, said before the answer. The rule is its number, as the calls take it. From order 1 on both rules give the same.
fn note_rule(rt: &impl EprintBytes, order: usize, rule: usize, what: &[u8]) {
    if (order == 0) & (rule == 1) {
        msar_say::note(rt, what);
    }
}

const NOT_BEFORE: &[u8] =
    b"at order 0 --rule 1 does not look at the regime before: leave out --rule 1";

const NOT_ONE: &[u8] =
    b"at order 0 --rule 1 does not look at the regime before, and the smoothed rows do not add up to 1: leave out --rule 1";

pub fn loglike(
    rt: &(impl Print + EprintBytes),
    s: MsarSpec,
    series: Series<'_>,
    q: MsarParams,
    rule: usize,
    digits: Option<usize>,
    work: &mut [f64],
) {
    let answer = calls::loglike(s, series.values, q, rule, work);
    if let Some(loglik) = passed(rt, answer, s, q, series) {
        note_rule(rt, s.order, rule, NOT_BEFORE);
        table::loglike(rt, series.readings, loglik, digits);
    }
}

pub fn filter(
    rt: &(impl Print + EprintBytes),
    s: MsarSpec,
    series: Series<'_>,
    q: MsarParams,
    rule: usize,
    style: Style<'_>,
    work: &mut [f64],
    filtered: &mut [f64],
) {
    let y = series.values;
    let answer = calls::filter(s, y, q, rule, work, filtered);
    if passed(rt, answer, s, q, series).is_some() {
        note_rule(rt, s.order, rule, NOT_BEFORE);
        table::probabilities(rt, y, s.order, filtered, s.k_regimes, style);
    }
}

pub fn smooth(
    rt: &(impl Print + EprintBytes),
    s: MsarSpec,
    series: Series<'_>,
    q: MsarParams,
    rule: usize,
    style: Style<'_>,
    work: &mut [f64],
    filtered: &mut [f64],
    smoothed: &mut [f64],
) {
    let y = series.values;
    let answer = calls::smooth(s, y, q, rule, work, filtered, smoothed);
    if passed(rt, answer, s, q, series).is_some() {
        note_rule(rt, s.order, rule, NOT_ONE);
        table::probabilities(rt, y, s.order, smoothed, s.k_regimes, style);
    }
}
