// What a call's check means for what the program was handed: the reading with its line, the table that may be transposed.
use crate::{Series, time_of};
use host_io::EprintBytes;
use msar_out::{entry, row_start};
use params::MsarParams;
use refusal::Refusal;
use spec::MsarSpec;

// ---- a table that may be transposed

fn row_sum(table: &[f64], from: usize, k: usize) -> f64 {
    table.iter().skip(from).take(k).sum()
}

// Whether each row of the transition table adds up to 1, as each column should.
fn is_transposed(q: MsarParams) -> bool {
    let k = q.means_count.min(16);
    (0..k).all(|i| {
        let off = row_sum(&q.transition, row_start(i, k), k) - 1.0;
        (off <= 1e-8) & (off >= -1e-8)
    })
}

// ---- a refusal

// What helps, where more is known than the refusal says. Singular systems of the AR coefficients name the lag; of which regime they are they
// do not say, where each has its own.
fn hint(r: Refusal, s: MsarSpec, q: MsarParams) -> &'static [u8] {
    match r {
        Refusal::Column(_, _) if is_transposed(q) =>
            b"; its rows do add up to 1: the table may be transposed, number j of line i is the probability of regime i after regime j",
        Refusal::Singular(2, _) if s.switching_ar =>
            b", which each regime has for itself: one regime, not known which, has all but lost its readings, or over the variances they all but stand on their means; try fewer regimes, a lower order or another start, or give the readings in a smaller unit",
        Refusal::Singular(2, _) =>
            b", which the regimes share: over the variances the readings all but stand on their means; give the readings in a smaller unit, or try smaller variances, a lower order or another start",
        _ => b"",
    }
}

fn reading(rt: &impl EprintBytes, r: Refusal, t: usize, series: Series<'_>) {
    msar_say::refusals::reading(rt, r, t, series.line(t), entry(series.values, t));
}

// A series that is too long is said to have as many readings as there were.
fn refused(rt: &impl EprintBytes, r: Refusal, s: MsarSpec, q: MsarParams, series: Series<'_>) {
    let k = s.k_regimes;
    let order = s.order;
    match r {
        Refusal::Reading(t) => reading(rt, r, t, series),
        Refusal::Likelihood(row) => reading(rt, r, time_of(row, order), series),
        Refusal::LongSeries(_) => {
            let all = Refusal::LongSeries(series.readings);
            msar_say::refusals::refused(rt, all, k, order, b"");
        }
        _ => msar_say::refusals::refused(rt, r, k, order, hint(r, s, q)),
    }
}

// What a call answers; or nothing, and its refusal is said.
pub fn passed<T>(
    rt: &impl EprintBytes,
    answer: Result<T, Refusal>,
    s: MsarSpec,
    q: MsarParams,
    series: Series<'_>,
) -> Option<T> {
    match answer {
        Ok(x) => Some(x),
        Err(r) => {
            refused(rt, r, s, q, series);
            None
        }
    }
}

// The same where there is no series.
pub fn passed_alone<T>(
    rt: &impl EprintBytes,
    answer: Result<T, Refusal>,
    s: MsarSpec,
    q: MsarParams,
) -> Option<T> {
    let none = Series {
        values: &[],
        lines: &[],
        readings: 0,
    };
    passed(rt, answer, s, q, none)
}
