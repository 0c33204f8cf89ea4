// The commands `fit` and `start`, which write a MODEL.
#![tactic(auto)]

ghost use Rattle.std.specs.Prelude.{◌≤◌};

mod best;
mod order;

use best::Best;
use host_io::EprintBytes;
use msar_commands::Series;
use msar_commands::refusals::passed;
use msar_out::model::Head;
use msar_out::{model, row_start};
use msar_say::put::{Figure, Text};
use params::MsarParams;
use refusal::Refusal;
use spec::MsarSpec;
use std::fmt::Write;
use std::io;

// The rule of a log-likelihood beside a fit. The fit has passed its checks, so the order is at least 1, where both rules
// give the same.
const RULE: usize = 2;

// How the fit is to be made.
#[derive(Clone, Copy)]
pub struct Ways {
    pub max_iter: usize,
    pub tol: f64,
    pub starts: usize,
    pub as_reached: bool,
}

// ---- what is said of a fit

// The numbers that EM could move: the transition table's columns each add up to 1.
fn parameters(q: MsarParams) -> usize
    ensures { result ≤ 70000 }
{
    let k = q.means_count.min(16);
    if k == 0 {
        return 0;
    }
    let free = row_start(k - 1, k);
    free + k + q.ar_count.min(112) + q.variances_count.min(16)
}

fn rows_of(readings: usize, order: usize) -> usize
    ensures { result ≤ 4096 }
{
    readings.saturating_sub(order).min(4096)
}

fn head_of(b: Best, loglik: f64, rows: usize, starts: usize) -> Head
    requires { rows ≤ 4096 }
{
    let f = b.fit;
    let count = parameters(f.params);
    let x = number::of_whole(count as u64);
    Head {
        loglik,
        iterations: f.iterations,
        converged: f.converged,
        parameters: count,
        rows,
        aic: 2.0 * x - 2.0 * loglik,
        bic: logarithm::log(number::of_whole(rows as u64)) * x - 2.0 * loglik,
        starts,
        best: b.number,
    }
}

// Where the log-likelihood ended lower than it began.
fn note_fall(rt: &impl EprintBytes, began: f64, ended: f64) {
    if !(ended < began) {
        return;
    }
    let mut out = msar_say::note_begun();
    let _ = write!(
        out,
        "the log-likelihood ended lower than it began, from {} to {}: EM overshot; a smaller --max-iter, another start or --starts may do better",
        Figure::of(began, 10),
        Figure::of(ended, 10)
    );
    out.say_line(rt);
}

// The log-likelihood of the parameters; `otherwise` where there is none.
fn loglik_at(s: MsarSpec, y: &[f64], q: MsarParams, otherwise: f64, work: &mut [f64]) -> f64 {
    calls::loglike(s, y, q, RULE, work).unwrap_or(otherwise)
}

// ---- fit

// The parameters in the order of the start's means, with their log-likelihood, whose last bits the order may change.
fn write(
    rt: &(impl Print + EprintBytes),
    s: MsarSpec,
    y: &[f64],
    q: MsarParams,
    own: &[u8],
    ways: Ways,
    b: Best,
    work: &mut [f64],
) {
    let f = b.fit;
    let rows = rows_of(y.len(), s.order);
    note_fall(rt, loglik_at(s, y, q, f.loglik, work), f.loglik);
    let ordered = if ways.as_reached {
        None
    } else {
        order::as_in(q, f.params)
    };
    let Some(params) = ordered else {
        let head = head_of(b, f.loglik, rows, ways.starts);
        return model::fitted(rt, f.params, head, own);
    };
    let loglik = loglik_at(s, y, params, f.loglik, work);
    msar_say::note(
        rt,
        b"the fit came to its regimes in another order of means than the MODEL has: they are in the MODEL's order again (--as-reached leaves them)",
    );
    model::fitted(rt, params, head_of(b, loglik, rows, ways.starts), own);
}

// Whether a reading has no likelihood under the parameters reached, and has one under the MODEL.
fn is_astray(refusal: Refusal, s: MsarSpec, y: &[f64], q: MsarParams, work: &mut [f64]) -> bool {
    matches!(refusal, Refusal::Likelihood(_)) && calls::loglike(s, y, q, RULE, work).is_ok()
}

// The fit from the MODEL q, whose text is `own`.
pub fn fit(
    rt: &(impl Print + EprintBytes),
    s: MsarSpec,
    series: Series<'_>,
    q: MsarParams,
    own: &[u8],
    ways: Ways,
    work: &mut [f64],
    smoothed: &mut [f64],
) {
    let y = series.values;
    let best = best::of(rt, ways.starts, y, q, |start| {
        fit::fit(s, y, start, ways.max_iter, ways.tol, work, smoothed)
    });
    if let Err(refusal) = best
        && is_astray(refusal, s, y, q, work)
    {
        msar_say::error(
            rt,
            b"EM went astray: under the parameters that it reached a reading has no likelihood (refusal 23), under the MODEL it has; try --starts 8 or a smaller --max-iter, or take the MODEL as it is",
        );
        return;
    }
    if let Some(b) = passed(rt, best, s, q, series) {
        write(rt, s, y, q, own, ways, b, work);
    }
}

// ---- start

// The checks of the series, and that it is long enough and varies.
fn can_start(rt: &impl EprintBytes, s: MsarSpec, q: MsarParams, series: Series<'_>) -> bool {
    let y = series.values;
    if passed(rt, binding::bind(s, y), s, q, series).is_none() {
        return false;
    }
    if y.len() / 2 < s.k_regimes {
        msar_say::error(
            rt,
            b"start needs at least twice as many readings as regimes",
        );
        return false;
    }
    if y.len() > 4096 {
        return false;
    }
    let variance = em_sample_variance::sample_variance(y);
    if number::is_usable(variance) {
        return true;
    }
    let varies: Result<(), Refusal> = Err(Refusal::SampleVariance(variance));
    passed(rt, varies, s, q, series).is_some()
}

fn told_model(rt: &impl Print, readings: usize, q: MsarParams) -> io::Result<()> {
    let mut out = Text::new();
    let _ = writeln!(
        out,
        "# start: worked out by msar start from {readings} readings, for msar fit to begin with; regime 0 has the lowest mean"
    );
    rt.write_all(out.as_slice())?;
    model::plain(rt, q)
}

// A MODEL of k regimes and this order, worked out from the series.
pub fn start(
    rt: &(impl Print + EprintBytes),
    series: Series<'_>,
    k: usize,
    order: usize,
    switching_variance: bool,
) {
    let s = MsarSpec {
        k_regimes: k,
        order,
        switching_ar: false,
        switching_variance,
    };
    let q = msar_start::recipe(0, series.values, k, order, switching_variance, 1);
    if can_start(rt, s, q, series) {
        msar_out::is_written(rt, told_model(rt, series.readings, q));
    }
}
