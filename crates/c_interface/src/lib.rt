// The library's functions under their C names; include/msar.h says the same in C. Each makes the library's records of
// the arrays that C hands in, calls one function, and spells its answer, so that nothing is decided here. What C links,
// c_interface_c, exports each of them with the same clauses.
#![tactic(auto)]

ghost use Rattle.std.specs.Prelude.{◌≡◌, []};
ghost use Rattle.number.specs.Number.{zero⁺};
ghost use Rattle.root.specs.Root.{root_of, IsRoot};
ghost use Rattle.logarithm.specs.Log.{log_of};
ghost use Rattle.exp.specs.Exp.{exp_of};
ghost use Rattle.normal.specs.Normal.{lnpdf_of};
ghost use Rattle.spec.specs.Spec.{window_count};
ghost use Rattle.params.specs.Parameters.{matches_spec};
ghost use Rattle.params.specs.Checks.{parameter_check};
ghost use Rattle.params.specs.Durations.{durations_of};
ghost use Rattle.stationary.specs.Stationary.{shares_of};
ghost use Rattle.calls.specs.Calls.{loglike_call, filter_call, smooth_call};
ghost use Rattle.fit.specs.Calls.{fit_call};
ghost use Rattle.c_layout.specs.Layout.{params_of, Spelled, spelled, windows_spelled, Listed, listed};
ghost use Rattle.c_interface.specs.Interface.{spec_of, Left, left, FitLeft, fit_left};

use c_layout::{given, told};
use spec::MsarSpec;

// ---- calls on a series

// The log-likelihood of a series.
pub fn msar_loglike(
    k: usize,
    order: usize,
    switching_ar: bool,
    switching_variance: bool,
    series: &[f64],
    counts: &[usize; 6],
    numbers: &[f64; 400],
    work: &mut [f64],
    rule: usize,
    whole: &mut [usize; 4],
    real: &mut [f64; 2],
)
    ensures { record { whole = whole.new; real = real.new; work = work.new; filtered = []; smoothed = [] } ≡ left (loglike_call (spec_of k order switching_ar switching_variance) series.now (params_of counts.now numbers.now) rule work.old) }
{
    let s = MsarSpec {
        k_regimes: k,
        order,
        switching_ar,
        switching_variance,
    };
    let q = given::params_of(counts, numbers);
    let answer = calls::loglike(s, series, q, rule, work);
    told::spell_loglik(answer, whole, real);
}

// The log-likelihood, and the probabilities of the labels given the readings so far.
pub fn msar_filter(
    k: usize,
    order: usize,
    switching_ar: bool,
    switching_variance: bool,
    series: &[f64],
    counts: &[usize; 6],
    numbers: &[f64; 400],
    work: &mut [f64],
    filtered: &mut [f64],
    rule: usize,
    whole: &mut [usize; 4],
    real: &mut [f64; 2],
)
    ensures { record { whole = whole.new; real = real.new; work = work.new; filtered = filtered.new; smoothed = [] } ≡ left (filter_call (spec_of k order switching_ar switching_variance) series.now (params_of counts.now numbers.now) rule work.old filtered.old) }
{
    let s = MsarSpec {
        k_regimes: k,
        order,
        switching_ar,
        switching_variance,
    };
    let q = given::params_of(counts, numbers);
    let answer = calls::filter(s, series, q, rule, work, filtered);
    told::spell_loglik(answer, whole, real);
}

// The same, and the probabilities of the labels given all readings.
pub fn msar_smooth(
    k: usize,
    order: usize,
    switching_ar: bool,
    switching_variance: bool,
    series: &[f64],
    counts: &[usize; 6],
    numbers: &[f64; 400],
    work: &mut [f64],
    filtered: &mut [f64],
    smoothed: &mut [f64],
    rule: usize,
    whole: &mut [usize; 4],
    real: &mut [f64; 2],
)
    ensures { record { whole = whole.new; real = real.new; work = work.new; filtered = filtered.new; smoothed = smoothed.new } ≡ left (smooth_call (spec_of k order switching_ar switching_variance) series.now (params_of counts.now numbers.now) rule work.old filtered.old smoothed.old) }
{
    let s = MsarSpec {
        k_regimes: k,
        order,
        switching_ar,
        switching_variance,
    };
    let q = given::params_of(counts, numbers);
    let answer = calls::smooth(s, series, q, rule, work, filtered, smoothed);
    told::spell_loglik(answer, whole, real);
}

// The parameters that EM reaches, and the probabilities of the labels given all readings under them.
pub fn msar_fit(
    k: usize,
    order: usize,
    switching_ar: bool,
    switching_variance: bool,
    series: &[f64],
    counts: &[usize; 6],
    numbers: &[f64; 400],
    work: &mut [f64],
    smoothed: &mut [f64],
    max_iter: usize,
    tol: f64,
    fitted: &mut [f64; 400],
    whole: &mut [usize; 4],
    real: &mut [f64; 2],
)
    ensures { record { whole = whole.new; real = real.new; work = work.new; smoothed = smoothed.new; fitted = fitted.new } ≡ fit_left (fit_call (spec_of k order switching_ar switching_variance) series.now (params_of counts.now numbers.now) max_iter tol work.old smoothed.old) fitted.old }
{
    let s = MsarSpec {
        k_regimes: k,
        order,
        switching_ar,
        switching_variance,
    };
    let start = given::params_of(counts, numbers);
    let answer = fit::fit(s, series, start, max_iter, tol, work, smoothed);
    told::lay_out(&answer, fitted);
    told::spell_fit(&answer, whole, real);
}

// ---- calls on a spec or on parameters alone

// The number of windows, as the place.
pub fn msar_windows(k: usize, order: usize, whole: &mut [usize; 4], real: &mut [f64; 2])
    ensures { record { whole = whole.new; real = real.new } ≡ windows_spelled (window_count k order) }
{
    let s = MsarSpec {
        k_regimes: k,
        order,
        switching_ar: false,
        switching_variance: false,
    };
    told::spell_windows(s.expanded_states(), whole, real);
}

// The checks of the parameters.
pub fn msar_check(
    counts: &[usize; 6],
    numbers: &[f64; 400],
    whole: &mut [usize; 4],
    real: &mut [f64; 2],
)
    ensures { record { whole = whole.new; real = real.new } ≡ spelled (parameter_check (params_of counts.now numbers.now)) 0 zero⁺ }
{
    let q = given::params_of(counts, numbers);
    told::spell(q.check(), 0, 0.0, whole, real);
}

// The expected durations of the labels.
pub fn msar_durations(
    counts: &[usize; 6],
    numbers: &[f64; 400],
    durations: &mut [f64; 16],
    whole: &mut [usize; 4],
    real: &mut [f64; 2],
)
    ensures { record { values = durations.new; whole = whole.new; real = real.new } ≡ listed (durations_of (params_of counts.now numbers.now)) durations.old }
{
    let q = given::params_of(counts, numbers);
    told::list(q.expected_durations(), durations, whole, real);
}

// The stationary shares of the labels.
pub fn msar_shares(
    counts: &[usize; 6],
    numbers: &[f64; 400],
    shares: &mut [f64; 16],
    whole: &mut [usize; 4],
    real: &mut [f64; 2],
)
    ensures { record { values = shares.new; whole = whole.new; real = real.new } ≡ listed (shares_of (params_of counts.now numbers.now)) shares.old }
{
    let q = given::params_of(counts, numbers);
    told::list(stationary::stationary_shares(q), shares, whole, real);
}

// Whether the parameters are of the spec's shape. It only compares.
pub fn msar_matches(
    k: usize,
    order: usize,
    switching_ar: bool,
    switching_variance: bool,
    counts: &[usize; 6],
    numbers: &[f64; 400],
) -> bool
    ensures { result ≡ matches_spec (spec_of k order switching_ar switching_variance) (params_of counts.now numbers.now) }
{
    let s = MsarSpec {
        k_regimes: k,
        order,
        switching_ar,
        switching_variance,
    };
    let q = given::params_of(counts, numbers);
    q.matches_spec(s)
}

// ---- elementary functions

// The square root, to the nearest binary64.
pub fn msar_root(x: f64) -> f64
    ensures { (result ≡ root_of x) × IsRoot x result }
{
    root::root(x)
}

// The natural logarithm, as fdlibm 5.3 works it out.
pub fn msar_log(x: f64) -> f64
    ensures { result ≡ log_of x }
{
    logarithm::log(x)
}

// The exponential, as fdlibm 5.3 works it out.
pub fn msar_exp(x: f64) -> f64
    ensures { result ≡ exp_of x }
{
    exp::exp(x)
}

// The logarithm of the standard normal density.
pub fn msar_lnpdf(z: f64) -> f64
    ensures { result ≡ lnpdf_of z }
{
    normal::lnpdf(z)
}
