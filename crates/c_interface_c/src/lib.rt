// What C links: each function of c_interface under its C name and with its clauses, and nothing else. include/msar.h says
// the same in C. A crate is a library or what C links, and promises cites the library.
#![tactic(auto)]

ghost use Rattle.std.specs.Prelude.{◌≡◌, []};
ghost use Rattle.number.specs.Number.{zero⁺};
ghost use Rattle.root.specs.Root.{root_of, IsRoot};
ghost use Rattle.logarithm.specs.Log.{log_of};
ghost use Rattle.exp.specs.Exp.{exp_of};
ghost use Rattle.normal.specs.Normal.{lnpdf_of};
ghost use Rattle.spec.specs.Spec.{window_count};
ghost use Rattle.params.specs.Parameters.{matches_spec};
ghost use Rattle.params.specs.Checks.{parameter_check};
ghost use Rattle.params.specs.Durations.{durations_of};
ghost use Rattle.stationary.specs.Stationary.{shares_of};
ghost use Rattle.calls.specs.Calls.{loglike_call, filter_call, smooth_call};
ghost use Rattle.fit.specs.Calls.{fit_call};
ghost use Rattle.c_layout.specs.Layout.{params_of, Spelled, spelled, windows_spelled, Listed, listed};
ghost use Rattle.c_interface.specs.Interface.{spec_of, Left, left, FitLeft, fit_left};

// ---- calls on a series

// The log-likelihood of a series.
#[unsafe(no_mangle)]
pub extern "C" fn msar_loglike(
    k: usize,
    order: usize,
    switching_ar: bool,
    switching_variance: bool,
    series: &[f64],
    counts: &[usize; 6],
    numbers: &[f64; 400],
    work: &mut [f64],
    rule: usize,
    whole: &mut [usize; 4],
    real: &mut [f64; 2],
)
    ensures { record { whole = whole.new; real = real.new; work = work.new; filtered = []; smoothed = [] } ≡ left (loglike_call (spec_of k order switching_ar switching_variance) series.now (params_of counts.now numbers.now) rule work.old) }
{
    c_interface::msar_loglike(
        k,
        order,
        switching_ar,
        switching_variance,
        series,
        counts,
        numbers,
        work,
        rule,
        whole,
        real,
    );
}

// The log-likelihood, and the probabilities of the labels given the readings so far.
#[unsafe(no_mangle)]
pub extern "C" fn msar_filter(
    k: usize,
    order: usize,
    switching_ar: bool,
    switching_variance: bool,
    series: &[f64],
    counts: &[usize; 6],
    numbers: &[f64; 400],
    work: &mut [f64],
    filtered: &mut [f64],
    rule: usize,
    whole: &mut [usize; 4],
    real: &mut [f64; 2],
)
    ensures { record { whole = whole.new; real = real.new; work = work.new; filtered = filtered.new; smoothed = [] } ≡ left (filter_call (spec_of k order switching_ar switching_variance) series.now (params_of counts.now numbers.now) rule work.old filtered.old) }
{
    c_interface::msar_filter(
        k,
        order,
        switching_ar,
        switching_variance,
        series,
        counts,
        numbers,
        work,
        filtered,
        rule,
        whole,
        real,
    );
}

// The same, and the probabilities of the labels given all readings.
#[unsafe(no_mangle)]
pub extern "C" fn msar_smooth(
    k: usize,
    order: usize,
    switching_ar: bool,
    switching_variance: bool,
    series: &[f64],
    counts: &[usize; 6],
    numbers: &[f64; 400],
    work: &mut [f64],
    filtered: &mut [f64],
    smoothed: &mut [f64],
    rule: usize,
    whole: &mut [usize; 4],
    real: &mut [f64; 2],
)
    ensures { record { whole = whole.new; real = real.new; work = work.new; filtered = filtered.new; smoothed = smoothed.new } ≡ left (smooth_call (spec_of k order switching_ar switching_variance) series.now (params_of counts.now numbers.now) rule work.old filtered.old smoothed.old) }
{
    c_interface::msar_smooth(
        k,
        order,
        switching_ar,
        switching_variance,
        series,
        counts,
        numbers,
        work,
        filtered,
        smoothed,
        rule,
        whole,
        real,
    );
}

// The parameters that EM reaches, and the probabilities of the labels given all readings under them.
#[unsafe(no_mangle)]
pub extern "C" fn msar_fit(
    k: usize,
    order: usize,
    switching_ar: bool,
    switching_variance: bool,
    series: &[f64],
    counts: &[usize; 6],
    numbers: &[f64; 400],
    work: &mut [f64],
    smoothed: &mut [f64],
    max_iter: usize,
    tol: f64,
    fitted: &mut [f64; 400],
    whole: &mut [usize; 4],
    real: &mut [f64; 2],
)
    ensures { record { whole = whole.new; real = real.new; work = work.new; smoothed = smoothed.new; fitted = fitted.new } ≡ fit_left (fit_call (spec_of k order switching_ar switching_variance) series.now (params_of counts.now numbers.now) max_iter tol work.old smoothed.old) fitted.old }
{
    c_interface::msar_fit(
        k,
        order,
        switching_ar,
        switching_variance,
        series,
        counts,
        numbers,
        work,
        smoothed,
        max_iter,
        tol,
        fitted,
        whole,
        real,
    );
}

// ---- calls on a spec or on parameters alone

// The number of windows, as the place.
#[unsafe(no_mangle)]
pub extern "C" fn msar_windows(k: usize, order: usize, whole: &mut [usize; 4], real: &mut [f64; 2])
    ensures { record { whole = whole.new; real = real.new } ≡ windows_spelled (window_count k order) }
{
    c_interface::msar_windows(k, order, whole, real);
}

// The checks of the parameters.
#[unsafe(no_mangle)]
pub extern "C" fn msar_check(
    counts: &[usize; 6],
    numbers: &[f64; 400],
    whole: &mut [usize; 4],
    real: &mut [f64; 2],
)
    ensures { record { whole = whole.new; real = real.new } ≡ spelled (parameter_check (params_of counts.now numbers.now)) 0 zero⁺ }
{
    c_interface::msar_check(counts, numbers, whole, real);
}

// The expected durations of the labels.
#[unsafe(no_mangle)]
pub extern "C" fn msar_durations(
    counts: &[usize; 6],
    numbers: &[f64; 400],
    durations: &mut [f64; 16],
    whole: &mut [usize; 4],
    real: &mut [f64; 2],
)
    ensures { record { values = durations.new; whole = whole.new; real = real.new } ≡ listed (durations_of (params_of counts.now numbers.now)) durations.old }
{
    c_interface::msar_durations(counts, numbers, durations, whole, real);
}

// The stationary shares of the labels.
#[unsafe(no_mangle)]
pub extern "C" fn msar_shares(
    counts: &[usize; 6],
    numbers: &[f64; 400],
    shares: &mut [f64; 16],
    whole: &mut [usize; 4],
    real: &mut [f64; 2],
)
    ensures { record { values = shares.new; whole = whole.new; real = real.new } ≡ listed (shares_of (params_of counts.now numbers.now)) shares.old }
{
    c_interface::msar_shares(counts, numbers, shares, whole, real);
}

// Whether the parameters are of the spec's shape. It only compares.
#[unsafe(no_mangle)]
pub extern "C" fn msar_matches(
    k: usize,
    order: usize,
    switching_ar: bool,
    switching_variance: bool,
    counts: &[usize; 6],
    numbers: &[f64; 400],
) -> bool
    ensures { result ≡ matches_spec (spec_of k order switching_ar switching_variance) (params_of counts.now numbers.now) }
{
    c_interface::msar_matches(k, order, switching_ar, switching_variance, counts, numbers)
}

// ---- elementary functions

// The square root, to the nearest binary64.
#[unsafe(no_mangle)]
pub extern "C" fn msar_root(x: f64) -> f64
    ensures { (result ≡ root_of x) × IsRoot x result }
{
    c_interface::msar_root(x)
}

// The natural logarithm, as fdlibm 5.3 works it out.
#[unsafe(no_mangle)]
pub extern "C" fn msar_log(x: f64) -> f64
    ensures { result ≡ log_of x }
{
    c_interface::msar_log(x)
}

// The exponential, as fdlibm 5.3 works it out.
#[unsafe(no_mangle)]
pub extern "C" fn msar_exp(x: f64) -> f64
    ensures { result ≡ exp_of x }
{
    c_interface::msar_exp(x)
}

// The logarithm of the standard normal density.
#[unsafe(no_mangle)]
pub extern "C" fn msar_lnpdf(z: f64) -> f64
    ensures { result ≡ lnpdf_of z }
{
    c_interface::msar_lnpdf(z)
}
