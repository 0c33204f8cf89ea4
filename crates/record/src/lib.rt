// The Rust's `MarkovSwitchingAr<'a>`: a borrowed series and a spec, held together over the plain calls.
#![tactic(auto)]

ghost use Rattle.std.specs.Prelude.{◌≡◌, []};
ghost use Rattle.binding.specs.Binding.{bound_check};
ghost use Rattle.calls.specs.Calls.{loglike_call, filter_call, smooth_call};
ghost use Rattle.fit.specs.Calls.{fit_call};

use fit::Fitted;
use params::MsarParams;
use refusal::Refusal;
use spec::MsarSpec;

// Parameters and memory come with each call, so that one record serves many.
#[derive(Clone, Copy)]
pub struct MarkovSwitchingAr<'a> {
    series: &'a [f64],
    spec: MsarSpec,
}

// What `new` answers: 1 to 6, and the record whatever they are. Two results, not one or the other.
#[derive(Clone, Copy)]
pub struct Made<'a> {
    pub check: Result<(), Refusal>,
    pub model: MarkovSwitchingAr<'a>,
}

// 1 to 6.
fn check(s: MsarSpec, y: &[f64]) -> Result<(), Refusal>
    ensures { result ≡ bound_check s y.now }
{
    binding::bind(s, y)?;
    Ok(())
}

impl<'a> MarkovSwitchingAr<'a> {
    // The record is made whatever the check finds: each of its calls checks again, and refuses.
    pub fn new(series: &'a [f64], spec: MsarSpec) -> Made<'a>
        ensures { (result.check ≡ bound_check spec series.now) × (result.model.series ≡ series.entry) × (result.model.spec ≡ spec) }
    {
        let check = check(spec, series);
        Made {
            check,
            model: MarkovSwitchingAr { series, spec },
        }
    }

    // Each of these takes the record apart, and is the plain call on its parts.

    pub fn loglike(self, params: MsarParams, rule: usize, work: &mut [f64]) -> Result<f64, Refusal>
        ensures { record { answer = result; work = work.new; filtered = []; smoothed = [] } ≡ loglike_call self.entry.spec self.entry.series.now params rule work.old }
    {
        calls::loglike(self.spec, self.series, params, rule, work)
    }

    pub fn filter(
        self,
        params: MsarParams,
        rule: usize,
        work: &mut [f64],
        filtered: &mut [f64],
    ) -> Result<f64, Refusal>
        ensures { record { answer = result; work = work.new; filtered = filtered.new; smoothed = [] } ≡ filter_call self.entry.spec self.entry.series.now params rule work.old filtered.old }
    {
        calls::filter(self.spec, self.series, params, rule, work, filtered)
    }

    pub fn smooth(
        self,
        params: MsarParams,
        rule: usize,
        work: &mut [f64],
        filtered: &mut [f64],
        smoothed: &mut [f64],
    ) -> Result<f64, Refusal>
        ensures { record { answer = result; work = work.new; filtered = filtered.new; smoothed = smoothed.new } ≡ smooth_call self.entry.spec self.entry.series.now params rule work.old filtered.old smoothed.old }
    {
        calls::smooth(
            self.spec,
            self.series,
            params,
            rule,
            work,
            filtered,
            smoothed,
        )
    }

    pub fn fit(
        self,
        start: MsarParams,
        max_iter: usize,
        tol: f64,
        work: &mut [f64],
        smoothed: &mut [f64],
    ) -> Result<Fitted, Refusal>
        ensures { record { answer = result; work = work.new; smoothed = smoothed.new } ≡ fit_call self.entry.spec self.entry.series.now start max_iter tol work.old smoothed.old }
    {
        fit::fit(self.spec, self.series, start, max_iter, tol, work, smoothed)
    }
}

// ---- the record made and used once, with plain parameters, for callers that hold no record

// What `new` finds.
pub fn check_of(spec: MsarSpec, series: &[f64]) -> Result<(), Refusal>
    ensures { result ≡ bound_check spec series.now }
{
    MarkovSwitchingAr::new(series, spec).check
}

// A function for each call, as each takes other parameters.

pub fn loglike_of(
    spec: MsarSpec,
    series: &[f64],
    params: MsarParams,
    rule: usize,
    work: &mut [f64],
) -> Result<f64, Refusal>
    ensures { record { answer = result; work = work.new; filtered = []; smoothed = [] } ≡ loglike_call spec series.now params rule work.old }
{
    MarkovSwitchingAr::new(series, spec)
        .model
        .loglike(params, rule, work)
}

pub fn filter_of(
    spec: MsarSpec,
    series: &[f64],
    params: MsarParams,
    rule: usize,
    work: &mut [f64],
    filtered: &mut [f64],
) -> Result<f64, Refusal>
    ensures { record { answer = result; work = work.new; filtered = filtered.new; smoothed = [] } ≡ filter_call spec series.now params rule work.old filtered.old }
{
    MarkovSwitchingAr::new(series, spec)
        .model
        .filter(params, rule, work, filtered)
}

pub fn smooth_of(
    spec: MsarSpec,
    series: &[f64],
    params: MsarParams,
    rule: usize,
    work: &mut [f64],
    filtered: &mut [f64],
    smoothed: &mut [f64],
) -> Result<f64, Refusal>
    ensures { record { answer = result; work = work.new; filtered = filtered.new; smoothed = smoothed.new } ≡ smooth_call spec series.now params rule work.old filtered.old smoothed.old }
{
    MarkovSwitchingAr::new(series, spec)
        .model
        .smooth(params, rule, work, filtered, smoothed)
}

pub fn fit_of(
    spec: MsarSpec,
    series: &[f64],
    start: MsarParams,
    max_iter: usize,
    tol: f64,
    work: &mut [f64],
    smoothed: &mut [f64],
) -> Result<Fitted, Refusal>
    ensures { record { answer = result; work = work.new; smoothed = smoothed.new } ≡ fit_call spec series.now start max_iter tol work.old smoothed.old }
{
    MarkovSwitchingAr::new(series, spec)
        .model
        .fit(start, max_iter, tol, work, smoothed)
}
