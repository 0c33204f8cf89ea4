// The fit by EM, in lent memory: passes of filter, smoother and step, and a closing pass.
#![tactic(auto)]

ghost use Rattle.std.specs.Prelude.{◌≡◌, suc, ◌+◌, ◌*◌, ◌<◌, ◌≤◌, length, drop, not, List, Float, if◌then◌else◌};
ghost use Rattle.std.specs.Float.Ieee.Scale.{finite};
ghost use Rattle.refusal.specs.Checks.{Passed, ◌when◌};
ghost use Rattle.refusal.specs.declared.Refusal.TheVariants.{Loglike};
ghost use Rattle.params.specs.declared.MsarParams.{MsarParams};
ghost use Rattle.number.specs.Number.{zero⁺};
ghost use Rattle.params.specs.Parameters.{k, p};
ghost use Rattle.params.specs.Checks.{parameter_check};
ghost use Rattle.params.specs.Built.{tidy};
ghost use Rattle.stationary.specs.Stationary.{start_shares, values_of};
ghost use Rattle.prediction.specs.declared.Rule.TheVariants.{One};
ghost use Rattle.filter.specs.Steps.{Held};
ghost use Rattle.em_sample_variance.specs.Series.{sample_variance};
ghost use Rattle.calls.specs.Calls.{run_answer, cleared, smoothed_table};
ghost use Rattle.em_step.specs.Ready.{Ready};
ghost use Rattle.fit.specs.Fit.{stops, stepped, pass_of, passes_to, fitted_of};
ghost use Rattle.fit.specs.Verdicts.{verdict_after, verdict_of, end_of};
ghost use Rattle.fit.specs.declared.Course.TheVariants.{Going, Converged};
ghost use Rattle.fit.specs.Calls.{fit_check, fitted_table, fit_call};

use params::MsarParams;
use prediction::Rule;
use refusal::Refusal;
use rows::Smoothed;
use spec::MsarSpec;
use window::Sizes;

const SMALL: f64 = 1e-12;

// Where the passes stand: three ways, each with its name in the definitions, plainer than Option<Result<usize, Refusal>>.
#[derive(Clone, Copy)]
pub enum Course {
    Going,
    Converged(usize),
    Refused(Refusal),
}

// With the parameters reached and the log-likelihood of the last pass: both stand on every course, as in the definition passes_to.
#[derive(Clone, Copy)]
pub struct State {
    pub course: Course,
    pub params: MsarParams,
    pub loglik: f64,
}

// The answer.
#[derive(Clone, Copy)]
pub struct Fitted {
    pub params: MsarParams,
    pub loglik: f64,
    pub iterations: usize,
    pub converged: bool,
}

// What a pass says before its step: a log-likelihood on every course, as in the definition verdict_after.
#[derive(Clone, Copy)]
pub struct Verdict {
    pub course: Course,
    pub loglik: f64,
}

// ---- one pass

// From the second pass on.
fn stops(i: usize, last: f64, loglik: f64, tol: f64) -> bool
    ensures { result ≡ stops tol i last loglik }
{
    (0 < i) & (loglik - last <= tol)
}

fn verdict_of(loglik: f64, last: f64, i: usize, tol: f64) -> Verdict
    requires { i < 18446744073709551615 }
    ensures { result ≡ verdict_after (Loglike when not (finite loglik)) (record { course = if stops tol i last loglik then Converged (suc i) else Going; loglik = loglik }) }
{
    if !number::is_finite(loglik) {
        return Verdict {
            course: Course::Refused(Refusal::Loglike),
            loglik: 0.0,
        };
    }
    if stops(i, last, loglik, tol) {
        return Verdict {
            course: Course::Converged(i + 1),
            loglik,
        };
    }
    Verdict {
        course: Course::Going,
        loglik,
    }
}

// The filter at q for pass number i, and what it says of n rows. The pass before had the log-likelihood `last`.
fn judge(
    q: &MsarParams,
    last: f64,
    i: usize,
    tol: f64,
    y: &[f64],
    sizes: Sizes,
    n: usize,
    work: &mut [f64],
) -> Verdict
    requires sizes { (sizes.k ≡ k q.now) × (sizes.order ≡ p q.now) }
    requires rows { (p q.now + n ≡ length y.now) × (length y.now ≤ 4096) × (2 * (n * sizes.windows) ≤ length work.old) × (i < 18446744073709551615) }
    ensures verdict { result ≡ verdict_of y.now tol i q.now last }
    ensures rest { (length work.new ≡ length work.old) × (drop (2 * (n * sizes.windows)) work.new ≡ drop (2 * (n * sizes.windows)) work.old) }
    ensures rows { result.course ≡ Going → Held One q.now y.now (values_of (start_shares q.now)) n sizes.windows (2 * n) n work.new }
{
    let start = stationary::solved_shares(&q.transition, q.means_count);
    match filter::run(Rule::One, q, start, sizes, y, n, 2 * n, work) {
        Err(r) => Verdict {
            course: Course::Refused(r),
            loglik: 0.0,
        },
        Ok(loglik) => verdict_of(loglik, last, i, tol),
    }
}

// Pass number i, of passes that go on: the filter's verdict, and where it goes on the smoother and the step. The state changes in
// place, since its parameters take room.
fn pass(
    state: &mut State,
    i: usize,
    tol: f64,
    y: &[f64],
    floor: f64,
    sizes: Sizes,
    n: usize,
    work: &mut [f64],
)
    requires ready { Ready state.old.params sizes y.now floor }
    requires rows { (p state.old.params + n ≡ length y.now) × (length y.now ≤ 4096) × (0 < n) × (2 * (n * sizes.windows) ≤ length work.old) × (i < 18446744073709551615) }
    requires going { state.old.course ≡ Going }
    ensures state { state.new ≡ pass_of y.now tol i state.old.params state.old.loglik }
    ensures rest { (length work.new ≡ length work.old) × (drop (2 * (n * sizes.windows)) work.new ≡ drop (2 * (n * sizes.windows)) work.old) }
{
    let verdict = judge(&state.params, state.loglik, i, tol, y, sizes, n, work);
    let loglik = verdict.loglik;
    match verdict.course {
        Course::Converged(passes) => {
            state.course = Course::Converged(passes);
            state.loglik = loglik;
        }
        Course::Refused(r) => {
            state.course = Course::Refused(r);
        }
        Course::Going => {
            smoother::smooth(&state.params, sizes, n, work);
            let smoothed = Smoothed {
                sizes,
                y,
                rows: n,
                work,
            };
            match em_step::step(&state.params, &smoothed, floor) {
                Ok(params) => {
                    state.params = params;
                    state.loglik = loglik;
                }
                Err(r) => {
                    state.course = Course::Refused(r);
                }
            }
        }
    }
}

// ---- all passes

// At most `max_iter` of them, one after another as long as they go on.
fn passes(
    state: &mut State,
    max_iter: usize,
    tol: f64,
    y: &[f64],
    floor: f64,
    sizes: Sizes,
    n: usize,
    work: &mut [f64],
)
    requires ready { Ready state.old.params sizes y.now floor }
    requires rows { (p state.old.params + n ≡ length y.now) × (length y.now ≤ 4096) × (0 < n) × (parameter_check state.old.params ≡ Passed) × (2 * (n * sizes.windows) ≤ length work.old) }
    requires begun { (state.old.course ≡ Going) × (state.old.loglik ≡ zero⁺) }
    ensures state { state.new ≡ passes_to y.now tol state.old.params max_iter }
    ensures rest { (length work.new ≡ length work.old) × (drop (2 * (n * sizes.windows)) work.new ≡ drop (2 * (n * sizes.windows)) work.old) }
{
    for i in 0..max_iter {
        match state.course {
            Course::Going => {}
            Course::Converged(_) => return,
            Course::Refused(_) => return,
        }
        pass(state, i, tol, y, floor, sizes, n, work);
    }
}

// ---- the closing pass

// How many passes there were, and whether they converged.
#[derive(Clone, Copy)]
pub struct End {
    pub iterations: usize,
    pub converged: bool,
}

// The same, or the refusal of the passes.
fn end_of(course: Course, max_iter: usize) -> Result<End, Refusal>
    ensures { result ≡ end_of max_iter course }
{
    match course {
        Course::Going => Ok(End {
            iterations: max_iter,
            converged: false,
        }),
        Course::Converged(iterations) => Ok(End {
            iterations,
            converged: true,
        }),
        Course::Refused(r) => Err(r),
    }
}

fn answered(q: &MsarParams, loglik: f64, end: End) -> Fitted
    requires { parameter_check q.now ≡ Passed }
    ensures { result ≡ record { params = tidy q.now; loglik = loglik; iterations = end.iterations; converged = end.converged } }
{
    Fitted {
        params: params::tidy::tidied(*q),
        loglik,
        iterations: end.iterations,
        converged: end.converged,
    }
}

// Filter and smoother at the parameters reached. Work memory is cleared, and the table written where this pass was not
// refused.
fn close(
    q: &MsarParams,
    y: &[f64],
    sizes: Sizes,
    n: usize,
    work: &mut [f64],
    smoothed: &mut [f64],
) -> Result<f64, Refusal>
    requires sizes { (sizes.k ≡ k q.now) × (sizes.order ≡ p q.now) }
    requires rows { (p q.now + n ≡ length y.now) × (length y.now ≤ 4096) × (2 * (n * sizes.windows) ≤ length work.old) × (n * k q.now ≤ length smoothed.old) × (0 < n) }
    ensures answer { result ≡ run_answer One q.now y.now }
    ensures work { work.new ≡ cleared (2 * (n * sizes.windows)) work.old }
    ensures smoothed { smoothed.new ≡ smoothed_table One q.now y.now smoothed.old }
{
    let start = stationary::solved_shares(&q.transition, q.means_count);
    let answer = filter::run(Rule::One, q, start, sizes, y, n, 2 * n, work);
    let need = 2 * (n * sizes.windows);
    match answer {
        Ok(_) => {
            calls::smooth_rows(q, sizes, n, work, smoothed);
            rows::clear(work, need);
            answer
        }
        Err(_) => {
            rows::clear(work, need);
            answer
        }
    }
}

// ---- the call

// The passes, then the closing one at the parameters reached.
fn run_fit(
    start: &MsarParams,
    max_iter: usize,
    tol: f64,
    y: &[f64],
    floor: f64,
    sizes: Sizes,
    n: usize,
    work: &mut [f64],
    smoothed: &mut [f64],
) -> Result<Fitted, Refusal>
    requires ready { Ready start.now sizes y.now floor }
    requires rows { (p start.now + n ≡ length y.now) × (length y.now ≤ 4096) × (0 < n) × (parameter_check start.now ≡ Passed) × (2 * (n * sizes.windows) ≤ length work.old) × (n * k start.now ≤ length smoothed.old) }
    ensures answer { result ≡ fitted_of y.now tol max_iter start.now }
    ensures work { work.new ≡ cleared (2 * (n * sizes.windows)) work.old }
    ensures smoothed { smoothed.new ≡ fitted_table y.now tol max_iter start.now smoothed.old }
{
    let mut state = State {
        course: Course::Going,
        params: *start,
        loglik: 0.0,
    };
    passes(&mut state, max_iter, tol, y, floor, sizes, n, work);
    match end_of(state.course, max_iter) {
        Err(r) => {
            rows::clear(work, 2 * (n * sizes.windows));
            Err(r)
        }
        Ok(end) => {
            let loglik = close(&state.params, y, sizes, n, work, smoothed)?;
            Ok(answered(&state.params, loglik, end))
        }
    }
}

// 24 and 25, by the order and the sample variance.
fn check(order: usize, variance: f64) -> Result<(), Refusal>
    ensures { (q : MsarParams) (y : List Float) → p q ≡ order → sample_variance y ≡ variance → result ≡ fit_check q y }
{
    if order == 0 {
        return Err(Refusal::OrderZero);
    }
    if !number::is_usable(variance) {
        return Err(Refusal::SampleVariance(variance));
    }
    Ok(())
}

// The parameters that EM reaches from `start`, and the probabilities of the labels given all readings under them.
pub fn fit(
    s: MsarSpec,
    y: &[f64],
    start: MsarParams,
    max_iter: usize,
    tol: f64,
    work: &mut [f64],
    smoothed: &mut [f64],
) -> Result<Fitted, Refusal>
    ensures { record { answer = result; work = work.new; smoothed = smoothed.new } ≡ fit_call s y.now start max_iter tol work.old smoothed.old }
{
    let b = binding::bind(s, y)?;
    let need = binding::smooth_need(b);
    calls::memory(b, s.k_regimes, need, work.len(), smoothed.len())?;
    binding::parameters(s, start)?;
    let variance = em_sample_variance::sample_variance(y);
    check(start.order, variance)?;
    let sizes = Sizes::of(start.means_count, start.order, b.windows);
    run_fit(
        &start,
        max_iter,
        tol,
        y,
        SMALL * variance,
        sizes,
        b.rows,
        work,
        smoothed,
    )
}
