// An answer as C reads it: every place of both arrays is written.
ghost use Rattle.std.specs.Prelude.{◌≡◌};
ghost use Rattle.number.specs.Number.{zero⁺};
ghost use Rattle.refusal.specs.Checks.{Failed};
ghost use Rattle.c_layout.specs.Layout.{spelled, windows_spelled, loglik_spelled, listed, laid_out, flag, fit_spelled, numbers_after};

use fit::Fitted;
use params::MsarParams;
use refusal::Refusal;

// A refusal: its number, its place and its value.
fn refuse(r: Refusal, whole: &mut [usize; 4], real: &mut [f64; 2])
    ensures { record { whole = whole.new; real = real.new } ≡ spelled (Failed r) 0 zero⁺ }
{
    *whole = [r.number(), r.place(), 0, 0];
    *real = [r.value(), 0.0];
}

// An answer with its place and its log-likelihood, or the refusal.
pub fn spell(
    check: Result<(), Refusal>,
    place: usize,
    loglik: f64,
    whole: &mut [usize; 4],
    real: &mut [f64; 2],
)
    ensures { record { whole = whole.new; real = real.new } ≡ spelled check place loglik }
{
    match check {
        Ok(()) => {
            *whole = [0, place, 0, 0];
            *real = [0.0, loglik];
        }
        Err(r) => refuse(r, whole, real),
    }
}

// The number of windows, as the place.
pub fn spell_windows(windows: Result<usize, Refusal>, whole: &mut [usize; 4], real: &mut [f64; 2])
    ensures { record { whole = whole.new; real = real.new } ≡ windows_spelled windows }
{
    match windows {
        Ok(m) => spell(Ok(()), m, 0.0, whole, real),
        Err(r) => refuse(r, whole, real),
    }
}

// A log-likelihood.
pub fn spell_loglik(answer: Result<f64, Refusal>, whole: &mut [usize; 4], real: &mut [f64; 2])
    ensures { record { whole = whole.new; real = real.new } ≡ loglik_spelled answer }
{
    match answer {
        Ok(loglik) => spell(Ok(()), 0, loglik, whole, real),
        Err(r) => refuse(r, whole, real),
    }
}

// Sixteen numbers where there is no refusal.
pub fn list(
    answer: Result<[f64; 16], Refusal>,
    lent: &mut [f64; 16],
    whole: &mut [usize; 4],
    real: &mut [f64; 2],
)
    ensures { record { values = lent.new; whole = whole.new; real = real.new } ≡ listed answer lent.old }
{
    match answer {
        Ok(values) => {
            *lent = values;
            spell(Ok(()), 0, 0.0, whole, real);
        }
        Err(r) => refuse(r, whole, real),
    }
}

// ---- a fit

fn flag(b: bool) -> usize
    ensures { result ≡ flag b }
{
    usize::from(b)
}

// An answer with its iterations and whether it converged, or the refusal.
pub fn spell_fit(answer: &Result<Fitted, Refusal>, whole: &mut [usize; 4], real: &mut [f64; 2])
    ensures { record { whole = whole.new; real = real.new } ≡ fit_spelled answer.now }
{
    match answer {
        Ok(f) => {
            *whole = [0, 0, f.iterations, flag(f.converged)];
            *real = [0.0, f.loglik];
        }
        Err(r) => refuse(*r, whole, real),
    }
}

fn laid(q: &MsarParams) -> [f64; 400]
    ensures { result ≡ laid_out q.now }
{
    let mut numbers = [0.0; 400];
    number::copy(&q.transition, 256, &mut numbers, 0);
    number::copy(&q.means, 16, &mut numbers, 256);
    number::copy(&q.ar, 112, &mut numbers, 272);
    number::copy(&q.variances, 16, &mut numbers, 384);
    numbers
}

// The parameters, where there is no refusal.
pub fn lay_out(answer: &Result<Fitted, Refusal>, numbers: &mut [f64; 400])
    ensures { numbers.new ≡ numbers_after answer.now numbers.old }
{
    if let Ok(f) = answer {
        *numbers = laid(&f.params);
    }
}
