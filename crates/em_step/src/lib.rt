// One EM step by the smoothed rows in work memory.
#![tactic(auto)]

ghost use Rattle.std.specs.Prelude.{◌≡◌, Ok};
ghost use Rattle.refusal.specs.Checks.{◌before◌};
ghost use Rattle.rows.specs.Smoothed.{rows_in};
ghost use Rattle.em_step.specs.Step.{improved, step_of};
ghost use Rattle.em_step.specs.Ready.{Ready};

use params::MsarParams;
use refusal::Refusal;
use rows::Smoothed;

// Means, then AR coefficients, then variances, each at what was found before it.
fn improve(q: &mut MsarParams, smoothed: &Smoothed, floor: f64) -> Result<(), Refusal>
    requires { Ready q.old smoothed.now.sizes smoothed.now.y.now floor }
    ensures { (result before Ok q.new) ≡ improved smoothed.now.y.now smoothed.now.rows (rows_in q.old smoothed.now.work.now) q.old }
{
    q.means = em_means::new_means(q, smoothed)?;
    q.ar = em_coefficients::new_ar(q, smoothed)?;
    q.variances = em_variances::new_variances(q, smoothed, floor);
    Ok(())
}

// The step from the parameters q, at which the rows were smoothed; the floor is 1e-12 times the sample variance.
pub fn step(q: &MsarParams, smoothed: &Smoothed, floor: f64) -> Result<MsarParams, Refusal>
    requires { Ready q.now smoothed.now.sizes smoothed.now.y.now floor }
    ensures { result ≡ step_of smoothed.now.y.now smoothed.now.rows (rows_in q.now smoothed.now.work.now) q.now }
{
    let mut next = *q;
    improve(&mut next, smoothed, floor)?;
    // once more, at what was found
    improve(&mut next, smoothed, floor)?;
    let blocks = smoothed.rows * smoothed.sizes.power;
    next.transition = em_counts::new_transition(
        &q.transition,
        q.means_count,
        blocks,
        smoothed.work,
    );
    next.check()?;
    Ok(next)
}
