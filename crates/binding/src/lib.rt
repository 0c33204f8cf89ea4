// What a caller hands in, checked: the series under its spec, memory, the rule, the parameters under the spec. A call puts
// its own checks between the first and the last.
#![tactic(auto)]

ghost use Rattle.std.specs.Prelude.{◌≡◌, not, List, ◌+◌, ◌*◌, ◌≤◌, Float, length};
ghost use Rattle.refusal.specs.Checks.{Failed, ◌when◌, ◌before◌};
ghost use Rattle.refusal.specs.declared.Refusal.TheVariants.{Shape};
ghost use Rattle.spec.specs.declared.MsarSpec.{MsarSpec};
ghost use Rattle.params.specs.Parameters.{matches_spec};
ghost use Rattle.binding.specs.Binding.{readings_check, length_check, bound_of, memory_check, rule_check, params_check};

use number::Test;
use params::MsarParams;
use refusal::Refusal;
use spec::MsarSpec;

// The counts that a call works with.
#[derive(Clone, Copy)]
pub struct Bound {
    pub rows: usize,
    pub windows: usize,
    pub power: usize,
}

// 6 at the first reading that is not finite.
fn readings(y: &[f64]) -> Result<(), Refusal>
    ensures { result ≡ readings_check y.now }
{
    let n = y.len();
    let i = number::first_failing(Test::Finite, y, n);
    if i < n {
        return Err(Refusal::Reading(i));
    }
    Ok(())
}

// 4 and 5.
fn length_check(order: usize, t: usize) -> Result<(), Refusal>
    requires { order ≤ 7 }
    ensures { result ≡ length_check order t }
{
    if t <= order {
        return Err(Refusal::ShortSeries(order + 1));
    }
    if t > 4096 {
        return Err(Refusal::LongSeries(t));
    }
    Ok(())
}

// 4 to 6. A series that is too long is not read.
fn series(order: usize, y: &[f64]) -> Result<(), Refusal>
    requires { order ≤ 7 }
    ensures { result ≡ (length_check order (length y.now) before readings_check y.now) }
{
    length_check(order, y.len())?;
    readings(y)
}

// 1 to 6, and the counts.
pub fn bind(s: MsarSpec, y: &[f64]) -> Result<Bound, Refusal>
    ensures { result ≡ bound_of s y.now }
{
    let windows = s.expanded_states()?;
    series(s.order, y)?;
    Ok(Bound {
        rows: y.len() - s.order,
        windows,
        power: windows / s.k_regimes,
    })
}

// Work memory that `loglike` and `filter` need.
pub fn filter_need(b: Bound) -> usize
    requires { b.rows * b.windows ≤ 4096 * 256 }
    ensures { result ≡ b.rows * b.windows + 256 }
{
    b.rows * b.windows + 256
}

// The same for `smooth` and `fit`.
pub fn smooth_need(b: Bound) -> usize
    requires { b.rows * b.windows ≤ 4096 * 256 }
    ensures { result ≡ 2 * (b.rows * b.windows) }
{
    2 * (b.rows * b.windows)
}

// 7.
pub fn memory(lent: usize, needed: usize) -> Result<(), Refusal>
    ensures { result ≡ memory_check lent needed }
{
    if lent < needed {
        return Err(Refusal::Memory(needed));
    }
    Ok(())
}

// 29. The rule is the number that C hands in.
fn rule_check(number: usize) -> Result<(), Refusal>
    ensures { result ≡ rule_check number }
{
    if (number == 1) | (number == 2) {
        return Ok(());
    }
    Err(Refusal::OtherRule)
}

// 29, then the checks of the parameters.
pub fn asked(number: usize, s: MsarSpec, q: MsarParams) -> Result<(), Refusal>
    ensures { result ≡ (rule_check number before params_check s q) }
{
    let rule = rule_check(number);
    let given = parameters(s, q);
    refusal::first_of(rule, given)
}

// The parameter checks, then 20.
pub fn parameters(s: MsarSpec, q: MsarParams) -> Result<(), Refusal>
    ensures { result ≡ params_check s q }
{
    let own = q.check();
    let shape = shape(s, q);
    refusal::first_of(own, shape)
}

// 20.
fn shape(s: MsarSpec, q: MsarParams) -> Result<(), Refusal>
    ensures { result ≡ (Shape when not (matches_spec s q)) }
{
    if q.matches_spec(s) {
        return Ok(());
    }
    Err(Refusal::Shape)
}
