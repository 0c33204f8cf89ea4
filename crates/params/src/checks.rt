// The checks of one part of the parameters each, after the count of means and the order have been tested.
ghost use Rattle.std.specs.Prelude.{◌≡◌, ℕ, Float, length, not, ◌||◌, ◌*◌, ◌≤◌, ◌<◌};
ghost use Rattle.number.specs.Number.{◌=?◌};
ghost use Rattle.number.specs.Table.{◌!◌};
ghost use Rattle.number.specs.Tests.{holds};
ghost use Rattle.refusal.specs.Checks.{◌before◌, ◌when◌, each};
ghost use Rattle.refusal.specs.declared.Refusal.{Refusal};
ghost use Rattle.refusal.specs.declared.Refusal.TheVariants.{Length, NoAr};
ghost use Rattle.params.specs.Parameters.{k, p, P};
ghost use Rattle.params.specs.Checks.{column_sum, mean_check, entry_check, column_check, ar_check, variance_check};

use crate::MsarParams;
use number::Test;
use refusal::Refusal;

// One for all regimes, or one for each.
fn one_or_each(count: usize, regimes: usize) -> bool
    ensures { result ≡ (count =? 1 || count =? regimes) }
{
    (count == 1) | (count == regimes)
}

// P[i][j]: label i now, label j before.
pub fn step(q: MsarParams, i: usize, j: usize) -> f64
    requires { (k q ≤ 16) × (i < k q) × (j < k q) }
    ensures { result ≡ P q i j }
{
    let n = q.means_count;
    q.transition[i * n + j]
}

// ---- checks at each place

// Refused at the first of the first n values that fails a test: with what `refused` makes of its place and of it.
fn each_passes<F: Fn(usize, f64) -> Refusal>(
    test: Test,
    values: &[f64],
    n: usize,
    refused: F,
) -> Result<(), Refusal>
    requires within { n ≤ length values.now }
    requires callable { F.IsAlwaysCallable refused }
    ensures { (r : ℕ → Float → Refusal) → ((i : ℕ) (v : Float) (w : Refusal) → F.post refused i v w → w ≡ r i v) → result ≡ each n (λ i. r i (values.now ! i) when not (holds test (values.now ! i))) }
{
    let i = number::first_failing(test, values, n);
    if i < n {
        return Err(refused(i, values[i]));
    }
    Ok(())
}

pub fn means(q: MsarParams) -> Result<(), Refusal>
    requires { k q ≤ 16 }
    ensures { result ≡ each (k q) (mean_check q) }
{
    each_passes(Test::Finite, &q.means, q.means_count, Refusal::Mean)
}

fn entries(q: MsarParams, n: usize) -> Result<(), Refusal>
    requires { n ≤ 256 }
    ensures { result ≡ each n (entry_check q) }
{
    each_passes(
        Test::Between(0.0, 1.0 + 1e-8),
        &q.transition,
        n,
        Refusal::Transition,
    )
}

fn column_sum(q: MsarParams, j: usize) -> f64
    requires { (k q ≤ 16) × (j < k q) }
    ensures { result ≡ column_sum q j }
{
    let n = q.means_count;
    let mut sum = 0.0;
    for i in 0..n {
        sum += step(q, i, j);
    }
    sum
}

fn columns(q: MsarParams) -> Result<(), Refusal>
    requires { k q ≤ 16 }
    ensures { result ≡ each (k q) (column_check q) }
{
    let n = q.means_count;
    for j in 0..n {
        let sum = column_sum(q, j);
        if number::magnitude(sum - 1.0) > 1e-8 {
            return Err(Refusal::Column(j, sum));
        }
    }
    Ok(())
}

fn coefficients(q: MsarParams) -> Result<(), Refusal>
    requires { q.ar_count ≤ 112 }
    ensures { result ≡ each q.ar_count (ar_check q) }
{
    each_passes(Test::Finite, &q.ar, q.ar_count, Refusal::Ar)
}

fn each_variance(q: MsarParams) -> Result<(), Refusal>
    requires { q.variances_count ≤ 16 }
    ensures { result ≡ each q.variances_count (variance_check q) }
{
    each_passes(
        Test::Usable,
        &q.variances,
        q.variances_count,
        Refusal::Variance,
    )
}

// ---- lengths first

pub fn transition(q: MsarParams) -> Result<(), Refusal>
    requires { k q ≤ 16 }
    ensures { result ≡ (Length (k q * k q) when not (q.transition_count =? k q * k q)
        before each (k q * k q) (entry_check q)
        before each (k q) (column_check q)) }
{
    let n = q.means_count;
    let square = n * n;
    if q.transition_count != square {
        return Err(Refusal::Length(square));
    }
    entries(q, square)?;
    columns(q)
}

pub fn ar(q: MsarParams) -> Result<(), Refusal>
    requires { (k q ≤ 16) × (p q ≤ 7) }
    ensures { result ≡ (NoAr when q.ar_blocks =? 0
        before Length (k q) when not (q.ar_blocks =? 1 || q.ar_blocks =? k q)
        before Length (q.ar_blocks * p q) when not (q.ar_count =? q.ar_blocks * p q)
        before each q.ar_count (ar_check q)) }
{
    if q.ar_blocks == 0 {
        return Err(Refusal::NoAr);
    }
    if !one_or_each(q.ar_blocks, q.means_count) {
        return Err(Refusal::Length(q.means_count));
    }
    let expected = q.ar_blocks * q.order;
    if q.ar_count != expected {
        return Err(Refusal::Length(expected));
    }
    coefficients(q)
}

pub fn variances(q: MsarParams) -> Result<(), Refusal>
    requires { k q ≤ 16 }
    ensures { result ≡ (Length (k q) when not (q.variances_count =? 1 || q.variances_count =? k q)
        before each q.variances_count (variance_check q)) }
{
    if !one_or_each(q.variances_count, q.means_count) {
        return Err(Refusal::Length(q.means_count));
    }
    each_variance(q)
}
