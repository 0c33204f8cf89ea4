// The density of a reading under each window of labels. Standard deviations, their logarithms and the coefficients by
// label do not change along the series: they are tables, made once a call. The means of a row are made lag by lag, so
// that windows with the same newest labels share the work.
#![tactic(auto)]

ghost use Rattle.std.specs.Prelude.{◌≡◌, ℕ, Float, ◌⊎◌, suc, ◌+◌, ◌*◌, ◌%◌, ◌^◌, ◌<◌, ◌≤◌, length, replicate};
ghost use Rattle.number.specs.Number.{◌⊕◌, ◌⊗◌, zero⁺};
ghost use Rattle.number.specs.Sums.{sum_up};
ghost use Rattle.number.specs.Table.{◌!◌, fill_at};
ghost use Rattle.params.specs.declared.MsarParams.{MsarParams};
ghost use Rattle.window.specs.Windows.{labels};
ghost use Rattle.params.specs.Parameters.{k, p, block_of};
ghost use Rattle.density.specs.Steps.{variances_from, deviation_at, log_at, mean_at, lags_to, exponent_at, weight_of, weight_at, phis_from, phis_of, lagged_at, Parts};

use params::MsarParams;
use window::{Sizes, Time};

// ---- once a call

// What is counted once is shared by all labels.
pub fn block_of(count: usize, s: usize) -> usize
    ensures { result ≡ block_of count s }
{
    if count == 1 {
        return 0;
    }
    s
}

// The variances by label.
pub fn variances(own: &[f64; 16], count: usize, k: usize) -> [f64; 16]
    requires { k ≤ 16 }
    ensures { result ≡ variances_from own.now count k }
{
    let mut row = [0.0; 16];
    for s in 0..k {
        row[s] = own[block_of(count, s)];
    }
    row
}

// The first k places again and again, up to m.
fn repeat(row: &mut [f64; 256], k: usize, m: usize)
    requires { (0 < k) × (k ≤ m) × (m ≤ 256) }
    ensures { row.new ≡ fill_at 0 (λ a. row.old ! (a % k)) m row.old }
{
    // an index, not an iterator: each place is written from the one k before it
    for a in k..m {
        row[a] = row[a - k];
    }
}

// What f makes of the number of each label, for m windows.
fn by_label<F: Fn(f64) -> f64>(own: &[f64], k: usize, m: usize, f: F) -> [f64; 256]
    requires sizes { (0 < k) × (k ≤ length own.now) × (k ≤ m) × (m ≤ 256) }
    requires callable { F.IsAlwaysCallable f }
    ensures { (g : Float → Float) → ((s : ℕ) (y : Float) → s < k → F.post f (own.now ! s) y → y ≡ g (own.now ! s)) → result ≡ fill_at 0 (λ a. g (own.now ! (a % k))) m (replicate 256 zero⁺) }
{
    let mut row = [0.0; 256];
    for s in 0..k {
        row[s] = f(own[s]);
    }
    repeat(&mut row, k, m);
    row
}

// The standard deviation under each of m windows.
pub fn deviations(q: &MsarParams, m: usize) -> [f64; 256]
    requires { (0 < k q.now) × (k q.now ≤ 16) × (k q.now ≤ m) × (m ≤ 256) }
    ensures { result ≡ fill_at 0 (deviation_at q.now) m (replicate 256 zero⁺) }
{
    let k = q.means_count;
    let own = variances(&q.variances, q.variances_count, k);
    by_label(&own, k, m, root::root)
}

// Their logarithms.
pub fn logarithms(deviations: &[f64; 256], k: usize, m: usize) -> [f64; 256]
    requires { (0 < k) × (k ≤ 16) × (k ≤ m) × (m ≤ 256) }
    ensures { (q : MsarParams) → q.means_count ≡ k → deviations.now ≡ fill_at 0 (deviation_at q) m (replicate 256 zero⁺) → result ≡ fill_at 0 (log_at q) m (replicate 256 zero⁺) }
{
    by_label(deviations, k, m, logarithm::log)
}

// Both tables, for m windows.
#[derive(Clone, Copy)]
pub struct Scales {
    pub deviations: [f64; 256],
    pub logarithms: [f64; 256],
}

impl Scales {
    pub fn of(q: &MsarParams, m: usize) -> Scales
        requires { (0 < k q.now) × (k q.now ≤ 16) × (k q.now ≤ m) × (m ≤ 256) }
        ensures deviations { result.deviations ≡ fill_at 0 (deviation_at q.now) m (replicate 256 zero⁺) }
        ensures logarithms { result.logarithms ≡ fill_at 0 (log_at q.now) m (replicate 256 zero⁺) }
    {
        let sd = deviations(q, m);
        Scales {
            deviations: sd,
            logarithms: logarithms(&sd, q.means_count, m),
        }
    }
}

// The coefficients by lag and label.
pub fn phis_of(ar: &[f64; 112], blocks: usize, k: usize, order: usize) -> [f64; 112]
    requires { (0 < k) × (k ≤ 16) × (order ≤ 7) }
    ensures { result ≡ phis_from ar.now blocks k order }
{
    let mut row = [0.0; 112];
    for e in 0..order * k {
        row[e] = ar[block_of(blocks, e % k) * order + e / k];
    }
    row
}

// The same of parameters.
pub fn phis(q: &MsarParams) -> [f64; 112]
    requires { (0 < k q.now) × (k q.now ≤ 16) × (p q.now ≤ 7) }
    ensures { result ≡ phis_of q.now }
{
    phis_of(&q.ar, q.ar_blocks, q.means_count, q.order)
}

// ---- once a row

// The windows from `at` on, for one label more: each goes on from the window of its newer labels, by φ of its label now
// times d. At 0 a window goes on from itself, so that block comes last.
fn lag_block(row: &mut [f64; 256], phis: &[f64], d: f64, k: usize, at: usize, step: usize)
    requires { (0 < k) × (k ≤ 16) × (k ≤ length phis.now) × (at + step ≤ 256) × ((at ≡ 0) ⊎ (step ≤ at)) }
    ensures { row.new ≡ fill_at at (λ b. row.old ! b ⊕ phis.now ! (b % k) ⊗ d) step row.old }
{
    let mut s = 0;
    // an index, not an iterator: the row is written from itself
    for b in 0..step {
        row[at + b] = row[b] + phis[s] * d;
        s = window::next_label(s, k);
    }
}

// One lag more, whose coefficients by label begin `phis`: from the step windows of some labels to the k * step windows
// of one label more.
fn lag(row: &mut [f64; 256], phis: &[f64], means: &[f64; 16], reading: f64, k: usize, step: usize)
    requires { (0 < k) × (k ≤ 16) × (k ≤ length phis.now) × (k * step ≤ 256) × (0 < step) × (step % k ≡ 0) }
    ensures { row.new ≡ fill_at 0 (lagged_at row.old phis.now means.now reading k step) (k * step) row.old }
{
    for s in (0..k).rev() {
        lag_block(row, phis, reading - means[s], k, s * step, step);
    }
}

// The lags of all windows before time t, lag by lag, on what the row holds for each label now.
pub fn add_lags(
    means: &[f64; 16],
    phis: &[f64; 112],
    sizes: Sizes,
    y: &[f64],
    t: Time,
    row: &mut [f64; 256],
)
    requires { (sizes.order ≤ t.0) × (t.0 < length y.now) }
    ensures { row.new ≡ fill_at 0 (λ a. lags_to (λ s. row.old ! s) sizes.k phis.now means.now y.now t.0 (labels sizes.k (suc sizes.order) a) sizes.order) sizes.windows row.old }
{
    let at = t.0;
    let k = sizes.k;
    let mut step = k;
    for l in 0..sizes.order {
        let lag_at = at - l - 1;
        lag(row, &phis[l * k..], means, y[lag_at], k, step);
        step = step * k;
    }
}

// The means of all windows for the reading at time t.
pub fn means_row(
    means: &[f64; 16],
    phis: &[f64; 112],
    sizes: Sizes,
    y: &[f64],
    t: Time,
    row: &mut [f64; 256],
)
    requires { (sizes.order ≤ t.0) × (t.0 < length y.now) }
    ensures { (q : MsarParams) → Parts q sizes.k sizes.order means.now phis.now → row.new ≡ fill_at 0 (mean_at q y.now t sizes.order) sizes.windows row.old }
{
    // without lags: the mean of the label now
    number::copy(means, sizes.k, row, 0);
    add_lags(means, phis, sizes, y, t, row);
}

// The exponents of the densities. They have a loop of their own, so that no division waits for an exponential.
fn exponents(reading: f64, means: &[f64; 256], scales: &Scales, m: usize, row: &mut [f64; 256])
    requires { m ≤ 256 }
    ensures { row.new ≡ fill_at 0 (exponent_at reading means.now scales.now.deviations scales.now.logarithms) m row.old }
{
    for a in 0..m {
        let z = (reading - means[a]) / scales.deviations[a];
        row[a] = normal::lnpdf(z) - scales.logarithms[a];
    }
}

// A row of exponents becomes prediction × exponential, and their sum.
fn weigh_exponents(predicted: &[f64; 256], m: usize, row: &mut [f64; 256]) -> f64
    requires { m ≤ 256 }
    ensures row { row.new ≡ fill_at 0 (weight_of predicted.now row.old) m row.old }
    ensures total { result ≡ sum_up (weight_of predicted.now row.old) m }
{
    let mut total = 0.0;
    for a in 0..m {
        let w = predicted[a] * exp::exp(row[a]);
        row[a] = w;
        total = total + w;
    }
    total
}

// Prediction × density for each window, and the sum of these weights.
pub fn weigh(
    reading: f64,
    means: &[f64; 256],
    scales: &Scales,
    predicted: &[f64; 256],
    m: usize,
    weights: &mut [f64; 256],
) -> f64
    requires { m ≤ 256 }
    ensures weights { weights.new ≡ fill_at 0 (weight_at reading means.now scales.now.deviations scales.now.logarithms predicted.now) m weights.old }
    ensures total { result ≡ sum_up (weight_at reading means.now scales.now.deviations scales.now.logarithms predicted.now) m }
{
    exponents(reading, means, scales, m, weights);
    weigh_exponents(predicted, m, weights)
}
