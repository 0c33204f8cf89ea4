// The new variances of an EM step. The residuals of a row are made lag by lag, so that windows with the same newest
// labels share the work; the sums of each block of labels stand in sixteen places.
#![tactic(auto)]

ghost use Rattle.std.specs.Prelude.{◌≡◌, suc, ◌+◌, ◌<◌, ◌≤◌, set, if◌then◌else◌};
ghost use Rattle.std.specs.Float.Ieee.{ne};
ghost use Rattle.number.specs.Number.{◌⊕◌, ◌⊖◌, ◌⊗◌, zero⁺};
ghost use Rattle.number.specs.Table.{◌!◌, fill_at};
ghost use Rattle.params.specs.Parameters.{k, p};
ghost use Rattle.em_variances.specs.Steps.{turned, residual_by, RowsSummed, variance_of, variances_by};

use params::MsarParams;
use rows::Smoothed;
use window::Row;

// ---- the residuals of a row

// The coefficients with their signs turned: what a lag takes away is then added.
fn turn(phis: &mut [f64; 112])
    ensures { phis.new ≡ turned phis.old }
{
    for phi in phis.iter_mut() {
        *phi = -*phi;
    }
}

// Without lags: the reading less the mean of the label now.
fn start(row: &mut [f64; 256], means: &[f64; 16], reading: f64, k: usize)
    requires { k ≤ 16 }
    ensures { row.new ≡ fill_at 0 (λ s. reading ⊖ means.now ! s) k row.old }
{
    for s in 0..k {
        row[s] = reading - means[s];
    }
}

// The residuals of all windows for the reading of a row.
fn residuals_row(
    means: &[f64; 16],
    phis: &[f64; 112],
    smoothed: &Smoothed,
    row: Row,
    residuals: &mut [f64; 256],
)
    requires { row.0 < smoothed.now.rows }
    ensures { residuals.new ≡ fill_at 0 (residual_by smoothed.now.sizes.k smoothed.now.sizes.order phis.now means.now smoothed.now.y.now (smoothed.now.sizes.order + row.0)) smoothed.now.sizes.windows residuals.old }
{
    let t = smoothed.time_of(row);
    start(residuals, means, smoothed.y[t.0], smoothed.sizes.k);
    density::add_lags(means, phis, smoothed.sizes, smoothed.y, t, residuals);
}

// ---- the sums

// Σ g ε² and Σ g of each block of labels.
#[derive(Clone, Copy)]
struct Moments {
    squares: [f64; 16],
    weights: [f64; 16],
}

impl Moments {
    // A window of weight g and residual e, for block b; a weight equal to zero is skipped.
    fn add(&mut self, b: usize, g: f64, e: f64)
        requires { b < 16 }
        ensures squares { self.new.squares ≡ (if ne g zero⁺ then set self.old.squares b (self.old.squares ! b ⊕ g ⊗ e ⊗ e) else self.old.squares) }
        ensures weights { self.new.weights ≡ (if ne g zero⁺ then set self.old.weights b (self.old.weights ! b ⊕ g) else self.old.weights) }
    {
        if g != 0.0 {
            self.squares[b] += g * e * e;
            self.weights[b] += g;
        }
    }

    // One row more, its residuals first.
    fn add_row(
        &mut self,
        q: &MsarParams,
        phis: &[f64; 112],
        smoothed: &Smoothed,
        row: Row,
        residuals: &mut [f64; 256],
    )
        requires row_lt_rows { row.0 < smoothed.now.rows }
        requires summed { RowsSummed q.now phis.now smoothed.now row.0 self.old }
        ensures { RowsSummed q.now phis.now smoothed.now (suc row.0) self.new }
    {
        residuals_row(&q.means, phis, smoothed, row, residuals);
        let mut s = 0;
        for (a, g) in smoothed.weights(row).iter().enumerate() {
            let b = density::block_of(q.variances_count, s);
            self.add(b, *g, residuals[a]);
            s = window::next_label(s, smoothed.sizes.k);
        }
    }
}

// ---- the variances

// At least the floor; kept where the weights do not sum to a number above zero.
fn variance_of(floor: f64, square: f64, weight: f64, old: f64) -> f64
    ensures { result ≡ variance_of floor square weight old }
{
    if weight > 0.0 {
        return number::max(square / weight, floor);
    }
    old
}

// The first `count` of the old variances anew.
fn variances_of(floor: f64, sums: &Moments, mut old: [f64; 16], count: usize) -> [f64; 16]
    requires { count ≤ 16 }
    ensures { result ≡ fill_at 0 (λ b. variance_of floor (sums.now.squares ! b) (sums.now.weights ! b) (old ! b)) count old }
{
    for b in 0..count {
        old[b] = variance_of(floor, sums.squares[b], sums.weights[b], old[b]);
    }
    old
}

// The new variances by the smoothed rows; the floor is 1e-12 times the sample variance.
pub fn new_variances(q: &MsarParams, smoothed: &Smoothed, floor: f64) -> [f64; 16]
    requires sizes { (smoothed.now.sizes.k ≡ k q.now) × (smoothed.now.sizes.order ≡ p q.now) }
    requires count { q.now.variances_count ≤ 16 }
    ensures { result ≡ variances_by q.now smoothed.now.y.now floor smoothed.now.rows smoothed.now.work.now }
{
    let mut phis = density::phis(q);
    turn(&mut phis);
    let mut residuals = [0.0; 256];
    let mut sums = Moments {
        squares: [0.0; 16],
        weights: [0.0; 16],
    };
    for i in 0..smoothed.rows {
        sums.add_row(q, &phis, smoothed, Row(i), &mut residuals);
    }
    variances_of(floor, &sums, q.variances, q.variances_count)
}
