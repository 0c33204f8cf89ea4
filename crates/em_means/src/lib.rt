// The new means: normal equations summed over the smoothed windows, and solved with a ridge. What is left of a reading
// depends on the label now alone: it is made once a row. The sensitivities are made once a window: a table of them all
// would take 32 KiB of stack.
#![tactic(auto)]

ghost use Rattle.std.specs.Prelude.{◌≡◌, suc, ◌+◌, ◌*◌, ◌%◌, ◌<◌, ◌≤◌, length, replicate, set};
ghost use Rattle.number.specs.Number.{◌⊕◌, ◌⊗◌, zero⁺};
ghost use Rattle.number.specs.Table.{◌!◌, fill_at};
ghost use Rattle.params.specs.Parameters.{k, p};
ghost use Rattle.rows.specs.Smoothed.{rows_in};
ghost use Rattle.em_means.specs.Means.{new_means};
ghost use Rattle.em_means.specs.Steps.{sensitivities_of, less_lags_at, cell_added, side_added, cell_seen, side_seen, RowsSummed};

use params::MsarParams;
use refusal::Refusal;
use rows::Smoothed;
use window::{Row, Sizes};

// ---- once a row

// The reading of a row, less what its lags say under label s, their means left out.
fn less_lags(phis: &[f64; 112], smoothed: &Smoothed, row: Row, s: usize) -> f64
    requires { (s < smoothed.now.sizes.k) × (row.0 < smoothed.now.rows) }
    ensures { result ≡ less_lags_at smoothed.now.sizes.k smoothed.now.sizes.order phis.now smoothed.now.y.now (smoothed.now.sizes.order + row.0) s }
{
    let sizes = smoothed.sizes;
    let at = smoothed.time_of(row).0;
    let mut d = smoothed.y[at];
    for l in 0..sizes.order {
        d -= phis[l * sizes.k + s] * smoothed.y[at - (l + 1)];
    }
    d
}

// The same for each label.
fn less_lags_by_label(phis: &[f64; 112], smoothed: &Smoothed, row: Row) -> [f64; 16]
    requires { row.0 < smoothed.now.rows }
    ensures { result ≡ fill_at 0 (less_lags_at smoothed.now.sizes.k smoothed.now.sizes.order phis.now smoothed.now.y.now (smoothed.now.sizes.order + row.0)) smoothed.now.sizes.k (replicate 16 zero⁺) }
{
    let mut ds = [0.0; 16];
    for s in 0..smoothed.sizes.k {
        ds[s] = less_lags(phis, smoothed, row, s);
    }
    ds
}

// ---- once a window

// How the residual of window a, whose label now is s, moves with the mean of each label: against the mean of s, and by φ_l
// with the mean of s_l. The row comes with +0 in all places.
// a row that is lent, not a result: as a result it takes a tenth more of the time of new_means
fn sensitivities(row: &mut [f64; 16], phis: &[f64; 112], a: usize, s: usize, sizes: Sizes)
    requires { (s < sizes.k) × (s ≡ a % sizes.k) × (row.old ≡ replicate 16 zero⁺) }
    ensures { row.new ≡ sensitivities_of sizes.k sizes.order phis.now a }
{
    row[s] = -1.0;
    let mut rest = a / sizes.k;
    for l in 0..sizes.order {
        let older = rest / sizes.k;
        // what % would be, without a second division
        let r = rest - older * sizes.k;
        row[r] += phis[l * sizes.k + s];
        rest = older;
    }
}

// ---- the sums

// The normal equations: row r of k begins at place r·k of the table.
#[derive(Clone, Copy)]
struct Equations {
    table: [f64; 256],
    side: [f64; 16],
}

impl Equations {
    // A row of the table, which begins at `at`: f times the sensitivities.
    fn add_scaled(&mut self, at: usize, row: &[f64; 16], k: usize, f: f64)
        requires { (at + k ≤ 256) × (k ≤ 16) }
        ensures table { self.new.table ≡ fill_at at (λ c. self.old.table ! (at + c) ⊕ f ⊗ row.now ! c) k self.old.table }
        ensures side { self.new.side ≡ self.old.side }
    {
        for c in 0..k {
            self.table[at + c] += f * row[c];
        }
    }

    // Label r of a window of weight over variance gw: nothing where its sensitivity is zero.
    fn add_label(&mut self, row: &[f64; 16], r: usize, k: usize, gw: f64, d: f64)
        requires { (r < k) × (k ≤ 16) }
        ensures table { self.new.table ≡ fill_at (r * k) (λ c. cell_added row.now k gw self.old.table (r * k + c)) k self.old.table }
        ensures side { self.new.side ≡ set self.old.side r (side_added row.now k gw d self.old.side r) }
    {
        let x = row[r];
        if x == 0.0 {
            return;
        }
        self.side[r] -= gw * d * x;
        self.add_scaled(r * k, row, k, gw * x);
    }

    // All labels of the window.
    fn add_labels(&mut self, row: &[f64; 16], k: usize, gw: f64, d: f64)
        requires { k ≤ 16 }
        ensures table { self.new.table ≡ fill_at 0 (cell_added row.now k gw self.old.table) (k * k) self.old.table }
        ensures side { self.new.side ≡ fill_at 0 (side_added row.now k gw d self.old.side) k self.old.side }
    {
        for r in 0..k {
            self.add_label(row, r, k, gw, d);
        }
    }

    // Window a, of label now s, smoothed weight g and variance v: nothing where its weight is zero.
    fn add_window(
        &mut self,
        phis: &[f64; 112],
        a: usize,
        s: usize,
        sizes: Sizes,
        g: f64,
        v: f64,
        d: f64,
    )
        requires { (s < sizes.k) × (s ≡ a % sizes.k) }
        ensures table { self.new.table ≡ fill_at 0 (cell_seen (sensitivities_of sizes.k sizes.order phis.now a) sizes.k v g self.old.table) (sizes.k * sizes.k) self.old.table }
        ensures side { self.new.side ≡ fill_at 0 (side_seen (sensitivities_of sizes.k sizes.order phis.now a) sizes.k v g d self.old.side) sizes.k self.old.side }
    {
        if g == 0.0 {
            return;
        }
        let mut row = [0.0; 16];
        sensitivities(&mut row, phis, a, s, sizes);
        self.add_labels(&row, sizes.k, g / v, d);
    }

    // One row more. The variances are by label.
    fn add_row(&mut self, phis: &[f64; 112], variances: &[f64; 16], smoothed: &Smoothed, row: Row)
        requires row_lt_rows { row.0 < smoothed.now.rows }
        requires summed { RowsSummed smoothed.now phis.now variances.now row.0 self.old }
        ensures { RowsSummed smoothed.now phis.now variances.now (suc row.0) self.new }
    {
        let ds = less_lags_by_label(phis, smoothed, row);
        let mut s = 0;
        for (a, g) in smoothed.weights(row).iter().enumerate() {
            self.add_window(phis, a, s, smoothed.sizes, *g, variances[s], ds[s]);
            s = window::next_label(s, smoothed.sizes.k);
        }
    }
}

// The new means; 21 with place 1 where their equations are singular.
pub fn new_means(q: &MsarParams, smoothed: &Smoothed) -> Result<[f64; 16], Refusal>
    requires { (smoothed.now.sizes.k ≡ k q.now) × (smoothed.now.sizes.order ≡ p q.now) }
    ensures { result ≡ new_means q.now smoothed.now.y.now smoothed.now.rows (rows_in q.now smoothed.now.work.now) }
{
    let k = q.means_count;
    let phis = density::phis(q);
    let variances = density::variances(&q.variances, q.variances_count, k);
    let mut equations = Equations {
        table: [0.0; 256],
        side: [0.0; 16],
    };
    for i in 0..smoothed.rows {
        equations.add_row(&phis, &variances, smoothed, Row(i));
    }
    em_ridge::solve_or_keep(equations.table, equations.side, k, q.means, 1)
}
