// The new AR coefficients of an EM step. One walk over rows and windows makes the normal equations of all blocks: block
// b's table stands from place b·p·p on, its right-hand side from b·p on. The distance of a reading to a mean depends on
// its lag and label alone: the distances are made once a row, and each window reads those of its labels.
#![tactic(auto)]

ghost use Rattle.std.specs.Prelude.{◌≡◌, suc, ◌+◌, ◌*◌, ◌<◌, ◌≤◌, length, replicate, if◌then◌else◌};
ghost use Rattle.std.specs.Float.Ieee.{ne};
ghost use Rattle.number.specs.Number.{◌⊕◌, ◌⊗◌, ◌⊘◌, zero⁺};
ghost use Rattle.number.specs.Table.{◌!◌, fill_at};
ghost use Rattle.window.specs.Time.{time_of};
ghost use Rattle.params.specs.Parameters.{k, p};
ghost use Rattle.rows.specs.Smoothed.{rows_in};
ghost use Rattle.em_coefficients.specs.Coefficients.{blocks_of, new_ar};
ghost use Rattle.em_coefficients.specs.Steps.{distance_by, distance_of, table_term, side_term, added_to, RowsSummed, block_from};

use params::MsarParams;
use refusal::Refusal;
use rows::Smoothed;
use window::{Row, Sizes};

// ---- distances

// The distances by lag and label for the reading of a row: place l·k + s is that of label s at lag l.
fn distances_at(means: &[f64; 16], smoothed: &Smoothed, row: Row, distances: &mut [f64; 128])
    requires { row.0 < smoothed.now.rows }
    ensures { distances.new ≡ fill_at 0 (distance_by smoothed.now.sizes.k smoothed.now.y.now (time_of smoothed.now.sizes.order row) means.now) (suc smoothed.now.sizes.order * smoothed.now.sizes.k) distances.old }
{
    let k = smoothed.sizes.k;
    let at = smoothed.time_of(row).0;
    let end = (smoothed.sizes.order + 1) * k;
    for e in 0..end {
        distances[e] = smoothed.y[at - e / k] - means[e % k];
    }
}

// x_0, .., x_order of window a, by its labels in turn.
fn distances_of(distances: &[f64; 128], a: usize, sizes: Sizes) -> [f64; 8]
    ensures { result ≡ fill_at 0 (distance_of sizes.k sizes.order distances.now a) (sizes.order + 1) (replicate 8 zero⁺) }
{
    let k = sizes.k;
    let mut x = [0.0; 8];
    let mut rest = a;
    for l in 0..sizes.order + 1 {
        x[l] = distances[l * k + rest % k];
        rest = rest / k;
    }
    x
}

// ---- the sums

// One row of a table, from `at` on.
fn add_products(tables: &mut [f64; 784], at: usize, order: usize, f: f64, x: &[f64; 8])
    requires { (order ≤ 7) × (at + order ≤ 784) }
    ensures { tables.new ≡ fill_at at (λ c. tables.old ! (at + c) ⊕ f ⊗ x.now ! (c + 1)) order tables.old }
{
    for c in 0..order {
        tables[at + c] += f * x[c + 1];
    }
}

// The normal equations of all blocks.
#[derive(Clone, Copy)]
struct Equations {
    tables: [f64; 784],
    sides: [f64; 112],
}

impl Equations {
    // A window of weight w and distances x, for block b.
    fn add(&mut self, b: usize, order: usize, w: f64, x: &[f64; 8])
        requires { (order ≤ 7) × (b < 16) }
        ensures tables { self.new.tables ≡ added_to b (order * order) (table_term order w (λ l. x.now ! l)) self.old.tables }
        ensures sides { self.new.sides ≡ added_to b order (side_term w (λ l. x.now ! l)) self.old.sides }
    {
        let table = b * (order * order);
        let side = b * order;
        for l in 0..order {
            let f = w * x[l + 1];
            self.sides[side + l] += f * x[0];
            add_products(&mut self.tables, table + l * order, order, f, x);
        }
    }

    // Window a, of smoothed weight g, for block b; a weight equal to zero is skipped.
    fn weigh(
        &mut self,
        g: f64,
        a: usize,
        b: usize,
        variance: f64,
        distances: &[f64; 128],
        sizes: Sizes,
    )
        requires { b < 16 }
        ensures tables { self.new.tables ≡ (if ne g zero⁺ then added_to b (sizes.order * sizes.order) (table_term sizes.order (g ⊘ variance) (distance_of sizes.k sizes.order distances.now a)) self.old.tables else self.old.tables) }
        ensures sides { self.new.sides ≡ (if ne g zero⁺ then added_to b sizes.order (side_term (g ⊘ variance) (distance_of sizes.k sizes.order distances.now a)) self.old.sides else self.old.sides) }
    {
        if g != 0.0 {
            let x = distances_of(distances, a, sizes);
            self.add(b, sizes.order, g / variance, &x);
        }
    }

    // One row more. The variances are by label.
    fn add_row(
        &mut self,
        q: &MsarParams,
        variances: &[f64; 16],
        smoothed: &Smoothed,
        row: Row,
        distances: &mut [f64; 128],
    )
        requires row_lt_rows { (row.0 < smoothed.now.rows) × (0 < smoothed.now.sizes.order) }
        requires summed { RowsSummed q.now variances.now smoothed.now row.0 self.old }
        ensures { RowsSummed q.now variances.now smoothed.now (suc row.0) self.new }
    {
        let sizes = smoothed.sizes;
        distances_at(&q.means, smoothed, row, distances);
        let mut s = 0;
        for (a, g) in smoothed.weights(row).iter().enumerate() {
            let b = density::block_of(q.ar_blocks, s);
            self.weigh(*g, a, b, variances[s], distances, sizes);
            s = window::next_label(s, sizes.k);
        }
    }

    // All blocks in order, up to the first that is refused; its refusal names the place 2.
    fn solve(&self, q: &MsarParams) -> Result<[f64; 112], Refusal>
        requires { (0 < p q.now) × (p q.now ≤ 7) × (q.now.ar_blocks ≤ 16) }
        ensures { result ≡ blocks_of (p q.now) q.now.ar_blocks (block_from (p q.now) self.now.tables self.now.sides q.now.ar) q.now.ar }
    {
        let order = q.order;
        let mut ar = q.ar;
        for b in 0..q.ar_blocks {
            let table = part_at(&self.tables, b * (order * order), order * order);
            let side = part_at(&self.sides, b * order, order);
            let incumbent = part_at(&q.ar, b * order, order);
            let values = em_ridge::solve_or_keep(table, side, order, incumbent, 2)?;
            number::copy(&values, order, &mut ar, b * order);
        }
        Ok(ar)
    }
}

// The n places of a block that stand from `at` on; behind them +0.
fn part_at<const N: usize>(parts: &[f64], at: usize, n: usize) -> [f64; N]
    requires { (at + n ≤ length parts.now) × (n ≤ N) }
    ensures { result ≡ fill_at 0 (λ e. parts.now ! (at + e)) n (replicate N zero⁺) }
{
    let mut part = [0.0; N];
    number::copy(&parts[at..], n, &mut part, 0);
    part
}

// The new coefficients by the smoothed rows.
pub fn new_ar(q: &MsarParams, smoothed: &Smoothed) -> Result<[f64; 112], Refusal>
    requires sizes { (smoothed.now.sizes.k ≡ k q.now) × (smoothed.now.sizes.order ≡ p q.now) }
    requires blocks { (0 < p q.now) × (q.now.ar_blocks ≤ 16) }
    ensures { result ≡ new_ar q.now smoothed.now.y.now smoothed.now.rows (rows_in q.now smoothed.now.work.now) }
{
    let variances = density::variances(&q.variances, q.variances_count, smoothed.sizes.k);
    let mut distances = [0.0; 128];
    let mut equations = Equations {
        tables: [0.0; 784],
        sides: [0.0; 112],
    };
    for i in 0..smoothed.rows {
        equations.add_row(q, &variances, smoothed, Row(i), &mut distances);
    }
    equations.solve(q)
}
