// Rows of window weights in lent memory: storing and clearing them, and the probabilities of the labels.
#![tactic(auto)]

ghost use Rattle.std.specs.Prelude.{◌≡◌, ◌+◌, ◌*◌, ◌<◌, ◌≤◌, length, drop};
ghost use Rattle.number.specs.Number.{zero⁺};
ghost use Rattle.number.specs.Table.{fill_at};
ghost use Rattle.rows.specs.Steps.{label_sum, label_sum_at, stored};

pub mod smoothed;

pub use smoothed::Smoothed;

// A row, as row j of the `kept` rows of m places that have room; behind them it is not kept.
pub fn store(row: &[f64; 256], m: usize, j: usize, kept: usize, work: &mut [f64])
    requires { (m ≤ 256) × (kept * m ≤ length work.old) }
    ensures { work.new ≡ stored m kept j row.now work.old }
{
    if kept <= j {
        return;
    }
    number::copy(row, m, work, j * m);
}

// +0 in the first n places.
pub fn clear(work: &mut [f64], n: usize)
    requires { n ≤ length work.old }
    ensures { work.new ≡ fill_at 0 (λ _. zero⁺) n work.old }
{
    work[..n].fill(0.0);
}

// The probability of label i now, of the row that stands first in memory; power is k^order.
fn label_sum(work: &[f64], i: usize, k: usize, power: usize) -> f64
    requires { (i < k) × (power * k ≤ length work.now) }
    ensures { result ≡ label_sum k power work.now i }
{
    let mut acc = 0.0;
    for j in 0..power {
        acc = acc + work[i + j * k];
    }
    acc
}

// The probabilities of the k labels of that row, to the places of the table from `at` on.
fn label_sums(work: &[f64], k: usize, power: usize, table: &mut [f64], at: usize)
    requires { (power * k ≤ length work.now) × (at + k ≤ length table.old) }
    ensures { table.new ≡ fill_at at (label_sum k power work.now) k table.old }
{
    for i in 0..k {
        table[at + i] = label_sum(work, i, k, power);
    }
}

// The table of results: the probabilities of the labels of n rows of m windows.
pub fn tabulate(work: &[f64], k: usize, power: usize, m: usize, n: usize, table: &mut [f64])
    requires { (0 < k) × (power * k ≡ m) × (n * m ≤ length work.now) × (n * k ≤ length table.old) }
    ensures { table.new ≡ fill_at 0 (label_sum_at k power m work.now) (n * k) table.old }
{
    for i in 0..n {
        label_sums(&work[i * m..], k, power, table, i * k);
    }
}
