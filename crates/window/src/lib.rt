// Windows of labels by their numbers; row numbers and times, kept apart.
#![tactic(auto)]

ghost use Rattle.std.specs.Prelude.{◌≡◌, ℕ, suc, ◌+◌, ◌%◌, ◌^◌, ◌<◌, ◌≤◌};
ghost use Rattle.window.specs.Windows.{label, labels, number, predecessor, successor};
ghost use Rattle.window.specs.Shape.{WindowNumber};
ghost use Rattle.window.specs.Time.{time_of};

pub mod sizes;

pub use sizes::Sizes;

// The number of a row of results.
#[derive(Clone, Copy)]
pub struct Row(pub usize);

// The place of a reading in the series.
#[derive(Clone, Copy)]
pub struct Time(pub usize);

pub fn time_of(row: Row, order: usize) -> Time
    requires { (row.0 ≤ 4096) × (order ≤ 7) }
    ensures { result ≡ time_of order row }
{
    Time(order + row.0)
}

// The label l readings ago of window a, and 0 one past its oldest: l divisions by k drop the labels since then.
// Here and below the order stands for the contract, which speaks of a's order + 1 labels.
pub fn label(a: usize, l: usize, k: usize, order: usize) -> usize
    requires window_number { WindowNumber k order a }
    requires l_bound { l ≤ suc order }
    ensures { result ≡ label (labels k (suc order) a) l }
{
    let mut rest = a;
    for _ in 0..l {
        rest = rest / k;
    }
    rest % k
}

// The label now of the window that follows window a in number, where a's is s: labels now run round.
pub fn next_label(s: usize, k: usize) -> usize
    requires { (s < k) × (k ≤ 16) }
    ensures { (a : ℕ) → s ≡ a % k → result ≡ (a + 1) % k }
{
    if s + 1 == k {
        return 0;
    }
    s + 1
}

// The window before a, with oldest label x; power is k^order.
pub fn predecessor(a: usize, x: usize, k: usize, order: usize, power: usize) -> usize
    requires window_number { WindowNumber k order a }
    requires x_lt_k { (x < k) × (power ≡ k ^ order) }
    ensures { result ≡ number k (predecessor (labels k (suc order) a) x) }
{
    a / k + x * power
}

// The window after a, with label r now; power is k^order.
pub fn successor(a: usize, r: usize, k: usize, order: usize, power: usize) -> usize
    requires window_number { WindowNumber k order a }
    requires r_lt_k { (r < k) × (power ≡ k ^ order) }
    ensures { result ≡ number k (successor order (labels k (suc order) a) r) }
{
    // all labels of a but the oldest
    let kept = a % power;
    r + kept * k
}
