// The predictions of the windows, row by row. A step's probability does not change along the series: it stands in a
// table by window. The sum over predecessors is made once for the k windows that share it. At order zero by rule 2 the
// label before is summed over in place of that.
#![tactic(auto)]

ghost use Rattle.std.specs.Prelude.{◌≡◌, suc, ◌+◌, ◌*◌, ◌^◌, ◌<◌, ◌≤◌, length, replicate};
ghost use Rattle.number.specs.Number.{◌⊗◌, zero⁺};
ghost use Rattle.number.specs.Table.{◌!◌, fill_at};
ghost use Rattle.params.specs.declared.MsarParams.{MsarParams};
ghost use Rattle.params.specs.Parameters.{k, p};
ghost use Rattle.prediction.specs.Prediction.{rule_of, mixes};
ghost use Rattle.prediction.specs.Steps.{first_at, step_at, sum_before, stepped_at, mixed_at, later_at};

use params::MsarParams;
use window::Sizes;

// How the label before is taken at order zero, where it is none of the window's: label 0 stands for it, as in the Rust, or
// it is summed over, as in the literature. From order one up the two are the same.
#[derive(Clone, Copy)]
pub enum Rule {
    One,
    Two,
}

// The rule with this number, which C hands in and the calls have found to be 1 or 2.
pub fn rule_of(number: usize) -> Rule
    requires { (1 ≤ number) × (number ≤ 2) }
    ensures { result ≡ rule_of number }
{
    if number == 2 {
        return Rule::Two;
    }
    Rule::One
}

// Whether the label before is summed over.
fn mixes(rule: Rule, order: usize) -> bool
    ensures { result ≡ mixes rule order }
{
    match rule {
        Rule::One => false,
        Rule::Two => order == 0,
    }
}

// The first prediction of window a: the share of its oldest label, times the steps from there to its newest.
fn first_of(q: &MsarParams, shares: &[f64; 16], sizes: Sizes, a: usize) -> f64
    requires { (sizes.k ≡ k q.now) × (sizes.order ≡ p q.now) × (a < sizes.windows) }
    ensures { result ≡ first_at q.now shares.now a }
{
    let k = sizes.k;
    let oldest = window::label(a, sizes.order, k, sizes.order);
    let mut acc = shares[oldest];
    // what is left of a: a step drops the newest label
    let mut rest = a;
    for _ in 0..sizes.order {
        let now = rest % k;
        rest = rest / k;
        let before = rest % k;
        acc = acc * q.transition[now * k + before];
    }
    acc
}

// The first row of predictions.
pub fn first_row(q: &MsarParams, shares: &[f64; 16], sizes: Sizes, row: &mut [f64; 256])
    requires { (sizes.k ≡ k q.now) × (sizes.order ≡ p q.now) }
    ensures { row.new ≡ fill_at 0 (first_at q.now shares.now) sizes.windows row.old }
{
    for a in 0..sizes.windows {
        row[a] = first_of(q, shares, sizes, a);
    }
}

// P[s_0][s_1] of each window.
pub fn steps(q: &MsarParams, sizes: Sizes) -> [f64; 256]
    requires { (sizes.k ≡ k q.now) × (sizes.order ≡ p q.now) }
    ensures { result ≡ fill_at 0 (step_at q.now) sizes.windows (replicate 256 zero⁺) }
{
    let k = sizes.k;
    let mut row = [0.0; 256];
    for a in 0..sizes.windows {
        let now = a % k;
        // at order 0 this is 0, as rule 1 has it; rule 2 reads no step there
        let before = a / k % k;
        row[a] = q.transition[now * k + before];
    }
    row
}

// The sum of a row over the predecessors of the windows c·k, .., c·k + k - 1.
fn sum_before(previous: &[f64; 256], c: usize, k: usize, power: usize) -> f64
    requires { (c < power) × (k * power ≤ 256) }
    ensures { result ≡ sum_before k power previous.now c }
{
    let mut acc = 0.0;
    for x in 0..k {
        acc = acc + previous[c + x * power];
    }
    acc
}

// k places from `at` on: the step of each window times the sum that they share.
fn step_block(steps: &[f64; 256], sum: f64, at: usize, k: usize, row: &mut [f64; 256])
    requires { at + k ≤ 256 }
    ensures { row.new ≡ fill_at at (λ s. steps.now ! (at + s) ⊗ sum) k row.old }
{
    for s in 0..k {
        row[at + s] = steps[at + s] * sum;
    }
}

// A later row by steps: block by block of the windows that share a sum; power is k^order.
fn stepped_row(
    steps: &[f64; 256],
    previous: &[f64; 256],
    k: usize,
    power: usize,
    row: &mut [f64; 256],
)
    requires { (0 < k) × (k * power ≤ 256) }
    ensures { row.new ≡ fill_at 0 (stepped_at k power steps.now previous.now) (k * power) row.old }
{
    for c in 0..power {
        let sum = sum_before(previous, c, k, power);
        step_block(steps, sum, c * k, k, row);
    }
}

// The label before summed over, for label s now.
fn mixed_of(transition: &[f64; 256], previous: &[f64; 256], s: usize, k: usize) -> f64
    requires { (s < k) × (k ≤ 16) }
    ensures { result ≡ mixed_at k transition.now previous.now s }
{
    let mut acc = 0.0;
    // an index: it is the label before, in the table and in the row
    for x in 0..k {
        acc = acc + transition[s * k + x] * previous[x];
    }
    acc
}

// The same for each label.
fn mixed_row(transition: &[f64; 256], previous: &[f64; 256], k: usize, row: &mut [f64; 256])
    requires { k ≤ 16 }
    ensures { row.new ≡ fill_at 0 (mixed_at k transition.now previous.now) k row.old }
{
    for s in 0..k {
        row[s] = mixed_of(transition, previous, s, k);
    }
}

// A later row of predictions, from the filtered row before it. It takes k, order and power one by one, as it serves one
// label too, which is no shape of a model.
pub fn later_row(
    rule: Rule,
    order: usize,
    transition: &[f64; 256],
    steps: &[f64; 256],
    previous: &[f64; 256],
    k: usize,
    power: usize,
    row: &mut [f64; 256],
)
    requires { (0 < k) × (k ≤ 16) × (k * power ≤ 256) × (power ≡ k ^ order) }
    ensures { row.new ≡ fill_at 0 (later_at rule order k power transition.now steps.now previous.now) (k * power) row.old }
{
    if mixes(rule, order) {
        mixed_row(transition, previous, k, row);
    } else {
        stepped_row(steps, previous, k, power, row);
    }
}
