// The filter over the rows of a series, in lent memory. What does not change along the series is made once, as tables.
#![tactic(auto)]

ghost use Rattle.std.specs.Prelude.{◌≡◌, suc, ◌+◌, ◌*◌, ◌^◌, ◌<◌, ◌≤◌, length, drop, replicate, Float};
ghost use Rattle.number.specs.Number.{◌⊘◌, zero⁺};
ghost use Rattle.number.specs.Table.{◌!◌, fill_at};
ghost use Rattle.refusal.specs.Checks.{Passed, check_of, each};
ghost use Rattle.params.specs.Parameters.{k, p};
ghost use Rattle.rows.specs.Steps.{stored};
ghost use Rattle.prediction.specs.Steps.{later_at, step_at};
ghost use Rattle.filter.specs.Filter.{likelihood_check, loglik_to, answer_after, filter_answer};
ghost use Rattle.filter.specs.Steps.{Scales, Weighed, Held};
ghost use Rattle.stationary.specs.Stationary.{values_of};

use params::MsarParams;
use prediction::Rule;
use refusal::Refusal;
use window::{Row, Sizes};

// What is made once a call: the coefficients by lag and label, what densities are made of, the steps.
#[derive(Clone, Copy)]
struct Tables {
    phis: [f64; 112],
    scales: density::Scales,
    steps: [f64; 256],
}

// The weights of the windows at row i, and the likelihood of its reading.
fn weigh_row(
    q: &MsarParams,
    tables: &Tables,
    sizes: Sizes,
    predicted: &[f64; 256],
    y: &[f64],
    row: Row,
    centres: &mut [f64; 256],
    weights: &mut [f64; 256],
) -> f64
    requires row { (sizes.order + row.0 < length y.now) × (length y.now ≤ 4096) }
    requires scales { Scales q.now sizes.k sizes.order sizes.windows q.now.means tables.now.phis tables.now.scales.deviations tables.now.scales.logarithms }
    ensures { Weighed q.now y.now sizes.windows row.0 predicted.now weights.new result }
{
    let t = window::time_of(row, sizes.order);
    density::means_row(&q.means, &tables.phis, sizes, y, t, centres);
    density::weigh(
        y[t.0],
        centres,
        &tables.scales,
        predicted,
        sizes.windows,
        weights,
    )
}

// Each of the first m places divided by the likelihood.
pub fn divide(weights: &mut [f64; 256], likelihood: f64, m: usize)
    requires { m ≤ 256 }
    ensures { weights.new ≡ fill_at 0 (λ a. weights.old ! a ⊘ likelihood) m weights.old }
{
    for a in 0..m {
        weights[a] = weights[a] / likelihood;
    }
}

// Filtered and predicted weights of row i of n, to work memory: the filtered rows are the first n there, the predicted
// ones the next n, and the first `kept` of all these are kept.
fn keep(
    predicted: &[f64; 256],
    filtered: &[f64; 256],
    n: usize,
    m: usize,
    i: usize,
    kept: usize,
    work: &mut [f64],
)
    requires { (m ≤ 256) × (i < n) × (n ≤ 4096) × (kept * m ≤ length work.old) }
    ensures { work.new ≡ stored m kept (n + i) predicted.now (stored m kept i filtered.now work.old) }
{
    rows::store(filtered, m, i, kept, work);
    rows::store(predicted, m, n + i, kept, work);
}

// Row i is done: its weights are divided, kept with its prediction as far as `kept` says, and give the next prediction.
fn advance(
    rule: Rule,
    q: &MsarParams,
    steps: &[f64; 256],
    sizes: Sizes,
    likelihood: f64,
    i: usize,
    n: usize,
    kept: usize,
    predicted: &mut [f64; 256],
    weights: &mut [f64; 256],
    work: &mut [f64],
)
    requires sizes { (sizes.k ≡ k q.now) × (sizes.order ≡ p q.now) }
    requires rows { (i < n) × (n ≤ 4096) × (kept * sizes.windows ≤ length work.old) }
    ensures weights { weights.new ≡ fill_at 0 (λ a. weights.old ! a ⊘ likelihood) sizes.windows weights.old }
    ensures predicted { predicted.new ≡ fill_at 0 (later_at rule (p q.now) (k q.now) sizes.power q.now.transition steps.now weights.new) sizes.windows predicted.old }
    ensures work { work.new ≡ stored sizes.windows kept (n + i) predicted.old (stored sizes.windows kept i weights.new work.old) }
{
    divide(weights, likelihood, sizes.windows);
    keep(predicted, weights, n, sizes.windows, i, kept, work);
    prediction::later_row(
        rule,
        q.order,
        &q.transition,
        steps,
        weights,
        q.means_count,
        sizes.power,
        predicted,
    );
}

// The rows, one after another: 23 at the first whose likelihood is not finite or not above zero.
fn each_row(
    rule: Rule,
    q: &MsarParams,
    shares: &[f64; 16],
    tables: &Tables,
    sizes: Sizes,
    y: &[f64],
    n: usize,
    kept: usize,
    work: &mut [f64],
) -> Result<f64, Refusal>
    requires sizes { (sizes.k ≡ k q.now) × (sizes.order ≡ p q.now) }
    requires rows { (p q.now + n ≡ length y.now) × (length y.now ≤ 4096) × (kept * sizes.windows ≤ length work.old) }
    requires steps { tables.now.steps ≡ fill_at 0 (step_at q.now) sizes.windows (replicate 256 zero⁺) }
    requires scales { Scales q.now sizes.k sizes.order sizes.windows q.now.means tables.now.phis tables.now.scales.deviations tables.now.scales.logarithms }
    ensures answer { result ≡ answer_after (each n (likelihood_check rule q.now y.now shares.now)) (loglik_to rule q.now y.now shares.now n) }
    ensures same { (length work.new ≡ length work.old) × (drop (kept * sizes.windows) work.new ≡ drop (kept * sizes.windows) work.old) }
    ensures rows { check_of result ≡ Passed → Held rule q.now y.now shares.now n sizes.windows kept n work.new }
{
    let mut predicted = [0.0; 256];
    prediction::first_row(q, shares, sizes, &mut predicted);
    let mut means = [0.0; 256];
    let mut weights = [0.0; 256];
    let mut loglik = 0.0;
    for i in 0..n {
        let likelihood = weigh_row(
            q,
            tables,
            sizes,
            &predicted,
            y,
            Row(i),
            &mut means,
            &mut weights,
        );
        if !number::is_usable(likelihood) {
            return Err(Refusal::Likelihood(i));
        }
        loglik = loglik + logarithm::log(likelihood);
        advance(
            rule,
            q,
            &tables.steps,
            sizes,
            likelihood,
            i,
            n,
            kept,
            &mut predicted,
            &mut weights,
            work,
        );
    }
    Ok(loglik)
}

// The filter of a series from its start shares, by the rule: their refusal, else the rows. n is the count of rows. It keeps
// the first `kept` of the n filtered and the n predicted rows: none, n, or all 2 · n.
pub fn run(
    rule: Rule,
    q: &MsarParams,
    start: Result<[f64; 16], Refusal>,
    sizes: Sizes,
    y: &[f64],
    n: usize,
    kept: usize,
    work: &mut [f64],
) -> Result<f64, Refusal>
    requires sizes { (sizes.k ≡ k q.now) × (sizes.order ≡ p q.now) }
    requires rows { (p q.now + n ≡ length y.now) × (length y.now ≤ 4096) × (kept * sizes.windows ≤ length work.old) }
    ensures answer { result ≡ filter_answer rule q.now y.now start }
    ensures same { (length work.new ≡ length work.old) × (drop (kept * sizes.windows) work.new ≡ drop (kept * sizes.windows) work.old) }
    ensures rows { check_of result ≡ Passed → Held rule q.now y.now (values_of start) n sizes.windows kept n work.new }
{
    let shares = start?;
    let tables = Tables {
        phis: density::phis(q),
        scales: density::Scales::of(q, sizes.windows),
        steps: prediction::steps(q, sizes),
    };
    each_row(rule, q, &shares, &tables, sizes, y, n, kept, work)
}
