// The model's calls on a series, in lent memory: log-likelihood, filter, smoother. Each binds afresh.
#![tactic(auto)]

ghost use Rattle.std.specs.Prelude.{◌≡◌, List, [], ◌+◌, ◌*◌, ◌<◌, ◌≤◌, length, drop, Float};
ghost use Rattle.number.specs.Table.{fill_at};
ghost use Rattle.params.specs.Parameters.{k, p};
ghost use Rattle.rows.specs.Rows.{result_at};
ghost use Rattle.refusal.specs.Checks.{◌before◌};
ghost use Rattle.prediction.specs.declared.Rule.{Rule};
ghost use Rattle.filter.specs.Steps.{Held};
ghost use Rattle.binding.specs.Binding.{memory_check};
ghost use Rattle.calls.specs.Calls.{run_answer, smoothed_from, cleared, filtered_table, smoothed_table, Outcome, loglike_call, filter_call, smooth_call};

use binding::Bound;
use params::MsarParams;
use prediction::{Rule, rule_of};
use refusal::Refusal;
use spec::MsarSpec;
use window::Sizes;

// ---- after the checks: n rows

// The smoothed rows, in the place of the filtered ones, and their table.
pub fn smooth_rows(q: &MsarParams, sizes: Sizes, n: usize, work: &mut [f64], table: &mut [f64])
    requires sizes { (sizes.k ≡ k q.now) × (sizes.order ≡ p q.now) }
    requires rows { (0 < n) × (2 * (n * sizes.windows) ≤ length work.old) × (n * k q.now ≤ length table.old) }
    ensures same { (length work.new ≡ length work.old) × (drop (n * sizes.windows) work.new ≡ drop (n * sizes.windows) work.old) }
    ensures table { (rule : Rule) (y shares : List Float) → Held rule q.now y shares n sizes.windows (2 * n) n work.old → table.new ≡ fill_at 0 (result_at (k q.now) (p q.now) (smoothed_from rule q.now y shares n)) (n * k q.now) table.old }
{
    smoother::smooth(q, sizes, n, work);
    rows::tabulate(work, q.means_count, sizes.power, sizes.windows, n, table);
}

// Each of the three runs is a function of its own: one that is told by a closure what to write between the filter and the
// clearing would have to promise every lent table for every closure.
// A run is the start shares and the filter from them by the rule, which keeps the rows that are read later. Work memory is
// cleared after it, refused or not.
fn run_loglike(
    rule: Rule,
    q: &MsarParams,
    sizes: Sizes,
    n: usize,
    y: &[f64],
    work: &mut [f64],
) -> Result<f64, Refusal>
    requires sizes { (sizes.k ≡ k q.now) × (sizes.order ≡ p q.now) }
    requires rows { (p q.now + n ≡ length y.now) × (length y.now ≤ 4096) × (n * sizes.windows + 256 ≤ length work.old) }
    ensures answer { result ≡ run_answer rule q.now y.now }
    ensures work { work.new ≡ cleared (n * sizes.windows + 256) work.old }
{
    let start = stationary::solved_shares(&q.transition, q.means_count);
    let answer = filter::run(rule, q, start, sizes, y, n, 0, work);
    rows::clear(work, n * sizes.windows + 256);
    answer
}

// The table is written where the run was not refused.
fn run_filter(
    rule: Rule,
    q: &MsarParams,
    sizes: Sizes,
    n: usize,
    y: &[f64],
    work: &mut [f64],
    table: &mut [f64],
) -> Result<f64, Refusal>
    requires sizes { (sizes.k ≡ k q.now) × (sizes.order ≡ p q.now) }
    requires rows { (p q.now + n ≡ length y.now) × (length y.now ≤ 4096) × (n * sizes.windows + 256 ≤ length work.old) × (n * k q.now ≤ length table.old) }
    ensures answer { result ≡ run_answer rule q.now y.now }
    ensures work { work.new ≡ cleared (n * sizes.windows + 256) work.old }
    ensures table { table.new ≡ filtered_table rule q.now y.now table.old }
{
    let start = stationary::solved_shares(&q.transition, q.means_count);
    let answer = filter::run(rule, q, start, sizes, y, n, n, work);
    let need = n * sizes.windows + 256;
    match answer {
        Ok(_) => {
            rows::tabulate(work, q.means_count, sizes.power, sizes.windows, n, table);
            rows::clear(work, need);
            answer
        }
        Err(_) => {
            rows::clear(work, need);
            answer
        }
    }
}

// The smoothed rows take the place of the filtered ones, so the filtered table is written first.
fn run_smooth(
    rule: Rule,
    q: &MsarParams,
    sizes: Sizes,
    n: usize,
    y: &[f64],
    work: &mut [f64],
    filtered: &mut [f64],
    smoothed: &mut [f64],
) -> Result<f64, Refusal>
    requires sizes { (sizes.k ≡ k q.now) × (sizes.order ≡ p q.now) }
    requires rows { (p q.now + n ≡ length y.now) × (length y.now ≤ 4096) × (2 * (n * sizes.windows) ≤ length work.old) × (n * k q.now ≤ length filtered.old) × (n * k q.now ≤ length smoothed.old) × (0 < n) }
    ensures answer { result ≡ run_answer rule q.now y.now }
    ensures work { work.new ≡ cleared (2 * (n * sizes.windows)) work.old }
    ensures filtered { filtered.new ≡ filtered_table rule q.now y.now filtered.old }
    ensures smoothed { smoothed.new ≡ smoothed_table rule q.now y.now smoothed.old }
{
    let start = stationary::solved_shares(&q.transition, q.means_count);
    let answer = filter::run(rule, q, start, sizes, y, n, 2 * n, work);
    let need = 2 * (n * sizes.windows);
    match answer {
        Ok(_) => {
            rows::tabulate(work, q.means_count, sizes.power, sizes.windows, n, filtered);
            smooth_rows(q, sizes, n, work, smoothed);
            rows::clear(work, need);
            answer
        }
        Err(_) => {
            rows::clear(work, need);
            answer
        }
    }
}

// ---- the calls

// 7, for work memory, of which `need` places are needed, and one table.
pub fn memory(b: Bound, k: usize, need: usize, work: usize, table: usize) -> Result<(), Refusal>
    requires { b.rows * k ≤ 4096 * 16 }
    ensures { result ≡ (memory_check work need before memory_check table (b.rows * k)) }
{
    binding::memory(work, need)?;
    binding::memory(table, b.rows * k)
}

// The log-likelihood of a series, by the rule with this number.
pub fn loglike(
    s: MsarSpec,
    y: &[f64],
    q: MsarParams,
    rule: usize,
    work: &mut [f64],
) -> Result<f64, Refusal>
    ensures { record { answer = result; work = work.new; filtered = []; smoothed = [] } ≡ loglike_call s y.now q rule work.old }
{
    let b = binding::bind(s, y)?;
    let need = binding::filter_need(b);
    binding::memory(work.len(), need)?;
    binding::asked(rule, s, q)?;
    let sizes = Sizes::of(q.means_count, q.order, b.windows);
    run_loglike(rule_of(rule), &q, sizes, b.rows, y, work)
}

// The log-likelihood, and the probabilities of the labels given the readings so far.
pub fn filter(
    s: MsarSpec,
    y: &[f64],
    q: MsarParams,
    rule: usize,
    work: &mut [f64],
    filtered: &mut [f64],
) -> Result<f64, Refusal>
    ensures { record { answer = result; work = work.new; filtered = filtered.new; smoothed = [] } ≡ filter_call s y.now q rule work.old filtered.old }
{
    let b = binding::bind(s, y)?;
    let need = binding::filter_need(b);
    memory(b, s.k_regimes, need, work.len(), filtered.len())?;
    binding::asked(rule, s, q)?;
    let sizes = Sizes::of(q.means_count, q.order, b.windows);
    run_filter(rule_of(rule), &q, sizes, b.rows, y, work, filtered)
}

// The same, and the probabilities of the labels given all readings.
pub fn smooth(
    s: MsarSpec,
    y: &[f64],
    q: MsarParams,
    rule: usize,
    work: &mut [f64],
    filtered: &mut [f64],
    smoothed: &mut [f64],
) -> Result<f64, Refusal>
    ensures { record { answer = result; work = work.new; filtered = filtered.new; smoothed = smoothed.new } ≡ smooth_call s y.now q rule work.old filtered.old smoothed.old }
{
    let b = binding::bind(s, y)?;
    let need = binding::smooth_need(b);
    memory(b, s.k_regimes, need, work.len(), filtered.len())?;
    binding::memory(smoothed.len(), b.rows * s.k_regimes)?;
    binding::asked(rule, s, q)?;
    let sizes = Sizes::of(q.means_count, q.order, b.windows);
    run_smooth(
        rule_of(rule),
        &q,
        sizes,
        b.rows,
        y,
        work,
        filtered,
        smoothed,
    )
}
