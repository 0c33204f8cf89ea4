// What the command `msar verdict` says of a regime. Rows, labels and places of the smoothed table count from 0.
#![tactic(auto)]

ghost use Rattle.std.specs.Prelude.{◌≡◌};
ghost use Rattle.msar_verdict.specs.Verdict.{at, share_of, run_of, last_of, needed_of, verdict_of, finding_of};

#[derive(Clone, Copy, PartialEq, Eq)]
pub enum Verdict {
    No,
    NotSettled,
    Settled,
}

// The verdict and what it rests on: the run, how many readings a run needs, the row with which the run begins, the probability at the end.
#[derive(Clone, Copy)]
pub struct Finding {
    pub verdict: Verdict,
    pub run: usize,
    pub needed: usize,
    pub since: usize,
    pub share: f64,
}

// ---- the run

// Beyond the table +0.
fn entry(table: &[f64], e: usize) -> f64
    ensures { result ≡ at table.now e }
{
    table.get(e).copied().unwrap_or(0.0)
}

// The probability of label r in a row, for numbers of any size: what would wrap lies beyond the table.
fn share(table: &[f64], row: usize, k: usize, r: usize) -> f64
    ensures { result ≡ share_of table.now k r row }
{
    let Some(from) = row.checked_mul(k) else {
        return 0.0;
    };
    let Some(e) = from.checked_add(r) else {
        return 0.0;
    };
    entry(table, e)
}

// The run of label r, counted from the last row back to the first that is not above one half. A loop, as the count is both what
// is tested and what is answered.
pub fn run(table: &[f64], n: usize, k: usize, r: usize) -> usize
    ensures { result ≡ run_of table.now k r n }
{
    for count in 0..n {
        if !(share(table, n - 1 - count, k, r) > 0.5) {
            return count;
        }
    }
    n
}

// The probability at the end.
#[tactic(auto, using(crate::proofs::Places::no_row, crate::proofs::Places::last_row))]
fn last(table: &[f64], n: usize, k: usize, r: usize) -> f64
    ensures { result ≡ last_of table.now k r n }
{
    if n == 0 {
        return 0.0;
    }
    share(table, n - 1, k, r)
}

// ---- the verdict

// How many readings a run of a regime needs to be settled.
pub fn needed(duration: f64) -> usize
    ensures { result ≡ needed_of duration }
{
    let three_durations = 3.0 * duration;
    for m in 3..30 {
        if three_durations <= number::of_whole(m as u64) {
            return m;
        }
    }
    30
}

#[tactic(auto, unfolding(crate::specs::Verdict::verdict_of))]
fn verdict_of(run: usize, needed: usize) -> Verdict
    ensures { result ≡ verdict_of run needed }
{
    if run == 0 {
        return Verdict::No;
    }
    if needed <= run {
        return Verdict::Settled;
    }
    Verdict::NotSettled
}

// Of regime r, from the smoothed table of n rows of k probabilities and the regime's expected duration.
pub fn of_regime(table: &[f64], n: usize, k: usize, r: usize, duration: f64) -> Finding
    ensures { result ≡ finding_of table.now n k r duration }
{
    let count = run(table, n, k, r);
    let readings = needed(duration);
    Finding {
        verdict: verdict_of(count, readings),
        run: count,
        needed: readings,
        since: n - count,
        share: last(table, n, k, r),
    }
}
