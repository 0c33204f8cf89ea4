// The new transition table, by the smoothed rows in work memory.
#![tactic(auto)]

ghost use Rattle.std.specs.Prelude.{◌≡◌, ℕ, ◌+◌, ◌*◌, ◌%◌, ◌<◌, ◌≤◌, length, replicate};
ghost use Rattle.number.specs.Number.{zero⁺};
ghost use Rattle.number.specs.Table.{fill_at};
ghost use Rattle.em_counts.specs.Steps.{Counted, divided_at, transition_by};

// Weights summed by label and the label before, and for each label before.
#[derive(Clone, Copy)]
struct Counts {
    cells: [f64; 256],
    columns: [f64; 16],
}

impl Counts {
    // The windows at the places c·k, .., c·k + k - 1: each label now once, after the one label that they have before.
    fn add_block(&mut self, work: &[f64], k: usize, c: usize, before: usize)
        requires k_bound { (k ≤ 16) × (before < k) × (before ≡ c % k) × (c * k + k ≤ length work.now) }
        requires counted { Counted k work.now (c * k) self.old.cells self.old.columns }
        ensures { Counted k work.now (c * k + k) self.new.cells self.new.columns }
    {
        let at = c * k;
        for s in 0..k {
            let w = work[at + s];
            self.cells[s * k + before] += w;
            self.columns[before] += w;
        }
    }

    // The first places, so many blocks of k: labels run round through all rows.
    fn add_blocks(&mut self, work: &[f64], k: usize, blocks: usize)
        requires k_bound { (k ≤ 16) × (0 < k) × (blocks * k ≤ length work.now) }
        requires counted { Counted k work.now 0 self.old.cells self.old.columns }
        ensures { Counted k work.now (blocks * k) self.new.cells self.new.columns }
    {
        let mut before = 0;
        for c in 0..blocks {
            self.add_block(work, k, c, before);
            before = window::next_label(before, k);
        }
    }

    // Cell e, of column j. A NaN sum is not at most zero.
    fn divided(&self, transition: &[f64; 256], e: usize, j: usize) -> f64
        requires { (e < 256) × (j < 16) }
        ensures { (k : ℕ) → j ≡ e % k → result ≡ divided_at k transition.now self.now.cells self.now.columns e }
    {
        if self.columns[j] <= 0.0 {
            return transition[e];
        }
        self.cells[e] / self.columns[j]
    }

    // All cells.
    fn table(&self, transition: &[f64; 256], k: usize) -> [f64; 256]
        requires { (k ≤ 16) × (0 < k) }
        ensures { result ≡ fill_at 0 (divided_at k transition.now self.now.cells self.now.columns) (k * k) (replicate 256 zero⁺) }
    {
        let mut row = [0.0; 256];
        let mut j = 0;
        for e in 0..k * k {
            row[e] = self.divided(transition, e, j);
            j = window::next_label(j, k);
        }
        row
    }
}

// The new table by so many blocks of k smoothed weights in work memory.
pub fn new_transition(transition: &[f64; 256], k: usize, blocks: usize, work: &[f64]) -> [f64; 256]
    requires { (k ≤ 16) × (0 < k) × (blocks * k ≤ length work.now) }
    ensures { result ≡ transition_by k transition.now (blocks * k) work.now }
{
    let mut counts = Counts {
        cells: [0.0; 256],
        columns: [0.0; 16],
    };
    counts.add_blocks(work, k, blocks);
    counts.table(transition, k)
}
