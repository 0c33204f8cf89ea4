// The regimes of fitted parameters, put in the order in which the means of the start stood: EM may bring a regime to another's place.
ghost use Rattle.std.specs.Prelude.{◌*◌, ◌≤◌};

use msar_out::{entry, row_start};
use params::MsarParams;
use std::cmp::Ordering;

// ---- ranks

// The numbers of k regimes by their means, from the lowest; of equal means the earlier first.
fn by_mean(means: &[f64; 16], k: usize) -> [usize; 16]
    requires { k ≤ 16 }
{
    let mut regimes = [0, 1, 2, 3, 4, 5, 6, 7, 8, 9, 10, 11, 12, 13, 14, 15];
    regimes[..k].sort_unstable_by(|i, j| {
        let a = entry(means, *i);
        let b = entry(means, *j);
        a.partial_cmp(&b).unwrap_or(Ordering::Equal).then(i.cmp(j))
    });
    regimes
}

// Whether two of k means are equal, so that they have no order.
fn has_tie(means: &[f64; 16], k: usize) -> bool {
    (0..k).any(|i| (0..i).any(|j| entry(means, i) == entry(means, j)))
}

// For each regime of the start the one reached that has its rank.
fn sources(start: &[f64; 16], reached: &[f64; 16], k: usize) -> [usize; 16]
    requires { k ≤ 16 }
{
    let before = by_mean(start, k);
    let after = by_mean(reached, k);
    let mut from = [0; 16];
    for (regime, source) in before.iter().zip(&after).take(k) {
        if let Some(place) = from.get_mut(*regime) {
            *place = *source;
        }
    }
    from
}

fn is_moved(from: &[usize; 16], k: usize) -> bool {
    from.iter()
        .take(k)
        .enumerate()
        .any(|(i, source)| *source != i)
}

// ---- parameters

// Of n numbers from a place on those with the numbers in `from`.
fn picked(values: &[f64], at: usize, from: [usize; 16], n: usize) -> [f64; 16]
    requires { (at ≤ 65536) × (n ≤ 16) }
{
    let mut row = [0.0; 16];
    for (place, source) in row[..n].iter_mut().zip(&from) {
        *place = entry(values, at + (*source).min(15));
    }
    row
}

// Places that stay as they are.
const IN_TURN: [usize; 16] = [0, 1, 2, 3, 4, 5, 6, 7, 8, 9, 10, 11, 12, 13, 14, 15];

// k rows of n numbers, the rows moved and in each the columns: of the transition table, and of each regime's own coefficients.
fn moved<const N: usize>(
    old: &[f64],
    from: [usize; 16],
    columns: [usize; 16],
    k: usize,
    n: usize,
) -> [f64; N]
    requires { (k ≤ 16) × (n ≤ 16) × (16 * n ≤ N) }
{
    let mut table = [0.0; N];
    // an index, not enumerate(): of its number the check knows no bound, which with_row asks
    for i in 0..k {
        let source = row_start(from[i].min(15), n);
        let row = picked(old, source, columns, n);
        let grown = text_model_line::with_row(table, i, n, row);
        table = grown;
    }
    table
}

// One block for all regimes stays, and so does one variance.
fn rearranged(q: MsarParams, from: [usize; 16], k: usize) -> MsarParams
    requires { k ≤ 16 }
{
    let mut next = q;
    next.means = picked(&q.means, 0, from, k);
    next.transition = moved(&q.transition, from, from, k, k);
    if q.ar_blocks == k {
        next.ar = moved(&q.ar, from, IN_TURN, k, q.order.min(7));
    }
    if q.variances_count == k {
        next.variances = picked(&q.variances, 0, from, k);
    }
    next
}

// The parameters reached, in the order of the start's means, where they stood in another one and these are all different: regimes of equal
// means differ in something else.
pub fn as_in(start: MsarParams, reached: MsarParams) -> Option<MsarParams> {
    let k = reached.means_count.min(16);
    let from = sources(&start.means, &reached.means, k);
    if has_tie(&start.means, k) | !is_moved(&from, k) {
        return None;
    }
    Some(rearranged(reached, from, k))
}
