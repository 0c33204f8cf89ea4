// The readings of a series in groups from low to high: a label for each, and the means of the groups. Recipe number i says how they are
// split. Ported from oracle/starts/start.py, its parts 1 and 2, operation by operation.
#![tactic(auto)]

ghost use Rattle.std.specs.Prelude.{◌≡◌, ◌≤◌, ◌<◌, length};

mod sizes;
mod sum;

use sizes::Sizes;
pub use sum::Sum;

// Lloyd's rounds, so many whatever moves.
const ROUNDS: usize = 20;

// ---- the series that is split: means over neighbours tell levels apart where the noise of single readings would blur them

// Readings on each side that a local mean takes in; as 5 and 3 have no common factor, i % 5 and i % 3 run through all 15 pairs.
fn half(i: usize) -> usize {
    match i % 3 {
        0 => 2,
        1 => 0,
        _ => 12,
    }
}

// The mean of y from t - half to t + half, as far as there are readings.
fn local_mean(y: &[f64], t: usize, half: usize) -> f64
    requires { t < length y.now }
{
    let end = if half < y.len() - t {
        t + half + 1
    } else {
        y.len()
    };
    Sum::of(&y[t.saturating_sub(half)..end]).mean()
}

fn local_means(y: &[f64], half: usize, z: &mut [f64])
    requires { length y.now ≡ length z.old }
{
    for (t, mean) in z.iter_mut().enumerate() {
        *mean = local_mean(y, t, half);
    }
}

// ---- the labels

// The label of a reading. A split gives labels below k, which nothing proves; so they are held below 16 here.
pub fn label_at(labels: &[usize], t: usize) -> usize
    requires { t < length labels.now }
    ensures { result < 16 }
{
    labels[t].min(15)
}

// How many readings are lower than number t, or equal and earlier. By counting, and no sort; by adding, since the branch of a
// `filter` goes either way here, and cost a fifth more.
fn rank_of(z: &[f64], t: usize) -> usize
    requires { t < length z.now }
{
    let x = z[t];
    let mut rank = 0usize;
    for (u, v) in z.iter().enumerate() {
        rank += usize::from((*v < x) | ((*v == x) & (u < t)));
    }
    rank
}

// How many groups end at or below the rank. The last cut is n, above every rank.
fn label_of_rank(rank: usize, cuts: &[usize]) -> usize {
    cuts.iter().filter(|cut| rank >= **cut).count()
}

fn split_by_rank(z: &[f64], cuts: &[usize], labels: &mut [usize])
    requires { length z.now ≡ length labels.old }
{
    for (t, label) in labels.iter_mut().enumerate() {
        *label = label_of_rank(rank_of(z, t), cuts);
    }
}

// The mean of z over label g, or the old one where no reading has the label.
fn group_mean(z: &[f64], labels: &[usize], g: usize, old: f64) -> f64 {
    let mut sum = Sum::none();
    for (z, label) in z.iter().zip(labels) {
        if *label == g {
            sum.add(*z);
        }
    }
    if sum.count > 0.0 { sum.mean() } else { old }
}

fn group_means(z: &[f64], labels: &[usize], means: &mut [f64]) {
    for (g, mean) in means.iter_mut().enumerate() {
        *mean = group_mean(z, labels, g, *mean);
    }
}

// How many of the midpoints between neighbouring means are at or below x: the label of the nearest mean.
fn nearest(x: f64, means: &[f64]) -> usize {
    means
        .array_windows::<2>()
        .filter(|pair| x >= 0.5 * (pair[0] + pair[1]))
        .count()
}

fn split_by_means(z: &[f64], means: &[f64], labels: &mut [usize]) {
    for (label, z) in labels.iter_mut().zip(z) {
        *label = nearest(*z, means);
    }
}

// Lloyd's rounds to the k means of z, from the means of a split. The means stay in rising order.
fn lloyd(z: &[f64], means: &mut [f64], labels: &mut [usize]) {
    for _ in 0..ROUNDS {
        split_by_means(z, means, labels);
        group_means(z, labels, means);
    }
}

// The labels of recipe i, and the means of the groups.
pub fn split(y: &[f64], k: usize, i: usize, labels: &mut [usize]) -> [f64; 16]
    requires { (length y.now ≤ 4096) × (k ≤ 16) × (length y.now ≤ length labels.old) }
{
    let n = y.len();
    let labels = &mut labels[..n];
    let mut z = [0.0; 4096];
    let z = &mut z[..n];
    let mut means = [0.0; 16];
    local_means(y, half(i), z);
    let sizes = Sizes::of(i, n, k);
    let cuts = sizes.cuts();
    split_by_rank(z, &cuts[..k], labels);
    group_means(z, labels, &mut means[..k]);
    if sizes.is_even() {
        lloyd(z, &mut means[..k], labels);
    }
    means
}
