// The transition table of a recipe: counted from the labels, or with a set probability of staying.
ghost use Rattle.std.specs.Prelude.{◌≤◌, ◌<◌};

// The probability of staying, after every 30 recipes another one; None stands for counting.
fn stay(i: usize) -> Option<f64> {
    match i / 30 % 4 {
        0 => None,
        1 => Some(0.9),
        2 => Some(0.5),
        _ => Some(0.99),
    }
}

// How many pairs of neighbouring labels are so, and `initial` of one more.
fn counted<F: Fn(&[usize; 2]) -> bool>(labels: &[usize], initial: f64, is_so: F) -> f64
    requires { F.IsAlwaysCallable is_so }
{
    let mut count = initial;
    for pair in labels.array_windows::<2>() {
        if is_so(pair) {
            count = count + 1.0;
        }
    }
    count
}

// The probability of label i behind label j. Where it is counted, 1/k of a time more, so that none is 0, which EM could never raise, and
// a column without readings is uniform.
fn probability(i: usize, j: usize, stay: Option<f64>, labels: &[usize], k: usize) -> f64
    requires { (i < k) × (j < k) × (k ≤ 16) }
{
    match stay {
        None => {
            let followed = counted(labels, 1.0 / k as f64, |pair| *pair == [j, i]);
            followed / counted(labels, 1.0, |pair| pair[0] == j)
        }
        Some(stay) if i == j => stay,
        Some(stay) => (1.0 - stay) / (k - 1) as f64,
    }
}

// The table of recipe i, row by row.
pub fn transition(i: usize, labels: &[usize], k: usize) -> [f64; 256]
    requires { k ≤ 16 }
{
    let mut table = [0.0; 256];
    let stay = stay(i);
    for i in 0..k {
        for j in 0..k {
            table[i * k + j] = probability(i, j, stay, labels, k);
        }
    }
    table
}
