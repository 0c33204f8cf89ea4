// The sample variance of a series.
#![tactic(auto)]

ghost use Rattle.std.specs.Prelude.{◌≡◌, ◌≤◌, length};
ghost use Rattle.number.specs.Sums.{sum_up};
ghost use Rattle.number.specs.Table.{◌!◌};
ghost use Rattle.em_sample_variance.specs.Series.{square_at, sample_variance};

fn sum(y: &[f64]) -> f64
    ensures { result ≡ sum_up (λ i. y.now ! i) (length y.now) }
{
    let mut acc = 0.0;
    for x in y {
        acc = acc + *x;
    }
    acc
}

// The squares of the distances from the mean, summed.
fn sum_of_squares(y: &[f64], mean: f64) -> f64
    ensures { result ≡ sum_up (square_at y.now mean) (length y.now) }
{
    let mut acc = 0.0;
    for x in y {
        let d = *x - mean;
        acc = acc + d * d;
    }
    acc
}

// About the mean, divided by the count of readings.
pub fn sample_variance(y: &[f64]) -> f64
    requires { length y.now ≤ 4096 }
    ensures { result ≡ sample_variance y.now }
{
    let count = number::of_whole(y.len() as u64);
    let mean = sum(y) / count;
    sum_of_squares(y, mean) / count
}
