// AR coefficients by Yule and Walker, and variances of the residuals, from the labels and the groups' means.
ghost use Rattle.std.specs.Prelude.{◌≡◌, ◌≤◌, ◌<◌, length};

use msar_start_groups::{Sum, label_at};

// The readings, the label of each, and the means of the groups.
#[derive(Clone, Copy)]
pub struct Groups<'a> {
    pub y: &'a [f64],
    pub labels: &'a [usize],
    pub means: &'a [f64; 16],
    ghost labelled: { length labels.now ≡ length y.now },
    ghost few: { length y.now ≤ 4096 },
}

// ---- coefficients

// What the coefficients so far leave of the covariance of the next lag.
fn unexplained(sums: &[f64; 8], ar: &[f64]) -> f64
    requires { length ar.now < 7 }
{
    let n = ar.len();
    let mut total = sums[n + 1];
    for (a, sum) in ar.iter().zip(sums[1..=n].iter().rev()) {
        total = total - a * sum;
    }
    total
}

// The coefficients with one more behind them.
fn extended(old: &[f64], reflection: f64) -> [f64; 7]
    requires { length old.now < 7 }
{
    let mut ar = [0.0; 7];
    for (a, (old, mirrored)) in ar.iter_mut().zip(old.iter().zip(old.iter().rev())) {
        *a = old - reflection * mirrored;
    }
    ar[old.len()] = reflection;
    ar
}

// Levinson's recursion. Every reflection is below 1 in size, hence the coefficients are stationary. It stops where nothing is left to explain.
fn yule_walker(sums: &[f64; 8], p: usize) -> [f64; 7]
    requires { p ≤ 7 }
{
    let mut left = sums[0];
    let mut ar = [0.0; 7];
    for n in 0..p {
        if !(left > 0.0) {
            return ar;
        }
        let reflection = unexplained(sums, &ar[..n]) / left;
        ar = extended(&ar[..n], reflection);
        left = left * (1.0 - reflection * reflection);
    }
    ar
}

// The block of coefficients, one behind the other until there are so many.
pub fn repeated(ar: &[f64], count: usize) -> [f64; 112]
    requires { count ≤ 112 }
{
    let mut blocks = [0.0; 112];
    for (place, a) in blocks[..count].iter_mut().zip(ar.iter().cycle()) {
        *place = *a;
    }
    blocks
}

// ---- variances

// No f64::max: a floor that is a NaN stays.
fn at_least(x: f64, floor: f64) -> f64 {
    if x > floor { x } else { floor }
}

impl Groups<'_> {
    // Reading t, less its group's mean.
    fn deviation(self, t: usize) -> f64
        requires { t < length self.y.now }
    {
        self.y[t] - self.means[label_at(self.labels, t)]
    }

    // The deviations, each times the one `lag` before it, summed and divided by nothing: this is what makes the coefficients stationary.
    fn covariance(self, lag: usize) -> f64 {
        let mut total = 0.0;
        for t in lag..self.y.len() {
            total = total + self.deviation(t) * self.deviation(t - lag);
        }
        total
    }

    // Those of the lags 0 to p.
    fn covariances(self, p: usize) -> [f64; 8]
        requires { p ≤ 7 }
    {
        let mut sums = [0.0; 8];
        for (lag, sum) in sums[..=p].iter_mut().enumerate() {
            *sum = self.covariance(lag);
        }
        sums
    }

    // The coefficients of recipe i: Yule and Walker's, or zeros, 15 recipes each in turn.
    pub fn coefficients(self, i: usize, p: usize) -> [f64; 7]
        requires { p ≤ 7 }
    {
        if i / 15 % 2 == 1 {
            return [0.0; 7];
        }
        yule_walker(&self.covariances(p), p)
    }

    fn residual(self, ar: &[f64], t: usize) -> f64
        requires { (length ar.now ≤ t) × (t < length self.y.now) }
    {
        let mut e = self.deviation(t);
        for (l, a) in ar.iter().enumerate() {
            e = e - a * self.deviation(t - 1 - l);
        }
        e
    }

    // The squares of the residuals, of one group or of all.
    fn squares(self, ar: &[f64], group: Option<usize>) -> Sum {
        let mut sum = Sum::none();
        // an index: it names the reading's label, and the readings before it
        for t in ar.len()..self.y.len() {
            if group.is_none_or(|g| self.labels[t] == g) {
                let e = self.residual(ar, t);
                sum.add(e * e);
            }
        }
        sum
    }

    // One variance, of all residuals; or one for each label, with the common one counted as 5 residuals more, lest a small group begins near
    // variance 0, where the likelihood has no bound. None is below 1e-3 of the sample variance: from there EM comes down by itself, and no
    // density underflows at the start.
    pub fn variances(self, k: usize, ar: &[f64], switching: bool) -> [f64; 16]
        requires { k ≤ 16 }
    {
        let floor = 0.001 * em_sample_variance::sample_variance(self.y);
        let common = at_least(self.squares(ar, None).mean(), floor);
        let mut variances = [0.0; 16];
        if !switching {
            variances[0] = common;
            return variances;
        }
        for (g, variance) in variances[..k].iter_mut().enumerate() {
            let s = self.squares(ar, Some(g));
            *variance = at_least((s.total + 5.0 * common) / (s.count + 5.0), floor);
        }
        variances
    }
}
