// Normal equations with a ridge.
#![tactic(auto)]

ghost use Rattle.std.specs.Prelude.{◌≡◌, ◌*◌, ◌<◌, ◌≤◌};
ghost use Rattle.number.specs.Table.{fill_at};
ghost use Rattle.em_ridge.specs.Ridge.{largest_to, ridged, solve_or_keep};

use refusal::Refusal;

const SMALL: f64 = 1e-12;

// The largest place of the diagonal, or +0.
fn largest(a: &[f64; 256], n: usize) -> f64
    requires { n ≤ 16 }
    ensures { result ≡ largest_to n a.now n }
{
    let mut scale = 0.0;
    for i in 0..n {
        scale = number::max(scale, a[i * n + i]);
    }
    scale
}

// The ridge on each place of the diagonal.
fn add_ridge(a: &mut [f64; 256], n: usize, scale: f64)
    requires { (n ≤ 16) × (0 < n) }
    ensures { a.new ≡ fill_at 0 (ridged n a.old scale) (n * n) a.old }
{
    let ridge = SMALL * scale;
    for i in 0..n {
        let at = i * n + i;
        a[at] = a[at] + ridge;
    }
}

// The n equations a x = b with the ridge. Where there is no scale to measure it by, the incumbent stays. `which` is the
// place that a refusal names, beside the solver's column.
pub fn solve_or_keep(
    mut a: [f64; 256],
    b: [f64; 16],
    n: usize,
    incumbent: [f64; 16],
    which: usize,
) -> Result<[f64; 16], Refusal>
    requires { (n ≤ 16) × (0 < n) }
    ensures { result ≡ solve_or_keep which n a b incumbent }
{
    let scale = largest(&a, n);
    if !number::is_usable(scale) {
        return Ok(incumbent);
    }
    add_ridge(&mut a, n, scale);
    linsolve::solve(a, b, n).map_err(|why| Refusal::Singular(which, why.column()))
}
