// The stationary shares of the regimes.
#![tactic(auto)]

ghost use Rattle.std.specs.Prelude.{◌≡◌, ◌<◌, ◌≤◌};
ghost use Rattle.refusal.specs.Checks.{each};
ghost use Rattle.stationary.specs.Stationary.{entry, side, share_table, share_sides, share_check, solved_shares, shares_of};

use params::MsarParams;
use refusal::Refusal;

const HAIR: f64 = -1e-9;

// Place e of the table I - P, its last row ones: row e / n and column e % n.
fn entry_at(transition: &[f64; 256], n: usize, e: usize) -> f64
    requires { (n ≤ 16) × (0 < n) × (e < 256) }
    ensures { result ≡ entry n transition.now e }
{
    if e / n + 1 == n {
        return 1.0;
    }
    if e / n == e % n {
        return 1.0 - transition[e];
    }
    0.0 - transition[e]
}

fn table_of(transition: &[f64; 256], n: usize) -> [f64; 256]
    requires { (n ≤ 16) × (0 < n) }
    ensures { result ≡ share_table n transition.now }
{
    let mut a = [0.0; 256];
    for e in 0..n * n {
        a[e] = entry_at(transition, n, e);
    }
    a
}

fn sides_of(n: usize) -> [f64; 16]
    requires { n ≤ 16 }
    ensures { result ≡ share_sides n }
{
    let mut b = [0.0; 16];
    for i in 0..n {
        b[i] = side_at(n, i);
    }
    b
}

fn side_at(n: usize, i: usize) -> f64
    requires { i < 16 }
    ensures { result ≡ side n i }
{
    if i + 1 == n {
        return 1.0;
    }
    0.0
}

// 22 at the first share that is not finite or below -1e-9. None is clipped.
fn check_shares(x: &[f64; 16], n: usize) -> Result<(), Refusal>
    requires { n ≤ 16 }
    ensures { result ≡ each n (share_check x.now) }
{
    for (i, &v) in x[..n].iter().enumerate() {
        if !number::is_finite(v) {
            return Err(Refusal::Share(i, v));
        }
        if !(v >= HAIR) {
            return Err(Refusal::Share(i, v));
        }
    }
    Ok(())
}

// The shares of n regimes with a transition table that passed the checks.
pub fn solved_shares(transition: &[f64; 256], n: usize) -> Result<[f64; 16], Refusal>
    requires { (n ≤ 16) × (0 < n) }
    ensures { result ≡ solved_shares n transition.now }
{
    let a = table_of(transition, n);
    let b = sides_of(n);
    let x = linsolve::solve(a, b, n).map_err(|why| Refusal::Singular(0, why.column()))?;
    check_shares(&x, n)?;
    Ok(x)
}

// The stationary shares: the parameter checks first, then 21 with place 0 and the solver's column, then 22.
pub fn stationary_shares(q: MsarParams) -> Result<[f64; 16], Refusal>
    ensures { result ≡ shares_of q }
{
    q.check()?;
    solved_shares(&q.transition, q.means_count)
}
