// Small linear systems, by Gaussian elimination with partial pivoting and back-substitution.
#![tactic(auto)]

ghost use Rattle.std.specs.Prelude.{◌≡◌, suc, ◌+◌, ◌-◌, ◌*◌, ◌<◌, ◌≤◌};
ghost use Rattle.number.specs.Number.{magnitude_of};
ghost use Rattle.number.specs.Table.{cell};
ghost use Rattle.linsolve.specs.Solver.{column_of, system, pivot_of, swap_rows, placed, less_row, clear_row, clear_to, column, eliminate_to, less_known, back_to, solve_of};
ghost use Rattle.linsolve.specs.Promises.{leaves, Best};

// Why a system has no answer.
#[derive(Clone, Copy, Debug, PartialEq, Eq)]
pub enum Unsolved {
    // the column at which elimination stopped, counted from 0, so below 16
    Singular(u8),
    TooLarge,
}

impl Unsolved {
    // The column that a refusal names: a table too large has none, and 0 stands for it.
    pub fn column(self) -> u8
        ensures { result ≡ column_of self }
    {
        match self {
            Unsolved::Singular(c) => c,
            Unsolved::TooLarge => 0,
        }
    }
}

// The row where a column's pivot is found, and the pivot's magnitude.
#[derive(Clone, Copy)]
struct Pivot {
    row: usize,
    magnitude: f64,
}

// Table, side and count stay three parameters: of a field that split_at_mut cuts no proof here can name what is written back.

// Row i, column j of a table of n columns.
fn cell_of(a: &[f64; 256], n: usize, i: usize, j: usize) -> f64
    requires { (n ≤ 16) × (i < n) × (j < n) }
    ensures { result ≡ cell n a.now i j }
{
    a[i * n + j]
}

fn magnitude_at(a: &[f64; 256], n: usize, i: usize, j: usize) -> f64
    requires { (n ≤ 16) × (i < n) × (j < n) }
    ensures { result ≡ magnitude_of (cell n a.now i j) }
{
    number::magnitude(cell_of(a, n, i, j))
}

// The first largest of column c, from the diagonal down.
fn pivot_of(a: &[f64; 256], n: usize, c: usize) -> Pivot
    requires { (n ≤ 16) × (c < n) }
    ensures { Best n a.now c n result.row result.magnitude }
{
    let mut row = c;
    let mut magnitude = magnitude_at(a, n, c, c);
    for r in c + 1..n {
        let m = magnitude_at(a, n, r, c);
        // strict, so that the first of equals and a NaN on the diagonal stay
        if magnitude < m {
            magnitude = m;
            row = r;
        }
    }
    Pivot { row, magnitude }
}

// Rows c and i exchanged.
fn swap_rows(a: &mut [f64; 256], b: &mut [f64; 16], n: usize, c: usize, i: usize)
    requires { (n ≤ 16) × (c < i) × (i < n) }
    ensures { system a.new b.new ≡ swap_rows n c i (system a.old b.old) }
{
    let (above, below) = a.split_at_mut(i * n);
    above[c * n..c * n + n].swap_with_slice(&mut below[..n]);
    b.swap(i, c);
}

// The pivot's row i brought to the diagonal.
fn place(a: &mut [f64; 256], b: &mut [f64; 16], n: usize, c: usize, i: usize)
    requires { (n ≤ 16) × (c ≤ i) × (i < n) × (i ≡ pivot_of n a.old c) }
    ensures { system a.new b.new ≡ placed n c (system a.old b.old) }
{
    if i != c {
        swap_rows(a, b, n, c, i);
    }
}

// Row r less f times row c, from column c on.
fn less_row(a: &mut [f64; 256], b: &mut [f64; 16], n: usize, c: usize, r: usize, f: f64)
    requires { (n ≤ 16) × (c < r) × (r < n) }
    ensures { system a.new b.new ≡ less_row n c r f (system a.old b.old) }
{
    // by index: of a zip over iter_mut no proof here can name what its writes leave
    for j in c..n {
        a[r * n + j] = a[r * n + j] - f * a[c * n + j];
    }
    b[r] = b[r] - f * b[c];
}

// Row r with column c cleared.
fn clear_row(a: &mut [f64; 256], b: &mut [f64; 16], n: usize, c: usize, r: usize)
    requires { (n ≤ 16) × (c < r) × (r < n) }
    ensures { system a.new b.new ≡ clear_row n c r (system a.old b.old) }
{
    let f = cell_of(a, n, r, c) / cell_of(a, n, c, c);
    // zero times an infinity would leave a NaN
    if f != 0.0 {
        less_row(a, b, n, c, r, f);
    }
}

// Column c cleared below the diagonal.
fn clear_below(a: &mut [f64; 256], b: &mut [f64; 16], n: usize, c: usize)
    requires { (n ≤ 16) × (c < n) }
    ensures { system a.new b.new ≡ clear_to n c (system a.old b.old) (n - suc c) }
{
    for r in c + 1..n {
        clear_row(a, b, n, c, r);
    }
}

// Column c done, or refused where its pivot is too small.
fn eliminate_column(
    a: &mut [f64; 256],
    b: &mut [f64; 16],
    n: usize,
    c: usize,
) -> Result<(), Unsolved>
    requires { (n ≤ 16) × (c < n) }
    ensures { leaves result (system a.new b.new) ≡ column n c (system a.old b.old) }
{
    let p = pivot_of(a, n, c);
    // a NaN is not below, and passes
    if p.magnitude < 1e-300 {
        return Err(Unsolved::Singular(c as u8));
    }
    place(a, b, n, c, p.row);
    clear_below(a, b, n, c);
    Ok(())
}

// All columns, one after the other, up to the first whose pivot is too small.
fn eliminate(a: &mut [f64; 256], b: &mut [f64; 16], n: usize) -> Result<(), Unsolved>
    requires { n ≤ 16 }
    ensures { leaves result (system a.new b.new) ≡ eliminate_to n (system a.old b.old) n }
{
    for c in 0..n {
        eliminate_column(a, b, n, c)?;
    }
    Ok(())
}

// The right-hand side of row r less what the unknowns after r take.
fn less_known(a: &[f64; 256], b: &[f64; 16], x: &[f64; 16], n: usize, r: usize) -> f64
    requires { (n ≤ 16) × (r < n) }
    ensures { result ≡ less_known n (system a.now b.now) x.now r (n - suc r) }
{
    let mut rest = b[r];
    // an index: it names the unknown and the cell of the table
    for j in r + 1..n {
        rest -= cell_of(a, n, r, j) * x[j];
    }
    rest
}

// The unknowns, the last one first.
fn back_substitute(a: &[f64; 256], b: &[f64; 16], n: usize) -> [f64; 16]
    requires { n ≤ 16 }
    ensures { result ≡ back_to n (system a.now b.now) n }
{
    let mut x = [0.0; 16];
    for r in (0..n).rev() {
        x[r] = less_known(a, b, &x, n, r) / cell_of(a, n, r, r);
    }
    x
}

// a x = b, where a is a table of n rows and columns.
pub fn solve(mut a: [f64; 256], mut b: [f64; 16], n: usize) -> Result<[f64; 16], Unsolved>
    ensures { result ≡ solve_of n a b }
{
    // 256 places hold no larger table
    if n > 16 {
        return Err(Unsolved::TooLarge);
    }
    eliminate(&mut a, &mut b, n)?;
    Ok(back_substitute(&a, &b, n))
}
