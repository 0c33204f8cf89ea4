// What Rust has as methods of f64, worked out by the program: bit patterns, magnitude, is finite, max; a whole number as an f64; and of
// rows: the first number that fails a test, a copy.
#![tactic(auto)]

ghost use Rattle.std.specs.Prelude.{◌≡◌, ◌+◌, ◌^◌, ◌≤◌, ◌<◌, length};
ghost use Rattle.std.specs.Float.Ieee.Scale.{finite};
ghost use Rattle.number.specs.Number.{pattern_of, float, of_whole, usable, magnitude_of, max_of};
ghost use Rattle.number.specs.Table.{◌!◌, fill_at};
ghost use Rattle.number.specs.Tests.{holds, first_not};

// The bit pattern of x. A NaN has one pattern here: the language leaves its bits open.
pub fn pattern(x: f64) -> u64
    ensures { result ≡ pattern_of x }
{
    if x.is_nan() {
        return 0x7ff8_0000_0000_0000;
    }
    x.to_bits()
}

// The number of a bit pattern, a NaN for each of a NaN's patterns.
pub fn of_pattern(n: u64) -> f64
    ensures { result ≡ float n }
{
    if n % 0x8000_0000_0000_0000 > 0x7ff0_0000_0000_0000 {
        return f64::NAN;
    }
    f64::from_bits(n)
}

// A whole number as an f64, exactly. The signed conversion is one instruction, the unsigned one is five.
pub fn of_whole(n: u64) -> f64
    requires { n < 2 ^ 31 }
    ensures { result ≡ of_whole n }
{
    (n as i32) as f64
}

// Rust's `abs`.
pub fn magnitude(x: f64) -> f64
    ensures { result ≡ magnitude_of x }
{
    x.abs()
}

// Rust's `is_finite`.
pub fn is_finite(x: f64) -> bool
    ensures { result ≡ finite x }
{
    x.is_finite()
}

// Finite and above zero: what a variance, a likelihood and a scale must be.
pub fn is_usable(x: f64) -> bool
    ensures { result ≡ usable x }
{
    is_finite(x) & (x > 0.0)
}

// Rust's `max`, with +0 for zeros of two signs, which Rust leaves open.
pub fn max(x: f64, y: f64) -> f64
    ensures { result ≡ max_of x y }
{
    if x.is_nan() {
        return y;
    }
    if y.is_nan() {
        return x;
    }
    if x < y {
        return y;
    }
    if y < x {
        return x;
    }
    if x == 0.0 {
        return x + y;
    }
    x
}

// ---- rows

// What each number of a row must be: finite, finite and above zero, or finite and between two bounds, which it may equal.
// A test by name and no closure: that `first_failing` has one outcome is a theorem (crates/promises, BetweenCrates), and not true of
// every closure.
#[derive(Clone, Copy)]
pub enum Test {
    Finite,
    Usable,
    Between(f64, f64),
}

fn passes(test: Test, x: f64) -> bool
    ensures { result ≡ holds test x }
{
    match test {
        Test::Finite => is_finite(x),
        Test::Usable => is_usable(x),
        Test::Between(low, high) => is_finite(x) & (x >= low) & (x <= high),
    }
}

// The first of the places below n whose number fails the test, n where none does.
pub fn first_failing(test: Test, row: &[f64], n: usize) -> usize
    requires { n ≤ length row.now }
    ensures { result ≡ first_not (λ i. holds test (row.now ! i)) n }
{
    row[..n].iter().position(|x| !passes(test, *x)).unwrap_or(n)
}

// The first n numbers of one row, to the places of another from `at` on.
pub fn copy(from: &[f64], n: usize, to: &mut [f64], at: usize)
    requires { (n ≤ length from.now) × (at + n ≤ length to.old) }
    ensures { to.new ≡ fill_at at (λ i. from.now ! i) n to.old }
{
    to[at..at + n].copy_from_slice(&from[..n]);
}
