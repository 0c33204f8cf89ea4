// Document 01's twelve examples, each run through the library's own functions: a line for each, its name and `ok`, or
// `differs` where an answer is not the example's. The same twelve are proved of the definitions
// (crates/promises/specs/Twelve.antt).
#![tactic(auto)]

ghost use Rattle.std.specs.Prelude.{◌≡◌, true, ◌<◌, ◌^◌};
ghost use Rattle.number.specs.Sums.{sum_up};
ghost use Rattle.number.specs.Table.{◌!◌};
ghost use Rattle.spec.specs.Spec.{window_count};
ghost use Rattle.refusal.specs.Checks.{check_of};
ghost use Rattle.cases.specs.Cases.{same, tells, fails, fails_with, has_windows, is_refused, pair_of, two_regimes, units_of};

use params::MsarParams;
use prediction::Rule;
use refusal::Refusal;
use spec::MsarSpec;
use window::Sizes;

// ---- what a line says

fn line(rt: &impl Print, name: &[u8], same: bool) {
    host_io::write_all(rt, name);
    if same {
        host_io::write_all(rt, b" ok\n");
    } else {
        host_io::write_all(rt, b" differs\n");
    }
}

// The same number of binary64, zeros of two signs apart.
fn is(x: f64, y: f64) -> bool
    ensures { result ≡ same x y }
{
    number::pattern(x) == number::pattern(y)
}

// ---- parameters of two regimes

fn pair(a: f64, b: f64) -> [f64; 16]
    ensures { result ≡ pair_of a b }
{
    let mut values = [0.0; 16];
    values[0] = a;
    values[1] = b;
    values
}

// The columns of the transition are (a, c) and (b, d).
fn two(order: usize, a: f64, b: f64, c: f64, d: f64) -> MsarParams
    ensures { result ≡ two_regimes order a b c d }
{
    let mut transition = [0.0; 256];
    transition[0] = a;
    transition[1] = b;
    transition[2] = c;
    transition[3] = d;
    let mut ar = [0.0; 112];
    ar[0] = 0.5;
    MsarParams {
        transition,
        means: pair(0.0, 1.0),
        ar,
        variances: pair(1.0, 0.0),
        means_count: 2,
        transition_count: 4,
        ar_blocks: 1,
        order,
        ar_count: order,
        variances_count: 1,
    }
}

// ---- windows

fn p1() -> bool
    ensures { result ≡ true }
{
    let s0 = window::label(14, 0, 3, 2);
    let s1 = window::label(14, 1, 3, 2);
    let s2 = window::label(14, 2, 3, 2);
    let after0 = window::successor(14, 0, 3, 2, 9);
    let after1 = window::successor(14, 1, 3, 2, 9);
    let after2 = window::successor(14, 2, 3, 2, 9);
    let before0 = window::predecessor(14, 0, 3, 2, 9);
    let before1 = window::predecessor(14, 1, 3, 2, 9);
    let before2 = window::predecessor(14, 2, 3, 2, 9);
    (s0 == 2)
        & (s1 == 1)
        & (s2 == 1)
        & (after0 == 15)
        & (after1 == 16)
        & (after2 == 17)
        & (before0 == 4)
        & (before1 == 13)
        & (before2 == 22)
}

fn p2() -> bool
    ensures { result ≡ true }
{
    let after0 = window::successor(1, 0, 2, 1, 2);
    let after1 = window::successor(1, 1, 2, 1, 2);
    let before0 = window::predecessor(1, 0, 2, 1, 2);
    let before1 = window::predecessor(1, 1, 2, 1, 2);
    (after0 == 2) & (after1 == 3) & (before0 == 0) & (before1 == 2)
}

// ---- the spec

fn windows_of(k_regimes: usize, order: usize) -> Result<usize, Refusal>
    ensures { result ≡ window_count k_regimes order }
{
    let s = MsarSpec {
        k_regimes,
        order,
        switching_ar: false,
        switching_variance: false,
    };
    s.expanded_states()
}

// Whether the spec is accepted with m windows.
fn counts(k_regimes: usize, order: usize, m: usize) -> bool
    ensures { result ≡ has_windows (window_count k_regimes order) m }
{
    match windows_of(k_regimes, order) {
        Ok(count) => count == m,
        Err(_) => false,
    }
}

// Whether it is refused by this number, which carries k.
fn refuses(k_regimes: usize, order: usize, number: usize) -> bool
    ensures { result ≡ is_refused (window_count k_regimes order) number k_regimes }
{
    match windows_of(k_regimes, order) {
        Ok(_) => false,
        Err(r) => says(r, number, k_regimes),
    }
}

fn says(r: Refusal, number: usize, place: usize) -> bool
    ensures { result ≡ tells r number place }
{
    (r.number() == number) & (r.place() == place)
}

fn failed(check: Result<(), Refusal>, number: usize, place: usize) -> bool
    ensures { result ≡ fails check number place }
{
    match check {
        Ok(()) => false,
        Err(r) => says(r, number, place),
    }
}

// An answer that is refused so, and with this value.
fn failed_with<A: Drop>(answer: Result<A, Refusal>, number: usize, place: usize, value: f64) -> bool
    ensures { result ≡ fails_with (check_of answer) number place value }
{
    match answer {
        Ok(_) => false,
        Err(r) => says(r, number, place) & is(r.value(), value),
    }
}

fn p3() -> bool
    ensures { result ≡ true }
{
    counts(16, 1, 256)
        & counts(6, 2, 216)
        & refuses(2, 8, 2)
        & refuses(7, 2, 2)
        & refuses(17, 1, 2)
        & refuses(17, 0, 3)
        & refuses(1, 0, 1)
}

// ---- shares and predictions

fn p4() -> bool
    ensures { result ≡ true }
{
    let Ok(shares) = stationary::stationary_shares(two(0, 0.25, 0.25, 0.75, 0.75)) else {
        return false;
    };
    is(shares[0], 0.25) & is(shares[1], 0.75)
}

fn p5() -> bool
    ensures { result ≡ true }
{
    let q = two(1, 0.25, 0.25, 0.75, 0.75);
    let Ok(shares) = stationary::stationary_shares(q) else {
        return false;
    };
    let mut row = [0.0; 256];
    prediction::first_row(&q, &shares, Sizes::shaped(2, 1), &mut row);
    is(row[0], 0.0625) & is(row[1], 0.1875) & is(row[2], 0.1875) & is(row[3], 0.5625)
}

fn p6() -> bool
    ensures { result ≡ true }
{
    failed_with(
        stationary::stationary_shares(two(0, 1.0, 0.0, 0.0, 1.0)),
        21,
        0,
        1.0,
    )
}

// By rule 1; crates/run_order_zero has the row by rule 2.
fn p7() -> bool
    ensures { result ≡ true }
{
    let q = two(0, 0.5, 0.25, 0.5, 0.75);
    let steps = prediction::steps(&q, Sizes::shaped(2, 0));
    let mut previous = [0.0; 256];
    previous[0] = 0.25;
    previous[1] = 0.75;
    let mut row = [0.0; 256];
    prediction::later_row(
        Rule::One,
        0,
        &q.transition,
        &steps,
        &previous,
        2,
        1,
        &mut row,
    );
    is(row[0], 0.5) & is(row[1], 0.5)
}

// ---- a row divided by its sum

// The sum upward of the first three places, as the library sums a label's windows: all are windows of one label.
fn sum_of(row: &[f64; 256]) -> f64
    ensures { result ≡ sum_up (λ a. row.now ! a) 3 }
{
    let mut work = [0.0; 3];
    let mut table = [0.0; 1];
    number::copy(row, 3, &mut work, 0);
    rows::tabulate(&work, 1, 3, 3, 1, &mut table);
    table[0]
}

// The significand of a number from 0.25 up to 0.5, in units of 2 ^ -54; 0 of any other, as the definition units_of has it.
fn in_units(x: f64) -> u64
    ensures { (result ≡ units_of x) × (result < 2 ^ 53) }
{
    let n = number::pattern(x);
    if n / 0x10_0000_0000_0000 == 0x3FD {
        n % 0x10_0000_0000_0000 + 0x10_0000_0000_0000
    } else {
        0
    }
}

// In these units: one, and the 3 / 2 ^ 52 that demand 3 allows a row of three windows.
const ONE: u64 = 0x40_0000_0000_0000;

const ALLOWED: u64 = 3 * ONE / 0x10_0000_0000_0000;

// The exact total is 2 ^ -54 below one, which is within what is allowed.
fn p8() -> bool
    ensures { result ≡ true }
{
    let mut row = [0.0; 256];
    row[0] = 1.0;
    row[1] = 1.0;
    row[2] = 1.0;
    let total = sum_of(&row);
    filter::divide(&mut row, total, 3);
    let mut work = [0.0; 3];
    let mut table = [0.0; 3];
    number::copy(&row, 3, &mut work, 0);
    rows::tabulate(&work, 3, 1, 3, 1, &mut table);
    let exact = in_units(table[0]) + in_units(table[1]) + in_units(table[2]);
    (exact == 0x3F_FFFF_FFFF_FFFF) & (exact <= ONE + ALLOWED) & (ONE <= exact + ALLOWED)
}

// ---- the series

fn sample_variances() -> bool
    ensures { result ≡ true }
{
    let spread = [1.0, 3.0];
    let constant = [2.0, 2.0];
    is(em_sample_variance::sample_variance(&spread), 1.0)
        & is(em_sample_variance::sample_variance(&constant), 0.0)
}

// A fit at order 1 of the series 2, 2, which is lent all the memory that it needs, for one row of four windows; it is refused by
// 25, which carries the variance.
fn fit_refused() -> bool
    ensures { result ≡ true }
{
    let s = MsarSpec {
        k_regimes: 2,
        order: 1,
        switching_ar: false,
        switching_variance: false,
    };
    let constant = [2.0, 2.0];
    let mut work = [0.0; 8];
    let mut smoothed = [0.0; 2];
    let q = two(1, 0.25, 0.25, 0.75, 0.75);
    failed_with(
        fit::fit(s, &constant, q, 100, 1e-8, &mut work, &mut smoothed),
        25,
        0,
        0.0,
    )
}

fn p9() -> bool
    ensures { result ≡ true }
{
    sample_variances() & fit_refused()
}

// ---- parameters

fn p10() -> bool
    ensures { result ≡ true }
{
    failed(two(0, 1.0, 0.5, 0.0, 0.49).check(), 14, 1)
}

fn p11() -> bool
    ensures { result ≡ true }
{
    let Ok(durations) = two(0, 0.75, 0.0, 0.25, 1.0).expected_durations() else {
        return false;
    };
    is(durations[0], 4.0) & is(durations[1], number::of_pattern(0x7FF0_0000_0000_0000))
}

fn p12() -> bool
    ensures { result ≡ true }
{
    is(root::root(4.0), 2.0) & (number::pattern(root::root(2.0)) == 0x3FF6_A09E_667F_3BCD)
}

// twelve calls, not a loop over a table: the table would have the same twelve lines
fn main(rt: HostRuntime) {
    line(&rt, b"P1", p1());
    line(&rt, b"P2", p2());
    line(&rt, b"P3", p3());
    line(&rt, b"P4", p4());
    line(&rt, b"P5", p5());
    line(&rt, b"P6", p6());
    line(&rt, b"P7", p7());
    line(&rt, b"P8", p8());
    line(&rt, b"P9", p9());
    line(&rt, b"P10", p10());
    line(&rt, b"P11", p11());
    line(&rt, b"P12", p12());
}
