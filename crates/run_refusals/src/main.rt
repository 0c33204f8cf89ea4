// A record of parameters for each refusal of `MsarParams::new`, and specs for 1 to 3. A line has the number, the place and
// the value's bit pattern, or `passed`; the file stdout has what the Rust answers (oracle/params).
#![tactic(auto)]

ghost use Rattle.std.specs.Prelude.{◌≤◌, length};

use params::MsarParams;
use refusal::Refusal;
use spec::MsarSpec;

// Two regimes of order 1, which pass: stay probabilities 0.75 and 1.
fn good() -> MsarParams {
    MsarParams {
        transition: padded(&[0.75, 0.0, 0.25, 1.0]),
        means: padded(&[0.0, 1.0]),
        ar: [0.0; 112],
        variances: padded(&[1.0]),
        means_count: 2,
        transition_count: 4,
        ar_blocks: 1,
        order: 1,
        ar_count: 1,
        variances_count: 1,
    }
}

// These numbers, and zeros behind them.
fn padded<const N: usize>(numbers: &[f64]) -> [f64; N]
    requires { length numbers.now ≤ N }
{
    let mut values = [0.0; N];
    values[..numbers.len()].copy_from_slice(numbers);
    values
}

fn refused(rt: &impl Print, r: Refusal) {
    host_io::print_decimal(rt, r.number() as u64);
    host_io::write_all(rt, b" ");
    host_io::print_decimal(rt, r.place() as u64);
    host_io::write_all(rt, b" ");
    host_io::print_hex(rt, number::pattern(r.value()));
    host_io::write_all(rt, b"\n");
}

fn passed(rt: &impl Print) {
    host_io::write_all(rt, b"passed\n");
}

fn show(rt: &impl Print, q: MsarParams) {
    match MsarParams::new(q) {
        Ok(_) => passed(rt),
        Err(r) => refused(rt, r),
    }
}

fn windows(rt: &impl Print, m: usize) {
    host_io::print_decimal(rt, m as u64);
    host_io::write_all(rt, b" windows\n");
}

fn count(rt: &impl Print, k_regimes: usize, order: usize) {
    let s = MsarSpec {
        k_regimes,
        order,
        switching_ar: false,
        switching_variance: false,
    };
    match s.expanded_states() {
        Ok(m) => windows(rt, m),
        Err(r) => refused(rt, r),
    }
}

// ---- the record with one part changed

// A function for each part: each sets a field of its own, and counts of its own.

fn means(q: MsarParams, count: usize, a: f64, b: f64) -> MsarParams {
    MsarParams {
        means: padded(&[a, b]),
        means_count: count,
        ..q
    }
}

fn transition(q: MsarParams, a: f64, b: f64, c: f64, d: f64) -> MsarParams {
    MsarParams {
        transition: padded(&[a, b, c, d]),
        ..q
    }
}

fn ar(q: MsarParams, blocks: usize, a: f64, b: f64) -> MsarParams {
    MsarParams {
        ar: padded(&[a, b]),
        ar_blocks: blocks,
        ar_count: blocks,
        ..q
    }
}

fn variances(q: MsarParams, count: usize, a: f64, b: f64) -> MsarParams {
    MsarParams {
        variances: padded(&[a, b]),
        variances_count: count,
        ..q
    }
}

// ---- the lines

fn means_and_transition(rt: &impl Print, q: MsarParams, nan: f64, infinity: f64) {
    show(rt, means(q, 0, 0.0, 0.0));
    show(rt, means(q, 1, 0.0, 0.0));
    show(rt, means(q, 2, 0.0, nan));
    show(rt, means(q, 2, -infinity, 1.0));
    show(rt, transition(q, 0.75, 0.0, -0.25, 1.0));
    show(rt, transition(q, 0.75, 1.00000002, 0.25, 0.0));
    show(rt, transition(q, 0.75, 0.0, 0.25, nan));
    show(rt, transition(q, 0.75, 1.00000001, 0.25, 0.0));
    show(rt, transition(q, 1.0, 0.5, 0.0, 0.49));
    show(rt, transition(q, 0.9, 0.9, 0.2, 0.2));
}

fn ar_and_variances(rt: &impl Print, q: MsarParams, nan: f64, infinity: f64) {
    show(rt, ar(q, 0, 0.0, 0.0));
    show(rt, ar(q, 3, 0.0, 0.0));
    show(rt, ar(q, 2, 0.5, infinity));
    show(rt, variances(q, 0, 0.0, 0.0));
    show(rt, variances(q, 3, 1.0, 0.0));
    show(rt, variances(q, 2, 1.0, 0.0));
    show(rt, variances(q, 2, -1.0, 1.0));
    show(rt, variances(q, 1, nan, 0.0));
    show(rt, variances(q, 1, 5e-324, 0.0));
}

// Two parts at fault: the first of document 01's order answers.
fn together(rt: &impl Print, q: MsarParams, nan: f64) {
    let off = transition(q, 0.75, 0.0, -0.25, 0.5);
    show(rt, means(off, 2, 0.0, nan));
    show(rt, ar(off, 0, 0.0, 0.0));
    show(rt, ar(transition(q, 0.75, 0.0, 0.25, 0.5), 1, nan, 0.0));
    show(rt, variances(ar(q, 0, 0.0, 0.0), 3, 1.0, 0.0));
    show(rt, variances(ar(q, 1, nan, 0.0), 1, 0.0, 0.0));
}

fn main(rt: HostRuntime) {
    let nan = 0.0 / 0.0;
    let infinity = 1.0 / 0.0;
    let q = good();
    show(&rt, q);
    means_and_transition(&rt, q, nan, infinity);
    ar_and_variances(&rt, q, nan, infinity);
    together(&rt, q, nan);
    for (k, order) in [
        (0, 0),
        (1, 3),
        (2, 1),
        (2, 7),
        (6, 2),
        (16, 1),
        (2, 12),
        (16, usize::MAX),
    ] {
        count(&rt, k, order);
    }
}
