// Stationary shares of four transition tables of document 01: the two of "Run, not proved", then P4 and P6. The file
// stdout has what the Rust answers, as number, place and value of a refusal or as bit patterns of the shares.
#![tactic(auto)]

use params::MsarParams;
use refusal::Refusal;

// Two regimes of order 0 with the columns (a, c) and (b, d).
fn two_by_two(a: f64, b: f64, c: f64, d: f64) -> MsarParams {
    let mut transition = [0.0; 256];
    transition[..4].copy_from_slice(&[a, b, c, d]);
    let mut means = [0.0; 16];
    means[1] = 1.0;
    let mut variances = [0.0; 16];
    variances[0] = 1.0;
    MsarParams {
        transition,
        means,
        ar: [0.0; 112],
        variances,
        means_count: 2,
        transition_count: 4,
        ar_blocks: 1,
        order: 0,
        ar_count: 0,
        variances_count: 1,
    }
}

fn pattern(rt: &impl Print, x: f64) {
    host_io::write_all(rt, b" ");
    host_io::print_hex(rt, number::pattern(x));
}

fn answered(rt: &impl Print, shares: [f64; 16]) {
    host_io::write_all(rt, b"shares");
    pattern(rt, shares[0]);
    pattern(rt, shares[1]);
}

fn refused(rt: &impl Print, r: Refusal) {
    host_io::write_all(rt, b"refused ");
    host_io::print_decimal(rt, r.number() as u64);
    host_io::write_all(rt, b" ");
    host_io::print_decimal(rt, r.place() as u64);
    pattern(rt, r.value());
}

fn show(rt: &impl Print, q: MsarParams) {
    match stationary::stationary_shares(q) {
        Ok(shares) => answered(rt, shares),
        Err(r) => refused(rt, r),
    }
    host_io::write_all(rt, b"\n");
}

fn main(rt: HostRuntime) {
    show(&rt, two_by_two(1.000000005, 0.5, 0.0, 0.5));
    show(&rt, two_by_two(1.0000000005, 1.0, 0.0, 0.0));
    show(&rt, two_by_two(0.25, 0.25, 0.75, 0.75));
    show(&rt, two_by_two(1.0, 0.0, 0.0, 1.0));
}
