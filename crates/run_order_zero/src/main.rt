// Order zero beside answers that were worked out elsewhere: sums over all lists of labels in exact fractions, each rounded
// once (oracle/order_zero). Ours round at each step, so that numbers are compared within a distance.
// Standard input: a line is 16 hexadecimal digits. A case has k, the count of variances and that of readings; k·k entries of
// the transition, row by row; means, variances and readings; then what is expected: the log-likelihood, the filtered table
// and the smoothed one, a row of k for each reading.
// Standard output: the row that follows (0.25, 0.75) under the columns (0.5, 0.5) and (0.25, 0.75) by rule 2; how many cases
// there are, and how many are far from what is expected, by rule 2 and by rule 1. Or `bad case N`, which ends the run.
#![tactic(auto)]

ghost use Rattle.std.specs.Prelude.{◌≤◌};

use params::MsarParams;
use prediction::Rule;
use refusal::Refusal;
use run_hex::Line;
use spec::MsarSpec;
use std::io::Input;

// How far a probability may be; a log-likelihood may be so far for each 1 of its size, and once more.
const NEAR: f64 = 1e-13;

// Room for the tables of a case.
type Table = [f64; 64];

// Spec and parameters of a case.
#[derive(Clone, Copy)]
struct Given {
    spec: MsarSpec,
    params: MsarParams,
}

// What a call answers, or what is expected of it.
#[derive(Clone, Copy)]
struct Told {
    loglik: f64,
    filtered: Table,
    smoothed: Table,
}

// Whether a case is far by rule 1 and by rule 2.
#[derive(Clone, Copy)]
struct Far {
    one: bool,
    two: bool,
}

// ---- the row of document 02's example

// At order zero by rule 2 no step is read, so that the transition stands for the steps too.
fn show_row(rt: &impl Print) {
    let mut transition = [0.0; 256];
    transition[..4].copy_from_slice(&[0.5, 0.25, 0.5, 0.75]);
    let mut previous = [0.0; 256];
    previous[..2].copy_from_slice(&[0.25, 0.75]);
    let mut row = [0.0; 256];
    prediction::later_row(
        Rule::Two,
        0,
        &transition,
        &transition,
        &previous,
        2,
        1,
        &mut row,
    );
    run_hex::write(rt, number::pattern(row[0]), b' ');
    run_hex::write(rt, number::pattern(row[1]), b'\n');
}

// ---- reading

// The next line as a count, 0 where it is none: such a line is answered as a written 0 is.
fn whole(rt: &impl Input) -> usize {
    let Line::Pattern(n) = run_hex::read(rt) else {
        return 0;
    };
    n as usize
}

// How many cells so many rows of so many labels have, where there is room for them.
fn cells(rows: usize, k: usize) -> Option<usize> {
    if rows > 16 || k > 16 {
        return None;
    }
    Some(rows * k)
}

fn read_model(rt: &impl Input, k: usize, variances_count: usize) -> Option<Given> {
    let transition_count = cells(k, k)?;
    let transition = run_hex::filled(rt, transition_count)?;
    let means = run_hex::filled(rt, k)?;
    let variances = run_hex::filled(rt, variances_count)?;
    Some(Given {
        spec: MsarSpec {
            k_regimes: k,
            order: 0,
            switching_ar: false,
            switching_variance: variances_count != 1,
        },
        params: MsarParams {
            transition,
            means,
            ar: [0.0; 112],
            variances,
            means_count: k,
            transition_count,
            ar_blocks: 1,
            order: 0,
            ar_count: 0,
            variances_count,
        },
    })
}

fn expected(rt: &impl Input, count: usize) -> Option<Told> {
    let [loglik]: [f64; 1] = run_hex::filled(rt, 1)?;
    let filtered = run_hex::filled(rt, count)?;
    let smoothed = run_hex::filled(rt, count)?;
    Some(Told {
        loglik,
        filtered,
        smoothed,
    })
}

// ---- the call, and how far it is

fn answered(c: &Given, rule: usize, series: &[f64]) -> Result<Told, Refusal> {
    let mut work = [0.0; 512];
    let mut filtered = [0.0; 64];
    let mut smoothed = [0.0; 64];
    let loglik = calls::smooth(
        c.spec,
        series,
        c.params,
        rule,
        &mut work,
        &mut filtered,
        &mut smoothed,
    )?;
    Ok(Told {
        loglik,
        filtered,
        smoothed,
    })
}

// Whether each number is near the other's; what a case does not use is zero in both.
fn near_tables(a: &Table, b: &Table) -> bool {
    a.iter()
        .zip(b)
        .all(|(x, y)| number::magnitude(*x - *y) <= NEAR)
}

fn is_near(a: &Told, e: &Told) -> bool {
    let distance = number::magnitude(a.loglik - e.loglik);
    (distance <= NEAR * (number::magnitude(e.loglik) + 1.0))
        && near_tables(&a.filtered, &e.filtered)
        && near_tables(&a.smoothed, &e.smoothed)
}

// Whether the answer is far from what is expected, as a refusal is.
fn is_far(answer: Result<Told, Refusal>, e: &Told) -> bool {
    !answer.is_ok_and(|a| is_near(&a, e))
}

// ---- the cases

// The case whose numbers come next, its k aside; None where the input has none.
fn case(rt: &impl Input, k: usize) -> Option<Far> {
    let variances_count = whole(rt);
    let readings = whole(rt);
    let c = read_model(rt, k, variances_count)?;
    let numbers: [f64; 16] = run_hex::filled(rt, readings)?;
    let series = &numbers[..readings];
    let e = expected(rt, cells(readings, k)?)?;
    Some(Far {
        one: is_far(answered(&c, 1, series), &e),
        two: is_far(answered(&c, 2, series), &e),
    })
}

fn say(rt: &impl Print, before: &[u8], n: u64, after: &[u8]) {
    host_io::write_all(rt, before);
    host_io::print_decimal(rt, n);
    host_io::write_all(rt, after);
}

fn bad(rt: &impl Print, cases: u64) {
    say(rt, b"bad case ", cases, b"\n");
}

fn end(rt: &impl Print, cases: u64, far_one: u64, far_two: u64) {
    say(rt, b"", cases, b" cases; ");
    say(rt, b"far by rule 2: ", far_two, b"; ");
    say(rt, b"far by rule 1: ", far_one, b"\n");
}

// The file has fewer than 1,000 cases.
fn main(rt: HostRuntime) {
    show_row(&rt);
    let mut far_one: u64 = 0;
    let mut far_two: u64 = 0;
    for cases in 0..1000u64 {
        let Line::Pattern(k) = run_hex::read(&rt) else {
            end(&rt, cases, far_one, far_two);
            return;
        };
        let Some(far) = case(&rt, k as usize) else {
            bad(&rt, cases);
            return;
        };
        far_one += far.one as u64;
        far_two += far.two as u64;
    }
}
