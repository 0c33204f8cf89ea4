// Works out start models, so that the gate compares `msar_start` with oracle/starts/start.py.
// Standard input: for each series a line with the count of readings and the count of questions, 8 hexadecimal digits each, then the readings,
// then the questions. A question is a line of 16 digits: 4 for the kind, 4 for i, 2 each for k, p, s and b.
// Standard output: a line for each question. Kind 0: the numbers of recipe i for k regimes, order p, switching variances where s is 1, and
// b AR blocks, in the order transition, means, ar, variances, every NaN as 7ff8000000000000. Kind 1: whether the first k readings, as
// variances, have collapsed. Kind 2: whether a fit with the first reading as log-likelihood, collapsed where s is 1, is better than
// one with the second, collapsed where b is 1.
#![tactic(auto)]

use params::MsarParams;
use run_hex::Line;
use std::io::Input;

// So many digits of the line, behind those that `unit` counts.
fn field(word: u64, unit: u64, size: u64) -> usize {
    if (unit == 0) | (size == 0) {
        return 0;
    }
    (word / unit % size) as usize
}

// Beyond the values +0. As in msar_out, which this program does not link.
fn entry(values: &[f64], i: usize) -> f64 {
    values.get(i).copied().unwrap_or(0.0)
}

// Writes the first n numbers, and a word for each place past them that is not +0.
fn numbers(rt: &impl Print, values: &[f64], n: usize) -> bool {
    for (e, x) in values.iter().enumerate() {
        let bits = number::pattern(*x);
        if e < n {
            if !run_hex::write(rt, bits, b' ') {
                return false;
            }
        } else if bits != 0 {
            host_io::write_all(rt, b"past ");
        }
    }
    true
}

fn parameters(rt: &impl Print, q: MsarParams) -> bool {
    numbers(rt, &q.transition, q.transition_count)
        && numbers(rt, &q.means, q.means_count)
        && numbers(rt, &q.ar, q.ar_count)
        && numbers(rt, &q.variances, q.variances_count)
}

fn say(rt: &impl Print, holds: bool) -> bool {
    host_io::write_all(rt, if holds { b"yes" } else { b"no" })
}

// A record with these variances, and zeros.
fn with_variances(y: &[f64], count: usize) -> MsarParams {
    let mut variances = [0.0; 16];
    for (variance, x) in variances.iter_mut().zip(y) {
        *variance = *x;
    }
    MsarParams {
        transition: [0.0; 256],
        means: [0.0; 16],
        ar: [0.0; 112],
        variances,
        means_count: 0,
        transition_count: 0,
        ar_blocks: 1,
        order: 0,
        ar_count: 0,
        variances_count: count,
    }
}

// The kind is the number that the line has.
fn answer(rt: &impl Print, y: &[f64], word: u64) -> bool {
    let i = field(word, 0x1_0000_0000, 0x1_0000);
    let k = field(word, 0x100_0000, 0x100);
    let p = field(word, 0x1_0000, 0x100);
    let s = field(word, 0x100, 0x100) == 1;
    let b = field(word, 1, 0x100);
    match field(word, 0x1_0000_0000_0000, 0x1_0000) {
        0 => parameters(rt, msar_start::recipe(i, y, k, p, s, b)),
        1 => say(rt, msar_start::is_collapsed(with_variances(y, k))),
        _ => say(
            rt,
            msar_start::is_better(entry(y, 0), s, entry(y, 1), b == 1),
        ),
    }
}

// Answers the next questions, and says whether to go on.
fn questions(rt: &(impl Print + Input), y: &[f64], count: usize) -> bool {
    for _ in 0..count {
        let Line::Pattern(word) = run_hex::read(rt) else {
            return false;
        };
        if !(answer(rt, y, word) && host_io::write_all(rt, b"\n")) {
            return false;
        }
    }
    true
}

fn series(rt: &(impl Print + Input)) -> bool {
    let mut y = [0.0; 4096];
    let Line::Pattern(word) = run_hex::read(rt) else {
        return false;
    };
    let count = field(word, 0x1_0000_0000, 0x1_0000).min(4096);
    let n = run_hex::numbers(rt, &mut y, count);
    questions(rt, &y[..n], field(word, 1, 0x1_0000_0000))
}

// A proved loop has to end, and nothing says that the input does: it stops after a million series, which no run reaches.
fn main(rt: HostRuntime) {
    for _ in 0..1_000_000usize {
        if !series(&rt) {
            return;
        }
    }
}
