// The command line.
#![tactic(auto)]

pub mod fault;
pub mod help;
mod value;
mod words;

use fault::Fault;
use std::rt::Env;
use text_csv::Heading;
use words::Words;

#[derive(Clone, Copy, PartialEq, Eq)]
pub enum Command {
    Help,
    Version,
    Check,
    Durations,
    Loglike,
    Filter,
    Smooth,
    Verdict,
    Start,
    Fit,
}

// MODEL, SERIES and the columns by their places among the arguments, and the values of the options that are given.
#[derive(Clone, Copy)]
pub struct Options {
    pub model: Option<usize>,
    pub series: Option<usize>,
    pub column: Option<usize>,
    pub keep: Option<usize>,
    pub heading: Heading,
    pub separator: Option<u8>,
    pub digits: Option<usize>,
    pub rule: Option<usize>,
    pub regime: Option<usize>,
    pub regimes: Option<usize>,
    pub order: Option<usize>,
    pub switching_variance: bool,
    pub max_iter: Option<usize>,
    pub tol: Option<f64>,
    pub starts: Option<usize>,
    pub as_reached: bool,
}

// What the command line asks for.
#[derive(Clone, Copy)]
pub struct Call {
    pub command: Command,
    pub options: Options,
}

// What the command line asks for, or what is at fault in it.
pub fn read(rt: &impl Env) -> Result<Call, Fault> {
    let count = host_io::arg_count(rt);
    if count > 64 {
        return Err(Fault::Call(b"more than 63 words"));
    }
    let mut words = Words::none();
    for i in 1..count {
        words.take(rt, i)?;
    }
    words.complete()
}

// Whether the word with this number is `-`, standard input.
pub fn is_input(rt: &impl Env, i: usize) -> bool {
    let mut word = host_io::buffer();
    let n = host_io::arg(rt, i, &mut word);
    matches!(&word[..n], b"-")
}
