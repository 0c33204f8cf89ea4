// Answers bit patterns with the root, the logarithm, the exponential and the normal log density, so that the gate compares
// them with an outside judge's. Standard input: lines of 16 hexadecimal digits, each a binary64. Standard output: for each a
// line `x root log exp lnpdf`, 16 digits each, every NaN as 7ff8000000000000; or `bad line N`, which ends the run.
#![tactic(auto)]

ghost use Rattle.std.specs.Prelude.{◌<◌, ◌^◌};

use run_hex::Line;
use std::io::Input;

// Writes the answer for the pattern n, and says whether that went through.
fn answer(rt: &impl Print, n: u64) -> bool {
    let x = number::of_pattern(n);
    run_hex::write(rt, number::pattern(x), b' ')
        && run_hex::write(rt, number::pattern(root::root(x)), b' ')
        && run_hex::write(rt, number::pattern(logarithm::log(x)), b' ')
        && run_hex::write(rt, number::pattern(exp::exp(x)), b' ')
        && run_hex::write(rt, number::pattern(normal::lnpdf(x)), b'\n')
}

// Answers the next line, after `before` lines, and says whether to go on.
fn next(rt: &(impl Print + Input), before: u64) -> bool
    requires { before < 2 ^ 40 }
{
    match run_hex::read(rt) {
        Line::End => false,
        Line::Bad => {
            run_hex::bad_line(rt, before + 1);
            false
        }
        Line::Pattern(n) => answer(rt, n),
    }
}

// A proved loop has to end, and nothing says that the input does: it stops after 2 ^ 40 lines, which no run reaches.
fn main(rt: HostRuntime) {
    for lines in 0..0x100_0000_0000 {
        if !next(&rt, lines) {
            return;
        }
    }
}
