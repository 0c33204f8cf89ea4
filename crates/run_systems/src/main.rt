// Answers linear systems, so that the gate compares `linsolve::solve` with the answers of the Rust that it was ported from.
// Standard input: for each system a line with n, n * n lines with the table, row by row, and n lines with the right-hand side;
// after an n above 16 no numbers come. Each line is 16 hexadecimal digits, n's too.
// Standard output: for each system a line `solved` and n lines with the unknowns, or `singular C` with the column, or
// `too large`, every NaN as 7ff8000000000000; or `bad line N`, which ends the run.
#![tactic(auto)]

ghost use Rattle.std.specs.Prelude.{◌≡◌, ◌≤◌, ◌<◌, ◌^◌, IfSome};

use linsolve::Unsolved;
use run_hex::Line;
use std::io::Input;

// Writes the first n unknowns, and says whether that went through.
fn unknowns(rt: &impl Print, x: &[f64; 16], n: usize) -> bool
    requires { n ≤ 16 }
{
    x[..n]
        .iter()
        .all(|v| run_hex::write(rt, number::pattern(*v), b'\n'))
}

// Writes the first n unknowns, and a line more where a place past them is not positive zero.
fn places(rt: &impl Print, x: &[f64; 16], n: usize) -> bool
    requires { n ≤ 16 }
{
    unknowns(rt, x, n)
        && (x[n..].iter().all(|v| number::pattern(*v) == 0)
            || host_io::write_all(rt, b"not zero past n\n"))
}

// Writes the column at which elimination stopped, and says whether that went through.
fn singular(rt: &impl Print, column: u8) -> bool {
    host_io::write_all(rt, b"singular ")
        && host_io::print_decimal(rt, column as u64)
        && host_io::write_all(rt, b"\n")
}

// Writes the answer to a system of n equations, and says whether that went through.
fn write(rt: &impl Print, answer: Result<[f64; 16], Unsolved>, n: usize) -> bool
    requires { n ≤ 16 }
{
    match answer {
        Ok(x) => host_io::write_all(rt, b"solved\n") && places(rt, &x, n),
        Err(Unsolved::Singular(column)) => singular(rt, column),
        Err(Unsolved::TooLarge) => host_io::write_all(rt, b"too large\n"),
    }
}

// The places that a table of n rows and columns takes.
fn cells(n: usize) -> usize
    requires { n ≤ 16 }
    ensures { result ≤ 256 }
{
    n * n
}

// Answers the system of n equations whose numbers come next, after `before` lines. Says how many lines are read then, or None
// where the run is over.
fn numbered(rt: &(impl Print + Input), n: usize, before: u64) -> Option<u64>
    requires { (n ≤ 16) × (before ≤ 2 ^ 40) }
    ensures { IfSome result (λ lines. before ≤ lines) }
{
    let mut a = [0.0; 256];
    let mut b = [0.0; 16];
    let in_table = run_hex::numbers(rt, &mut a, cells(n));
    if in_table < cells(n) {
        run_hex::bad_line(rt, before + in_table as u64 + 1);
        return None;
    }
    let in_side = run_hex::numbers(rt, &mut b, n);
    let after = before + (in_table + in_side) as u64;
    if in_side < n {
        run_hex::bad_line(rt, after + 1);
        return None;
    }
    if write(rt, linsolve::solve(a, b, n), n) {
        Some(after)
    } else {
        None
    }
}

// The same where n is above 16, and so no numbers come.
fn unnumbered(rt: &impl Print, n: usize, before: u64) -> Option<u64>
    ensures { IfSome result (λ lines. lines ≡ before) }
{
    if write(rt, linsolve::solve([0.0; 256], [0.0; 16], n), 0) {
        Some(before)
    } else {
        None
    }
}

// Answers the next system, after `before` lines. Says how many lines are read then, or None where the run is over.
fn system(rt: &(impl Print + Input), before: u64) -> Option<u64>
    requires { before < 2 ^ 40 }
    ensures { IfSome result (λ lines. before < lines) }
{
    match run_hex::read(rt) {
        Line::End => None,
        Line::Bad => {
            run_hex::bad_line(rt, before + 1);
            None
        }
        Line::Pattern(n) => {
            let size = n as usize;
            if size > 16 {
                unnumbered(rt, size, before + 1)
            } else {
                numbered(rt, size, before + 1)
            }
        }
    }
}

// A proved loop has to end, and nothing says that the input does: it stops after 2 ^ 40 lines, which no run reaches. No `for`, as
// each system takes lines of its own count.
fn main(rt: HostRuntime) {
    let mut lines: u64 = 0;
    while lines < 0x100_0000_0000 {
        let Some(after) = system(&rt, lines) else {
            return;
        };
        lines = after;
    }
}
