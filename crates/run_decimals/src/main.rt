// Reads decimal numbers and writes them again, so that the gate compares both ways with C's strtod and printf.
// Standard input: lines of 95 bytes and the byte that ends them, each a number and spaces after it. Standard output: for each a
// line `pattern text short`, the pattern of the number as 16 hexadecimal digits (every NaN as 7ff8000000000000), the text that is
// written of it, and the short one; or `wrong N`, N the place of the first byte at fault. The short texts have 0 to 18 digits in turn,
// 0 on the first line, where 0 counts as 1 and 18 as 17.
#![tactic(auto)]

ghost use Rattle.std.specs.Prelude.{◌≤◌};

use std::io::Input;

// How many bytes of the line there are before the first space.
fn text_length(line: &[u8; 96]) -> usize
    ensures { result ≤ 95 }
{
    line[..95].iter().position(|c| *c == b' ').unwrap_or(95)
}

fn answer_number(rt: &impl Print, x: f64) -> bool {
    run_hex::write(rt, number::pattern(x), b' ')
        && host_io::write_all(rt, text_decimal_write::write(x).as_slice())
}

fn answer_short(rt: &impl Print, x: f64, digits: usize) -> bool {
    host_io::write_all(rt, b" ")
        && host_io::write_all(rt, text_decimal_short::short(x, digits).as_slice())
        && host_io::write_all(rt, b"\n")
}

fn answer_wrong(rt: &impl Print, at: usize) -> bool {
    host_io::write_all(rt, b"wrong ")
        && host_io::print_decimal(rt, at as u64)
        && host_io::write_all(rt, b"\n")
}

// Answers the next line, its short text with so many digits, and says whether to go on.
fn next(rt: &(impl Print + Input), digits: usize) -> bool {
    let mut line = [0u8; 96];
    if host_io::read_full(rt, &mut line) != 96 {
        return false;
    }
    let n = text_length(&line);
    match text_decimal_read::read(&line[..n]) {
        Ok(x) => answer_number(rt, x) && answer_short(rt, x, digits),
        Err(at) => answer_wrong(rt, at),
    }
}

// A proved loop has to end, and nothing says that the input does: it stops after 2 ^ 40 lines, which no run reaches.
fn main(rt: HostRuntime) {
    for lines in 0..0x100_0000_0000u64 {
        if !next(&rt, (lines % 19) as usize) {
            return;
        }
    }
}
