// Numbers as lines of text, for the programs of the gate: 16 hexadecimal digits and a byte that ends them.
#![tactic(auto)]

ghost use Rattle.std.specs.Prelude.{◌≤◌, length, IfSome};

use std::io::Input;

// What the next line is: three ways with their names, plainer than Option<Option<u64>>.
#[derive(Clone, Copy)]
pub enum Line {
    Pattern(u64),
    Bad,
    End,
}

// The number that a line is, in 16 hexadecimal digits of either case.
fn pattern(text: &[u8; 17]) -> Option<u64> {
    let mut n: u64 = 0;
    for c in &text[..16] {
        n = (n << 4) | char::from(*c).to_digit(16)? as u64;
    }
    (text[16] == b'\n').then_some(n)
}

// The next line of standard input. One that the input's end cuts off has zeros for what is missing, and so is bad.
pub fn read(rt: &impl Input) -> Line {
    let mut text = [0u8; 17];
    if host_io::read_full(rt, &mut text) == 0 {
        return Line::End;
    }
    match pattern(&text) {
        Some(n) => Line::Pattern(n),
        None => Line::Bad,
    }
}

// Puts the next `count` numbers of the input into `out`, up to the first line that has none, and says how many it put.
pub fn numbers(rt: &impl Input, out: &mut [f64], count: usize) -> usize
    requires { count ≤ length out.old }
    ensures { result ≤ count }
{
    for (i, x) in out[..count].iter_mut().enumerate() {
        let Line::Pattern(n) = read(rt) else {
            return i;
        };
        *x = number::of_pattern(n);
    }
    count
}

// The next `count` numbers of the input, and zeros behind them; None where there are not as many, or no room for them.
pub fn filled<const N: usize>(rt: &impl Input, count: usize) -> Option<[f64; N]>
    ensures { IfSome result (λ _. count ≤ N) }
{
    if count > N {
        return None;
    }
    let mut out = [0.0; N];
    if numbers(rt, &mut out, count) < count {
        return None;
    }
    Some(out)
}

// Writes 16 digits and the byte that ends them, and says whether that went through.
pub fn write(rt: &impl Print, n: u64, end: u8) -> bool {
    host_io::print_hex(rt, n) && host_io::write_all(rt, &[end])
}

// Says that line n of the input, counted from 1, is none that the program takes.
pub fn bad_line(rt: &impl Print, n: u64) {
    host_io::write_all(rt, b"bad line ");
    host_io::print_decimal(rt, n);
    host_io::write_all(rt, b"\n");
}
