// The root of an f64, to the nearest f64. A guess in float arithmetic is verified in whole numbers, exactly; where it
// does not stand, and no input is known where it does not, the root is worked out digit by digit.
#![tactic(auto)]

ghost use Rattle.std.specs.Prelude.{◌≡◌, ◌+◌, ◌*◌, ◌%◌, ◌^◌, ◌<◌, ◌≤◌};
ghost use Rattle.number.specs.Number.{float};
ghost use Rattle.root.specs.Root.{root_pattern, root_square, root_of, IsRoot};
ghost use Rattle.root.specs.Steps.{RoundsTo};

// The whole number nearest to the root of m * 2 ^ 52, two binary digits of that number at a step: q is the root
// so far, rest what the digits so far are above its square, and low holds the digits to come at its top.
fn by_digits(m: u64) -> u64
    requires { (0 < m) × (m < 2 ^ 54) }
    ensures { RoundsTo (m * 2 ^ 52) result × (result ≤ 2 ^ 53) }
{
    let mut q: u64 = 0;
    let mut rest: u64 = 0;
    let mut low: u64 = m * 1024;
    for _ in 0..53u64 {
        let next = rest * 4 + low / 0x4000_0000_0000_0000;
        let trial = q * 4 + 1;
        low = low % 0x4000_0000_0000_0000 * 4;
        if trial <= next {
            rest = next - trial;
            q = q * 2 + 1;
        } else {
            rest = next;
            q = q * 2;
        }
    }
    if q < rest {
        return q + 1;
    }
    q
}

// A step of Newton's towards the reciprocal of a root: w is half the number.
fn closer(w: f64, y: f64) -> f64 {
    1.5 * y - w * y * (y * y)
}

// A guess at 2 ^ 52 times the root of v, the number from 1 to 4 with the pattern b: the root lies from 1/2 below the
// guess to 3/2 above it, as the last step takes 1/2 off. Only speed rests on this, and no proof.
fn guess(b: u64) -> u64
    requires { b < 0x7ff0_0000_0000_0000 }
    ensures { result < 2 ^ 54 }
{
    let v = f64::from_bits(b);
    let w = 0.5 * v;
    // the usual bit trick for a reciprocal root, about 3 percent off: halving the pattern halves the exponent
    let start = f64::from_bits(0x5fe6_eb50_c7b5_37a9 - b / 2);
    let y = closer(w, closer(w, closer(w, start)));
    let r = v * y;
    // less 2 ^ -53, half a unit in the last place of a number from 1 to 2, for `settled` tries the guess and the next number
    let below = r + ((v - r * r) * (0.5 * y) - 1.1102230246251565e-16);
    // 2 ^ 52 times a number from 1 to 2 is its pattern less 1022 * 2 ^ 52. Modulo 2 ^ 54 that adds 2 ^ 53, and what is no such
    // number stays below 2 ^ 54, which `settled` asks for
    (number::pattern(below) % 0x40_0000_0000_0000 + 0x20_0000_0000_0000) % 0x40_0000_0000_0000
}

// m * 2 ^ 52 - q * q, plus 2 ^ 54; or 0, where the two are far apart, which `settled` takes for out of reach with no test of its own. q * q is high * 2 ^ 52 + low.
fn excess(m: u64, q: u64) -> u64
    requires { (m < 2 ^ 54) × (q < 2 ^ 54) }
    ensures { (0 < result → result + q * q ≡ m * 2 ^ 52 + 2 ^ 54) × (result < 2 ^ 56) }
{
    let h = q / 0x400_0000;
    let l = q % 0x400_0000;
    let c = 2 * h * l;
    let high = h * h + c / 0x400_0000;
    let low = c % 0x400_0000 * 0x400_0000 + l * l;
    let e = std::num::wrapping_sub_u64(m + 2, high);
    if e > 8 {
        return 0;
    }
    (e + 2) * 0x10_0000_0000_0000 - low
}

// The whole number nearest to the root of m * 2 ^ 52: q or q + 1 where the excess says so, else by digits.
fn settled(m: u64, q: u64) -> u64
    requires { (0 < m) × (m < 2 ^ 54) × (q < 2 ^ 54) }
    ensures { RoundsTo (m * 2 ^ 52) result × (result ≤ 2 ^ 54) }
{
    let s = excess(m, q);
    if s + q > 0x40_0000_0000_0000 {
        if s <= 0x40_0000_0000_0000 + 3 * q + 2 {
            if s > 0x40_0000_0000_0000 + q {
                return q + 1;
            }
            return q;
        }
    }
    by_digits(m)
}

// The pattern of the root of sig * 2 ^ (ex - 2098)
fn root_scaled(sig: u64, ex: u64) -> u64
    requires { (2 ^ 52 ≤ sig) × (sig < 2 ^ 53) × (2 ≤ ex) × (ex < 4000) }
    ensures { result ≡ root_pattern (sig * 2 ^ (50 + ex)) }
{
    let odd = ex % 2;
    let q = guess(0x3fe0_0000_0000_0000 + odd * 0x10_0000_0000_0000 + sig);
    (ex / 2 - 1) * 0x10_0000_0000_0000 + settled(sig << odd, q)
}

// The pattern of the root of the finite number above zero whose pattern is b. Below 2 ^ -1022 the first digit is
// moved up to where it stands in the other numbers.
fn root_pattern(b: u64) -> u64
    requires { (0 < b) × (b < 0x7ff0_0000_0000_0000) }
    ensures { result ≡ root_pattern (root_square (float b)) }
{
    let mut sig = 0x10_0000_0000_0000 + b % 0x10_0000_0000_0000;
    let mut ex = b / 0x10_0000_0000_0000 + 1023;
    if b < 0x10_0000_0000_0000 {
        let s = (u64::leading_zeros(b) as u64) - 11;
        sig = b << s;
        ex = 1024 - s;
    }
    root_scaled(sig, ex)
}

// The root, to the nearest: IEEE 754's squareRoot.
pub fn root(x: f64) -> f64
    ensures { (result ≡ root_of x) × IsRoot x result }
{
    if x > 0.0 {
        let b = number::pattern(x);
        if b < 0x7ff0_0000_0000_0000 {
            return f64::from_bits(root_pattern(b));
        }
        return x;
    }
    if x == 0.0 {
        return x; // with its sign
    }
    f64::NAN
}
