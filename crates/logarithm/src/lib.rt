// The natural logarithm, after fdlibm 5.3's e_log.c. Its k is a - base here: a is the exponent's field, base its bias.
//
// Reduction: x = 2^k (1 + f) with 1 + f from the root of 1/2 to the root of 2.
// Polynomial: with s = f / (2 + f), log (1 + f) = log (1 + s) - log (1 - s) = 2 s + s R, where R is even in s. Lg1 to Lg7 fit it,
// Lg1 s^2 + .. + Lg7 s^14, with an error below 2^-58; so log (1 + f) = f - s (f - R), or f - (f^2/2 - s (f^2/2 + R)) near the ends of that range.
// Sum: k ln 2 is added in two parts, LN2_HI with so few digits that k times it is exact.
// Error: below one unit in the last place, as fdlibm states it. What is proved is that each operation is fdlibm's.
#![tactic(auto)]

ghost use Rattle.std.specs.Prelude.{◌≡◌};
ghost use Rattle.logarithm.specs.Log.{dk_of, log_poly, log_close, log_mid, log_out, log_far, log_normal, log_of};

// Lg1 to Lg7
const LOG_L: [f64; 7] = [
    6.666666666666735130e-01,
    3.999999999940941908e-01,
    2.857142874366239149e-01,
    2.222219843214978396e-01,
    1.818357216161805012e-01,
    1.531383769920937332e-01,
    1.479819860511658591e-01,
];

// ln 2 in two parts: the digits of the first end early, so that k times it is exact
const LN2_HI: f64 = 6.93147180369123816490e-01;

const LN2_LO: f64 = 1.90821492927058770002e-10;

const TWO54: f64 = 1.80143985094819840000e+16;

const MINUS_TWO54: f64 = -1.80143985094819840000e+16;

// k as a number: both parts are whole and small, so the difference is exact, and no branch on its sign is needed
fn shift(a: u32, base: u32) -> f64
    ensures { result ≡ dk_of a base }
{
    a as f64 - base as f64
}

// |f| at most 2 ^ -20: three terms of the series are enough
fn log_close(f: f64, a: u32, base: u32) -> f64
    ensures { result ≡ log_close f a base }
{
    if f == 0.0 {
        if a == base {
            return 0.0;
        }
        let dk = shift(a, base);
        return dk * LN2_HI + dk * LN2_LO;
    }
    let r = f * f * (0.5 - 0.33333333333333333 * f);
    if a == base {
        return f - r;
    }
    let dk = shift(a, base);
    dk * LN2_HI - (r - dk * LN2_LO - f)
}

// t2 + t1: the odd and the even terms apart, so that neither waits for the other
fn log_poly(z: f64) -> f64
    ensures { result ≡ log_poly z }
{
    let w = z * z;
    let t1 = w * (LOG_L[1] + w * (LOG_L[3] + w * LOG_L[5]));
    let t2 = z * (LOG_L[0] + w * (LOG_L[2] + w * (LOG_L[4] + w * LOG_L[6])));
    t2 + t1
}

// The significand before halving between 1.38 and 1.42, where f * f / 2 is taken apart: its rounding would count there.
fn log_mid(f: f64, s: f64, r: f64, a: u32, base: u32) -> f64
    ensures { result ≡ log_mid f s r a base }
{
    let hfsq = 0.5 * f * f;
    if a == base {
        return f - (hfsq - s * (hfsq + r));
    }
    let dk = shift(a, base);
    dk * LN2_HI - (hfsq - (s * (hfsq + r) + dk * LN2_LO) - f)
}

fn log_out(f: f64, s: f64, r: f64, a: u32, base: u32) -> f64
    ensures { result ≡ log_out f s r a base }
{
    if a == base {
        return f - s * (f - r);
    }
    let dk = shift(a, base);
    dk * LN2_HI - (s * (f - r) - dk * LN2_LO - f)
}

// by m, the high 20 bits of the significand; `|`, so that both ends of the range are one test, rarely mispredicted
fn log_far(f: f64, m: u64, a: u32, base: u32) -> f64
    ensures { result ≡ log_far f m a base }
{
    let s = f / (2.0 + f);
    let r = log_poly(s * s);
    if (m < 0x6147a) | (m > 0x6b851) {
        return log_out(f, s, r, a, base);
    }
    log_mid(f, s, r, a, base)
}

// b is the pattern of a finite number above zero that is not subnormal; j is 1 where it is halved
fn log_normal(b: u64, base: u32) -> f64
    ensures { result ≡ log_normal b base }
{
    let m = b / 0x1_0000_0000 % 0x10_0000;
    let j = (m + 0x95f64) / 0x10_0000;
    let f = f64::from_bits((0x3ff - j) * 0x10_0000_0000_0000 + b % 0x10_0000_0000_0000) - 1.0;
    let a = (b / 0x10_0000_0000_0000 + j) as u32;
    if (m + 2) % 0x10_0000 < 3 {
        return log_close(f, a, base);
    }
    log_far(f, m, a, base)
}

// The natural logarithm: -infinity at zeros, a NaN below zero and of a NaN, infinity of infinity.
pub fn log(x: f64) -> f64
    ensures { result ≡ log_of x }
{
    if x.is_nan() {
        return x + x;
    }
    let mut b = x.to_bits();
    // 54 where x is subnormal and was multiplied by 2 ^ 54
    let mut scaled = 0;
    // one test sets apart all that is no normal number above zero
    if (b < 0x10_0000_0000_0000) | (b >= 0x7ff0_0000_0000_0000) {
        if b % 0x8000_0000_0000_0000 == 0 {
            return MINUS_TWO54 / 0.0;
        }
        if b >= 0x8000_0000_0000_0000 {
            return (x - x) / 0.0;
        }
        if b >= 0x7ff0_0000_0000_0000 {
            return x + x;
        }
        b = number::pattern(x * TWO54);
        scaled = 54;
    }
    // the sum stands here, after the two ways meet: else LLVM makes this call two calls, and inlines neither
    log_normal(b, 1023 + scaled)
}
