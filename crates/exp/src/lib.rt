// The exponential, after fdlibm 5.3's e_exp.c. Its k is n here, or -n for an x below zero.
//
// Reduction: x = k ln 2 + r with |r| at most ln 2 / 2. ln 2 stands in two parts, LN2_HI with so few digits that k times it is exact;
// r is kept as hi - lo.
// Polynomial: r (e^r + 1) / (e^r - 1) is even in r. P1 to P5 fit it on that range, 2 + P1 r^2 + .. + P5 r^10, with an error below
// 2^-59; so e^r = 1 + r + r c / (2 - c), where c = r - (P1 r^2 + .. + P5 r^10).
// Scaling: k is added to the exponent of e^r; below -1021 in two steps, since the result may be subnormal.
// Error: below one unit in the last place, as fdlibm states it. What is proved is that each operation is fdlibm's.
#![tactic(auto)]

ghost use Rattle.std.specs.Prelude.{◌≡◌, true, false, ◌<◌};
ghost use Rattle.std.specs.Float.Ieee.{is_nan, lt, to_unsigned};
ghost use Rattle.rounding.specs.Bounds.{Within, From};
ghost use Rattle.exp.specs.Range.{Split, Sized};
ghost use Rattle.exp.specs.Exp.{over_at, exp_poly, exp_zero, exp_part, exp_far, exp_near, exp_reduce, exp_large, exp_of};

const EXP_P: [f64; 5] = [
    1.66666666666666019037e-01,
    -2.77777777770155933842e-03,
    6.61375632143793436117e-05,
    -1.65339022054652515390e-06,
    4.13813679705723846039e-08,
];

// for an x above zero, and for one below
const HALF: [f64; 2] = [0.5, -0.5];

const LN2_HI: [f64; 2] = [6.93147180369123816490e-01, -6.93147180369123816490e-01];

const LN2_LO: [f64; 2] = [1.90821492927058770002e-10, -1.90821492927058770002e-10];

const INV_LN2: f64 = 1.44269504088896338700e+00;

const EXP_OVER: f64 = 7.09782712893383973096e+02;

const EXP_UNDER: f64 = -7.45133219101941108420e+02;

const TWO_M1000: f64 = 9.33263618503218878990e-302;

fn exp_poly(t: f64) -> f64
    ensures { result ≡ exp_poly t }
{
    t * (EXP_P[0] + t * (EXP_P[1] + t * (EXP_P[2] + t * (EXP_P[3] + t * EXP_P[4]))))
}

fn exp_zero(x: f64) -> f64
    ensures { result ≡ exp_zero x }
{
    let c = x - exp_poly(x * x);
    1.0 - ((x * c) / (c - 2.0) - x)
}

fn exp_part(hi: f64, lo: f64) -> f64
    ensures { result ≡ exp_part hi lo }
{
    let x = hi - lo;
    let c = x - exp_poly(x * x);
    1.0 - ((lo - (x * c) / (2.0 - c)) - hi)
}

// The whole part of v: its digits less those behind the point.
fn whole_part(v: f64) -> u64
    requires { From false v 1 2 × Within v 2239 2 }
    ensures { result ≡ to_unsigned 64 v }
{
    let b = v.to_bits();
    (0x10_0000_0000_0000 + b % 0x10_0000_0000_0000) >> (1075 - b / 0x10_0000_0000_0000)
}

// Up and down are two functions: the one adds to the exponent, the other takes from it, near zero in two steps.

// x at least 1.5 ln 2. It is not above the overflow threshold, so that the last pattern is infinity's at most, and no NaN's.
fn exp_up(x: f64) -> f64
    requires { Sized false x × (lt over_at x ≡ false) }
    ensures { result ≡ exp_far x 0 }
{
    let n = whole_part(INV_LN2 * x + HALF[0]);
    let t = number::of_whole(n);
    let y = exp_part(x - t * LN2_HI[0], t * LN2_LO[0]);
    f64::from_bits(y.to_bits() + n * 0x10_0000_0000_0000)
}

// x at most -1.5 ln 2: the usual argument of a density
fn exp_down(x: f64) -> f64
    requires { Sized true x }
    ensures { result ≡ exp_far x 1 }
{
    let n = whole_part(-(INV_LN2 * x + HALF[1]));
    let t = -number::of_whole(n);
    let y = exp_part(x - t * LN2_HI[0], t * LN2_LO[0]);
    let b = y.to_bits();
    if n <= 1021 {
        return f64::from_bits(b - n * 0x10_0000_0000_0000);
    }
    f64::from_bits(b - (n - 1000) * 0x10_0000_0000_0000) * TWO_M1000
}

// |x| between 0.5 ln 2 and 1.5 ln 2: one is added to the exponent, or taken from it
fn exp_near(x: f64, hx: u64, s: usize) -> f64
    requires { Split x hx s × (0x3fd6_2e42 < hx) × (hx < 0x3ff0_a2b2) }
    ensures { result ≡ exp_near x s }
{
    let y = exp_part(x - LN2_HI[s], LN2_LO[s]);
    f64::from_bits(y.to_bits() + 0x10_0000_0000_0000 - (s as u64) * 0x20_0000_0000_0000)
}

fn exp_reduce(x: f64, hx: u64, s: usize) -> f64
    requires { Split x hx s × Within x 746 1 × (lt over_at x ≡ false) }
    ensures { result ≡ exp_reduce x hx s }
{
    if hx > 0x3fd62e42 {
        if hx < 0x3ff0a2b2 {
            return exp_near(x, hx, s);
        }
        if s == 0 {
            return exp_up(x);
        }
        return exp_down(x);
    }
    if hx < 0x3e300000 {
        return 1.0 + x;
    }
    exp_zero(x)
}

// |x| at least 709.78
fn exp_large(x: f64, hx: u64, s: usize) -> f64
    requires { Split x hx s × (is_nan x ≡ false) }
    ensures { result ≡ exp_large x hx s }
{
    if hx >= 0x7ff00000 {
        if s == 0 {
            return x;
        }
        return 0.0;
    }
    if x > EXP_OVER {
        return 1.0e300 * 1.0e300;
    }
    if x < EXP_UNDER {
        return TWO_M1000 * TWO_M1000;
    }
    exp_reduce(x, hx, s)
}

// e to the power x: +0 at -infinity, infinity of infinity, a NaN of a NaN.
pub fn exp(x: f64) -> f64
    ensures { result ≡ exp_of x }
{
    if x.is_nan() {
        return x + x;
    }
    let b = x.to_bits();
    let hx = b % 0x8000_0000_0000_0000 / 0x1_0000_0000;
    let s = (b / 0x8000_0000_0000_0000) as usize;
    if hx >= 0x40862e42 {
        return exp_large(x, hx, s);
    }
    exp_reduce(x, hx, s)
}
