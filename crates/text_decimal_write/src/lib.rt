// The decimal of 17 digits nearest to an f64, and its text.
#![tactic(auto)]

ghost use Rattle.std.specs.Prelude.{◌≡◌, ◌++◌, ℕ, ◌+◌, ◌-◌, ◌*◌, ◌/◌, ◌%◌, ◌≤◌, ◌<◌, ◌^◌, take, IfSome};
ghost use Rattle.std.specs.Float.Ieee.Nearest.{closest};
ghost use Rattle.text_limbs.specs.Remains.{CutBy};
ghost use Rattle.text_limbs.specs.Limbs.{value};
ghost use Rattle.arrayvec.specs.ArrayVec.{array_vec_len};
ghost use Rattle.text_decimal_write.specs.Decimals.{settled, decimal_of, units_decimal, digits_text, decimal_text, written, written_of};
ghost use Rattle.text_decimal_write.specs.Room.{guess_of, units_of, exponent_digits, opening, finite_decimal};

use arrayvec::ArrayVec;
use text_limbs::Whole;

// digits * 10 ^ (tens - 340)
#[derive(Clone, Copy)]
pub struct Decimal {
    pub digits: u64,
    pub tens: usize,
}

// A text of at most 32 bytes
pub type Text = ArrayVec<u8, 32>;

// The first `length` bytes are the text, and zeros stand behind it.
#[derive(Clone, Copy)]
pub struct Written {
    pub bytes: [u8; 32],
    pub length: usize,
}

impl Written {
    // A text that is put together
    #[tactic(auto, using(crate::proofs::Bytes::zeros_behind), unfolding(crate::specs::Decimals::written))]
    pub fn of(text: &Text) -> Written
        ensures { result ≡ written text.now.items }
    {
        let length = text.len();
        let mut bytes = [0u8; 32];
        bytes[..length].copy_from_slice(text.as_slice());
        Written { bytes, length }
    }

    // The text alone
    pub fn as_slice(&self) -> &[u8]
        ensures { result.now ≡ take self.now.length self.now.bytes }
    {
        &self.bytes[..self.length.min(32)]
    }
}

// For a number of z binary digits: its tens, or one less.
fn guess(z: usize) -> usize
    requires { z < 2305 }
    ensures { result ≡ guess_of z }
{
    (z * 30_103 + 39_000) / 100_000
}

// The limbs times 10 ^ 340 over 10 ^ t, cut to a whole number; whether something was cut off
fn scale(l: &mut Whole, t: usize) -> bool
    requires { value l.old.limbs * 10 ^ (340 - t) < 2 ^ 2304 }
    ensures { CutBy (value l.old.limbs * 10 ^ (340 - t)) (10 ^ (t - 340)) (value l.new.limbs) result }
{
    if t <= 340 {
        text_limbs::ten::multiply(l, 340 - t);
        return false;
    }
    text_limbs::ten::divide(l, t - 340)
}

// The limbs hold a fraction times 2 ^ 1074, cut to a whole number.
#[tactic(auto, using(crate::proofs::Seventeen::nearest_is))]
fn nearest(l: &Whole, rest: bool, t: usize) -> Decimal
    requires { (value l.now.limbs / 2 ^ 1073 < 2 ^ 63) × (t < 1000) }
    ensures { (num den : ℕ) → 0 < den → CutBy num den (value l.now.limbs) rest → result ≡ settled (closest num (den * 2 ^ 1074)) t }
{
    let c = text_limbs::cut_off(l, 1073);
    let digits = text_limbs::halved(c.whole, rest | c.rest);
    if digits == 100_000_000_000_000_000 {
        return Decimal {
            digits: 10_000_000_000_000_000,
            tens: t + 1,
        };
    }
    Decimal { digits, tens: t }
}

// The decimal of sig * 2 ^ place units
fn decimal_of(sig: u64, place: usize) -> Decimal
    requires { (0 < sig) × (sig < 2 ^ 53) × (place < 2046) }
    ensures { result ≡ decimal_of (sig * 2 ^ place) }
{
    let mut l = text_limbs::placed(sig, place);
    let t = guess(text_limbs::digits(&l));
    let rest = scale(&mut l, t);
    let c = text_limbs::cut_off(&l, 1074);
    if c.whole < 100_000_000_000_000_000 {
        return nearest(&l, rest, t);
    }
    let r = text_limbs::over(&mut l, 10);
    nearest(&l, rest | (r != 0), t + 1)
}

// The decimal of a finite magnitude, by its pattern b.
#[tactic(auto, using(crate::proofs::Magnitudes::zero_decimal, crate::proofs::Magnitudes::small_decimal, crate::proofs::Magnitudes::large_decimal, crate::proofs::Magnitudes::tens_few))]
pub fn of_magnitude(b: u64) -> Decimal
    requires { b < 0x7ff0_0000_0000_0000 }
    ensures decimal { result ≡ units_decimal (units_of b) }
    ensures tens { result.tens < 1000 }
{
    match b {
        0 => Decimal {
            digits: 0,
            tens: 324,
        },
        1..=0xf_ffff_ffff_ffff => decimal_of(b, 0),
        _ => {
            let sig = 0x10_0000_0000_0000 + b % 0x10_0000_0000_0000;
            let place = (b / 0x10_0000_0000_0000 - 1) as usize;
            decimal_of(sig, place)
        }
    }
}

// v / 10 ^ n, cut to a whole number
#[tactic(auto, using(text_limbs::proofs::Tens::ten_pos, crate::proofs::Bytes::cut_twice))]
pub fn cut(v: u64, n: usize) -> u64
    requires { n ≤ 32 }
    ensures { result ≡ v / 10 ^ n }
{
    if n <= 16 {
        return v / text_limbs::ten::power(n);
    }
    v / 10_000_000_000_000_000 / text_limbs::ten::power(n - 16)
}

fn push_word(text: &mut Text, word: &[u8; 3])
    requires { array_vec_len text.old ≤ 1 }
    ensures { text.new.items ≡ text.old.items ++ word.now }
{
    text.try_extend_from_slice(word).unwrap();
}

// n digits of v
pub fn push_digits(text: &mut Text, v: u64, n: usize)
    requires { array_vec_len text.old + n ≤ 32 }
    ensures items { text.new.items ≡ text.old.items ++ digits_text n v }
    ensures len { array_vec_len text.new ≡ array_vec_len text.old + n }
{
    for left in (0..n).rev() {
        text.push(b'0' + (cut(v, left) % 10) as u8);
    }
}

// The exponent of a number whose first digit has the weight 10 ^ (tens - 324), with n digits
pub fn push_exponent(text: &mut Text, tens: usize, n: usize)
    requires { array_vec_len text.old + n ≤ 30 }
    ensures items { text.new.items ≡ text.old.items ++ exponent_digits n tens }
    ensures len { array_vec_len text.new ≡ array_vec_len text.old + 2 + n }
{
    text.push(b'e');
    text.push(if tens < 324 { b'-' } else { b'+' });
    push_digits(text, tens.abs_diff(324) as u64, n);
}

#[tactic(auto, using(crate::proofs::Bytes::three_digits, crate::proofs::Bytes::decimal_joined))]
fn push_decimal(text: &mut Text, d: Decimal)
    requires { (array_vec_len text.old ≤ 1) × (d.tens < 1000) }
    ensures { text.new.items ≡ text.old.items ++ decimal_text d }
{
    push_digits(text, d.digits / 10_000_000_000_000_000, 1);
    text.push(b'.');
    push_digits(text, d.digits % 10_000_000_000_000_000, 16);
    push_exponent(text, d.tens, 3);
}

// Of a number's text `nan`, or the sign, and `inf`; and the decimal that is to come where it is finite.
#[tactic(auto, using(crate::proofs::Magnitudes::opening_nan, crate::proofs::Magnitudes::opening_inf, crate::proofs::Magnitudes::opening_finite))]
pub fn opening(x: f64) -> (Text, Option<Decimal>)
    ensures text { result.0.items ≡ opening x }
    ensures decimal { result.1 ≡ finite_decimal x }
    ensures tens { IfSome result.1 (λ d. d.tens < 1000) }
    ensures room { IfSome result.1 (λ d. array_vec_len result.0 ≤ 1) }
{
    let b = number::pattern(x);
    let magnitude = b % 0x8000_0000_0000_0000;
    let mut text = Text::new();
    if magnitude > 0x7ff0_0000_0000_0000 {
        push_word(&mut text, b"nan");
        return (text, None);
    }
    if b >= 0x8000_0000_0000_0000 {
        text.push(b'-');
    }
    if magnitude == 0x7ff0_0000_0000_0000 {
        push_word(&mut text, b"inf");
        return (text, None);
    }
    (text, Some(of_magnitude(magnitude)))
}

// The text of a number: 17 digits, or `inf`, `-inf`, `nan`.
#[tactic(auto, using(crate::proofs::Magnitudes::text_some, crate::proofs::Magnitudes::text_none), unfolding(crate::specs::Decimals::written_of))]
pub fn write(x: f64) -> Written
    ensures { result ≡ written_of x }
{
    let (mut text, decimal) = opening(x);
    if let Some(d) = decimal {
        push_decimal(&mut text, d);
    }
    Written::of(&text)
}
