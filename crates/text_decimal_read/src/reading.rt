// What was read, as a number: the exact fraction, rounded once.
ghost use Rattle.std.specs.Prelude.{◌≡◌, ℕ, ◌+◌, ◌-◌, ◌*◌, ◌<◌, ◌^◌};
ghost use Rattle.std.specs.Float.{binary64};
ghost use Rattle.std.specs.Float.Ieee.{round, units};
ghost use Rattle.number.specs.Number.{float};
ghost use Rattle.text_limbs.specs.Remains.{CutBy};
ghost use Rattle.text_limbs.specs.Limbs.{value};
ghost use Rattle.text_decimal_grammar.specs.Room.{Room};
ghost use Rattle.text_decimal_read.specs.Text.{number_of, finish_at};
ghost use Rattle.text_decimal_read.specs.Normal.{Normal, sign_part};

use text_decimal_grammar::{Place, State};
use text_limbs::Whole;

// The number of the magnitude's pattern b, with its sign
fn signed(negative: bool, b: u64) -> f64
    requires { b < 2 ^ 63 }
    ensures { result ≡ float (sign_part negative + b) }
{
    if negative {
        return number::of_pattern(0x8000_0000_0000_0000 + b);
    }
    number::of_pattern(b)
}

// q * 2 ^ k units
#[tactic(auto, using(crate::proofs::Patterns::units_finite, crate::proofs::Patterns::units_infinite, crate::proofs::Patterns::infinity))]
fn float_at(negative: bool, q: u64, k: usize) -> f64
    requires { Normal q k × (k < 4000) }
    ensures { result ≡ units binary64 negative q k }
{
    let b = k as u64 * 0x10_0000_0000_0000 + q;
    if b < 0x7ff0_0000_0000_0000 {
        return signed(negative, b);
    }
    signed(negative, 0x7ff0_0000_0000_0000)
}

// The limbs hold a fraction times 2 ^ 1088, cut to a whole number; `rest` says whether something was cut off.
#[tactic(auto, using(crate::proofs::Nearby::normal, crate::proofs::Nearby::cut_fits, crate::proofs::Nearby::rounded_is))]
fn rounded(negative: bool, l: &Whole, rest: bool) -> f64
    requires { value l.now.limbs < 2 ^ 2200 }
    ensures { (num den : ℕ) → 0 < den → CutBy (num * 2 ^ 1088) den (value l.now.limbs) rest → result ≡ round binary64 negative num den }
{
    // Of more than 67 digits the last are dropped: 53 are kept, and 14 stand below the smallest unit.
    let k = text_limbs::digits(l).saturating_sub(67);
    let c = text_limbs::cut_off(l, k + 13);
    let q = text_limbs::halved(c.whole, rest | c.rest);
    float_at(negative, q, k)
}

#[tactic(auto, using(crate::proofs::Scaled::product_fits, crate::proofs::Scaled::product_cut))]
fn product(negative: bool, digits: u64, e: usize) -> f64
    requires { e < 310 }
    ensures { result ≡ round binary64 negative (digits * 10 ^ e) 1 }
{
    let mut l = text_limbs::placed(digits, 1088);
    text_limbs::ten::multiply(&mut l, e);
    rounded(negative, &l, false)
}

#[tactic(auto, using(crate::proofs::Scaled::quotient_fits))]
fn quotient(negative: bool, digits: u64, e: usize) -> f64
    ensures { result ≡ round binary64 negative digits (10 ^ e) }
{
    let mut l = text_limbs::placed(digits, 1088);
    let rest = text_limbs::ten::divide(&mut l, e);
    rounded(negative, &l, rest)
}

// digits * 10 ^ up / 10 ^ down. From 10 ^ 310 on that is an infinity; and 2 ^ 64 / 10 ^ 344 is below half of the smallest number.
#[tactic(auto, using(crate::proofs::Patterns::infinity, crate::proofs::Patterns::nothing_left, crate::proofs::Scaled::none, crate::proofs::Scaled::up_only, crate::proofs::Scaled::down_only, crate::proofs::Scaled::large, crate::proofs::Scaled::small))]
fn fraction(negative: bool, digits: u64, up: usize, down: usize) -> f64
    ensures { result ≡ round binary64 negative (digits * 10 ^ up) (10 ^ down) }
{
    if digits == 0 {
        return signed(negative, 0);
    }
    if down <= up {
        let e = up - down;
        if e < 310 {
            return product(negative, digits, e);
        }
        return signed(negative, 0x7ff0_0000_0000_0000);
    }
    let e = down - up;
    if e < 344 {
        return quotient(negative, digits, e);
    }
    signed(negative, 0)
}

#[tactic(auto, unfolding(crate::specs::Text::number_of))]
fn number_of(s: State) -> f64
    requires { Room s }
    ensures { result ≡ number_of s }
{
    if s.under {
        return fraction(s.negative, s.digits, s.up, s.down + s.exponent);
    }
    fraction(s.negative, s.digits, s.up + s.exponent, s.down)
}

// The number at the end of a text of n bytes, or that it ends too early.
#[tactic(auto, using(crate::proofs::Patterns::infinity, crate::proofs::Patterns::not_a_number), unfolding(crate::specs::Text::finish_at))]
pub fn finish(s: State, n: usize) -> Result<f64, usize>
    requires { Room s }
    ensures { result ≡ finish_at s.place s n }
{
    match s.place {
        Place::Zero | Place::Whole | Place::Fraction | Place::Exponent => Ok(number_of(s)),
        Place::Inf => Ok(signed(s.negative, 0x7ff0_0000_0000_0000)),
        Place::Nan => Ok(f64::NAN),
        Place::Hex(16) => Ok(number::of_pattern(s.digits)),
        Place::Start
        | Place::Sign
        | Place::Point
        | Place::Mark
        | Place::MarkSign
        | Place::I
        | Place::In
        | Place::N
        | Place::Na
        | Place::Hex(_) => Err(n),
    }
}
