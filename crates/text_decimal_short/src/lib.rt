// A number as text for people to read: at most n significant digits, laid out as C's printf lays out `%.*g`.
#![tactic(auto)]

ghost use Rattle.std.specs.Prelude.{◌≡◌, ◌++◌, ◌+◌, ◌-◌, ◌^◌, ◌≤◌, ◌<◌};
ghost use Rattle.std.specs.Float.Ieee.Nearest.{closest};
ghost use Rattle.arrayvec.specs.ArrayVec.{array_vec_len};
ghost use Rattle.text_decimal_short.specs.Short.{rounded_to, fraction_text, pointed_text, exponent_text, scientific, laid_out, short_of};

use text_decimal_write::{Decimal, Text, Written};

// ---- the digits

// v / 10 ^ n to the nearest whole number, at a tie the even one
#[tactic(auto, using(crate::proofs::Rounding::power_pos, crate::proofs::Rounding::power_fits, crate::proofs::Rounding::nearest_all, crate::proofs::Rounding::nearest_half))]
fn nearest(v: u64, n: usize) -> u64
    requires { n < 17 }
    ensures { result ≡ closest v (10 ^ n) }
{
    if n == 0 {
        return v;
    }
    let half = 5 * text_limbs::ten::power(n - 1);
    text_limbs::halved(v / half, v % half != 0)
}

// The 17 digits rounded to n. All nines are carried into one digit more.
#[tactic(auto, using(crate::proofs::Rounding::power_fits, crate::proofs::Rounding::carried_up, crate::proofs::Rounding::carried_none), unfolding(crate::specs::Short::rounded_to))]
fn rounded(d: Decimal, n: usize) -> Decimal
    requires { (0 < n) × (n ≤ 17) × (d.tens < 1000) }
    ensures decimal { result ≡ rounded_to n d }
    ensures tens { result.tens < 1001 }
{
    let q = nearest(d.digits, 17 - n);
    let least = text_limbs::ten::power(n - 1);
    if q == 10 * least {
        return Decimal {
            digits: least,
            tens: d.tens + 1,
        };
    }
    Decimal { digits: q, ..d }
}

// ---- the layout

// The last k digits of v behind a point, without the zeros at the end.
#[tactic(auto, using(crate::proofs::Styles::fraction_next, crate::proofs::Styles::fraction_found, crate::proofs::Styles::fraction_none))]
fn push_fraction(text: &mut Text, v: u64, k: usize)
    requires { array_vec_len text.old + k < 32 }
    ensures items { text.new.items ≡ text.old.items ++ fraction_text k v }
    ensures len { array_vec_len text.new ≤ array_vec_len text.old + k + 1 }
{
    let mut rest = v;
    for left in (0..k).rev() {
        if rest % 10 != 0 {
            text.push(b'.');
            text_decimal_write::push_digits(text, rest, left + 1);
            return;
        }
        rest /= 10;
    }
}

// `whole` digits before the point, and the last k digits of v behind it
#[tactic(auto, using(crate::proofs::Styles::pointed_joined))]
fn push_pointed(text: &mut Text, v: u64, whole: usize, k: usize)
    requires { array_vec_len text.old + whole + k < 32 }
    ensures items { text.new.items ≡ text.old.items ++ pointed_text whole k v }
    ensures len { array_vec_len text.new ≤ array_vec_len text.old + whole + k + 1 }
{
    text_decimal_write::push_digits(text, text_decimal_write::cut(v, k), whole);
    push_fraction(text, v, k);
}

// At least two digits of the exponent
#[tactic(auto, using(crate::proofs::Styles::exponent_two, crate::proofs::Styles::exponent_three))]
fn push_exponent(text: &mut Text, tens: usize)
    requires { (array_vec_len text.old ≤ 27) × (tens < 1001) }
    ensures { text.new.items ≡ text.old.items ++ exponent_text tens }
{
    let n = if tens.abs_diff(324) < 100 { 2 } else { 3 };
    text_decimal_write::push_exponent(text, tens, n);
}

#[tactic(auto, using(crate::proofs::Styles::scientific_joined))]
fn push_scientific(text: &mut Text, d: Decimal, n: usize)
    requires { (array_vec_len text.old ≤ 1) × (0 < n) × (n ≤ 17) × (d.tens < 1001) }
    ensures { text.new.items ≡ text.old.items ++ scientific n d }
{
    push_pointed(text, d.digits, 1, n - 1);
    push_exponent(text, d.tens);
}

#[tactic(auto, using(crate::proofs::Styles::whole_is, crate::proofs::Styles::whole_room, crate::proofs::Styles::laid_small, crate::proofs::Styles::laid_fixed, crate::proofs::Styles::laid_large))]
fn push_laid_out(text: &mut Text, d: Decimal, n: usize)
    requires { (array_vec_len text.old ≤ 1) × (0 < n) × (n ≤ 17) × (d.tens < 1001) }
    ensures { text.new.items ≡ text.old.items ++ laid_out n d }
{
    if d.tens < 320 {
        return push_scientific(text, d, n);
    }
    if d.tens < n + 324 {
        // In fixed notation one digit stands before the point at least.
        let whole = d.tens.saturating_sub(323).max(1);
        return push_pointed(text, d.digits, whole, n + 323 - d.tens);
    }
    push_scientific(text, d, n);
}

// ---- the number

// The text of a number for people to read: at most n significant digits, n from 1 to 17.
#[tactic(auto, using(crate::proofs::Styles::allowed_is, crate::proofs::Styles::text_some, crate::proofs::Styles::text_none), unfolding(crate::specs::Short::short_of))]
pub fn short(x: f64, n: usize) -> Written
    ensures { result ≡ short_of x n }
{
    let n = n.clamp(1, 17);
    let (mut text, decimal) = text_decimal_write::opening(x);
    if let Some(d) = decimal {
        push_laid_out(&mut text, rounded(d, n), n);
    }
    Written::of(&text)
}
