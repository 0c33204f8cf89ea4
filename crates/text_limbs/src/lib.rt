// Whole numbers below 2 ^ 2304, in 72 limbs of 32 binary digits, the lowest first: what decimals of every binary64 need.
#![tactic(auto)]

ghost use Rattle.std.specs.Prelude.{◌≡◌, not, ◌+◌, ◌-◌, ◌*◌, ◌/◌, ◌%◌, ◌^◌, ◌<◌, ◌≤◌, ◌↔◌, eqb, get_or, drop, slice_index, EachIndex, IsTrue, IfNone, IfSome};
ghost use Rattle.std.specs.Float.Ieee.{size};
ghost use Rattle.text_limbs.specs.Limbs.{value, Limbs};
ghost use Rattle.text_limbs.specs.Remains.{halved_of};

pub mod ten;

// A whole number below 2 ^ 2304. Each limb has 32 binary digits.
#[derive(Clone, Copy)]
pub struct Whole {
    pub limbs: [u64; 72],
    pub ghost small: { Limbs limbs },
}

// A number without its lowest digits, and whether one of those was not zero.
#[derive(Clone, Copy)]
pub struct Cut {
    pub whole: u64,
    pub rest: bool,
}

// 2 ^ n
fn two_to(n: usize) -> u64
    requires { n < 32 }
    ensures { result ≡ 2 ^ n }
{
    1u64 << n
}

// v * 2 ^ place
pub fn placed(v: u64, place: usize) -> Whole
    requires { place < 2240 }
    ensures { value result.limbs ≡ v * 2 ^ place }
{
    let i = place / 32;
    let p = two_to(place % 32);
    let low = v % 0x1_0000_0000 * p;
    let high = v / 0x1_0000_0000 * p + low / 0x1_0000_0000;
    let mut limbs = [0u64; 72];
    limbs[i] = low % 0x1_0000_0000;
    limbs[i + 1] = high % 0x1_0000_0000;
    limbs[i + 2] = high / 0x1_0000_0000;
    Whole { limbs }
}

// Multiplies by m, and returns what does not fit.
#[tactic(auto, using(crate::proofs::Multiply::first, crate::proofs::Multiply::last, crate::proofs::Multiply::sum_fits))]
pub fn times(n: &mut Whole, m: u64) -> u64
    requires { m < 2 ^ 32 }
    ensures { value n.new.limbs + 2 ^ 2304 * result ≡ value n.old.limbs * m }
{
    let mut carry: u64 = 0;
    for x in n.limbs.iter_mut() {
        let t = *x * m + carry;
        *x = t % 0x1_0000_0000;
        carry = t / 0x1_0000_0000;
    }
    carry
}

// Divides by m, and returns the remainder.
#[tactic(auto, using(crate::proofs::Divide::last, crate::proofs::Divide::sum_less))]
pub fn over(n: &mut Whole, m: u64) -> u64
    requires { (0 < m) × (m < 2 ^ 32) }
    ensures { (value n.old.limbs ≡ value n.new.limbs * m + result) × (result < m) }
{
    let mut rest: u64 = 0;
    // an index, not iter_mut().rev(): tried, and the proof didn't close, since nothing there names what was written
    for i in (0..72).rev() {
        let t = rest * 0x1_0000_0000 + n.limbs[i];
        n.limbs[i] = t / m;
        rest = t % m;
    }
    rest
}

// The highest limb that is not zero
#[tactic(auto, using(crate::proofs::Top::zero_value, crate::proofs::Top::zero_above))]
fn highest(n: &Whole) -> Option<usize>
    ensures none { IfNone result (value n.now.limbs ≡ 0) }
    ensures some { IfSome result (λ i. (i < 72) × (value (drop (i + 1) n.now.limbs) ≡ 0) × (0 < get_or n.now.limbs i 0)) }
{
    n.limbs.iter().rposition(|limb| *limb != 0)
}

// How many binary digits the number has.
#[tactic(auto, using(crate::proofs::Length::digits_are, crate::proofs::Length::size_zero))]
pub fn digits(n: &Whole) -> usize
    ensures { result ≡ size (value n.now.limbs) }
{
    match highest(n) {
        Some(i) => 32 * i + 64 - n.limbs[i].leading_zeros() as usize,
        None => 0,
    }
}

// Whether all of some limbs are zero.
fn all_zero(limbs: &[u64]) -> bool
    ensures { IsTrue result ↔ EachIndex limbs.now (λ k. slice_index limbs.now k ≡ 0) }
{
    limbs.iter().all(|x| *x == 0)
}

// The number without its lowest g digits.
pub fn cut_off(n: &Whole, g: usize) -> Cut
    requires { (g < 2240) × (value n.now.limbs / 2 ^ g < 2 ^ 64) }
    ensures { (result.whole ≡ value n.now.limbs / 2 ^ g) × (result.rest ≡ not (eqb (value n.now.limbs % 2 ^ g) 0)) }
{
    let l = &n.limbs;
    let i = g / 32;
    let p = two_to(g % 32);
    let high = l[i + 2] * 0x1_0000_0000 + l[i + 1];
    let whole = high * (0x1_0000_0000 / p) + l[i] / p;
    let rest = l[i] % p != 0 || !all_zero(&l[..i]);
    Cut { whole, rest }
}

// whole / 2 to the nearest whole number, where `rest` says that something was cut off; at a tie the even one
#[tactic(auto, unfolding(crate::specs::Remains::halved_of))]
pub fn halved(whole: u64, rest: bool) -> u64
    ensures { result ≡ halved_of whole rest }
{
    let q = whole / 2;
    if whole % 2 == 0 {
        return q;
    }
    if rest {
        return q + 1;
    }
    q + q % 2
}
