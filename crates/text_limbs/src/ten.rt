// Powers of ten, and limbs multiplied or divided by them.
ghost use Rattle.std.specs.Prelude.{◌≡◌, not, ◌*◌, ◌/◌, ◌%◌, ◌^◌, ◌<◌, eqb};
ghost use Rattle.text_limbs.specs.Limbs.{value};

use crate::Whole;

const TENS: [u64; 17] = [
    1,
    10,
    100,
    1_000,
    10_000,
    100_000,
    1_000_000,
    10_000_000,
    100_000_000,
    1_000_000_000,
    10_000_000_000,
    100_000_000_000,
    1_000_000_000_000,
    10_000_000_000_000,
    100_000_000_000_000,
    1_000_000_000_000_000,
    10_000_000_000_000_000,
];

// 10 ^ n
#[tactic(auto, using(crate::proofs::Tens::powers))]
pub fn power(n: usize) -> u64
    requires { n < 17 }
    ensures { result ≡ 10 ^ n }
{
    TENS[n]
}

// Multiplies by 10 ^ e, nine digits at a step.
#[tactic(auto, using(crate::proofs::Tens::raised_first, crate::proofs::Tens::raised_last, crate::proofs::Tens::small_power))]
pub fn multiply(n: &mut Whole, e: usize)
    requires { value n.old.limbs * 10 ^ e < 2 ^ 2304 }
    ensures { value n.new.limbs ≡ value n.old.limbs * 10 ^ e }
{
    for _ in 0..e / 9 {
        crate::times(n, 1_000_000_000);
    }
    crate::times(n, power(e % 9));
}

// Divides by 10 ^ e, and says whether there was a remainder.
#[tactic(auto, using(crate::proofs::Tens::lowered_first, crate::proofs::Tens::lowered_step, crate::proofs::Tens::lowered_last, crate::proofs::Tens::small_power))]
pub fn divide(n: &mut Whole, e: usize) -> bool
    ensures { (value n.new.limbs ≡ value n.old.limbs / 10 ^ e) × (result ≡ not (eqb (value n.old.limbs % 10 ^ e) 0)) }
{
    let mut rest = false;
    for _ in 0..e / 9 {
        let r = crate::over(n, 1_000_000_000);
        rest = rest | (r != 0);
    }
    let r = crate::over(n, power(e % 9));
    rest | (r != 0)
}
