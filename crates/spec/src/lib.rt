// The specification of a model, and its window count.
#![tactic(auto)]

ghost use Rattle.std.specs.Prelude.{◌≡◌};
ghost use Rattle.spec.specs.Spec.{window_count};

use refusal::Refusal;

#[derive(Clone, Copy, PartialEq, Eq)]
pub struct MsarSpec {
    pub k_regimes: usize,
    pub order: usize,
    pub switching_ar: bool,
    pub switching_variance: bool,
}

// k ^ (order + 1), for every k and order: it stops at the first power above 256, so no product wraps.
fn window_count(k: usize, order: usize) -> Result<usize, Refusal>
    ensures { result ≡ window_count k order }
{
    if k < 2 {
        return Err(Refusal::FewRegimes(k));
    }
    if k > 256 {
        return Err(Refusal::ManyWindows(k));
    }
    let mut m = k;
    for _ in 0..order {
        m = m * k;
        if m > 256 {
            return Err(Refusal::ManyWindows(k));
        }
    }
    if k > 16 {
        return Err(Refusal::ManyRegimes(k));
    }
    Ok(m)
}

impl MsarSpec {
    // The number of windows, or refusal 1, 2 or 3.
    pub fn expanded_states(self) -> Result<usize, Refusal>
        ensures { result ≡ window_count self.k_regimes self.order }
    {
        window_count(self.k_regimes, self.order)
    }
}
