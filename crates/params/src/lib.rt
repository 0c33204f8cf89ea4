// The parameters of a model, and the checks of document 01 on them.
#![tactic(auto)]

ghost use Rattle.std.specs.Prelude.{◌≡◌, ◌≤◌};
ghost use Rattle.params.specs.Parameters.{k, p, switches, matches_spec};
ghost use Rattle.params.specs.Checks.{parameter_check};
ghost use Rattle.params.specs.Durations.{sixteen, durations_of};
ghost use Rattle.params.specs.Built.{built_of};

use refusal::Refusal;
use spec::MsarSpec;

mod checks;
pub mod tidy;

// As a caller hands them in: arrays of which as many places are used as the counts say, counts that the checks refuse where they
// are wrong. k is the count of means. AR
// coefficients come in blocks of `order`; they switch with the regime exactly where there is not one block, and so the
// variance.
#[derive(Clone, Copy)]
pub struct MsarParams {
    pub transition: [f64; 256],
    pub means: [f64; 16],
    pub ar: [f64; 112],
    pub variances: [f64; 16],
    pub means_count: usize,
    pub transition_count: usize,
    pub ar_blocks: usize,
    pub order: usize,
    pub ar_count: usize,
    pub variances_count: usize,
}

impl MsarParams {
    // The constructor: the parts come as a record, because they are ten. It holds +0 in the places that are not used.
    pub fn new(given: MsarParams) -> Result<MsarParams, Refusal>
        ensures { result ≡ built_of given }
    {
        given.check()?;
        Ok(tidy::tidied(given))
    }

    pub fn k_regimes(self) -> usize
        ensures { result ≡ k self }
    {
        self.means_count
    }

    pub fn order(self) -> usize
        ensures { result ≡ p self }
    {
        self.order
    }

    pub fn switching_ar(self) -> bool
        ensures { result ≡ switches self.ar_blocks }
    {
        self.ar_blocks != 1
    }

    pub fn switching_variance(self) -> bool
        ensures { result ≡ switches self.variances_count }
    {
        self.variances_count != 1
    }

    // The spec that the parameters fit.
    fn shape(self) -> MsarSpec
        ensures { result ≡ record { k_regimes = k self; order = p self; switching_ar = switches self.ar_blocks; switching_variance = switches self.variances_count } }
    {
        MsarSpec {
            k_regimes: self.means_count,
            order: self.order,
            switching_ar: self.switching_ar(),
            switching_variance: self.switching_variance(),
        }
    }

    // It only compares.
    pub fn matches_spec(self, s: MsarSpec) -> bool
        ensures { result ≡ matches_spec s self }
    {
        self.shape() == s
    }

    // The checks of document 01, in its order. The counts are tested before they are used.
    pub fn check(self) -> Result<(), Refusal>
        ensures { result ≡ parameter_check self }
    {
        if self.means_count < 2 {
            return Err(Refusal::FewMeans(self.means_count));
        }
        if self.means_count > 16 {
            return Err(Refusal::Beyond(self.means_count));
        }
        if self.order > 7 {
            return Err(Refusal::Beyond(self.order));
        }
        checks::means(self)?;
        checks::transition(self)?;
        checks::ar(self)?;
        checks::variances(self)
    }

    // 1 / (1 - P[i][i]) for each label, +infinity where it stays for ever; after the checks.
    pub fn expected_durations(self) -> Result<[f64; 16], Refusal>
        ensures { result ≡ durations_of self }
    {
        self.check()?;
        Ok(stays(self))
    }
}

// The first k places are 1 / (1 - P[i][i]), the others +0.
fn stays(q: MsarParams) -> [f64; 16]
    requires { k q ≤ 16 }
    ensures { result ≡ sixteen q }
{
    let n = q.means_count;
    let mut values = [0.0; 16];
    for i in 0..n {
        values[i] = 1.0 / (1.0 - checks::step(q, i, i));
    }
    values
}
