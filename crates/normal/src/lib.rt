// The normal log density.
#![tactic(auto)]

ghost use Rattle.std.specs.Prelude.{◌≡◌};
ghost use Rattle.normal.specs.Normal.{lnpdf_of};

const MINUS_HALF: f64 = -0.5;

// ln (2 pi) / 2
const HALF_LN_TWO_PI: f64 = 0.91893853320467274178;

// The logarithm of the standard normal density at z.
pub fn lnpdf(z: f64) -> f64
    ensures { result ≡ lnpdf_of z }
{
    (MINUS_HALF * z) * z - HALF_LN_TWO_PI
}
