// The parameters as C hands them in: six counts, and the numbers of the four arrays one after the other.
ghost use Rattle.std.specs.Prelude.{◌≡◌, ◌+◌, ◌≤◌, length};
ghost use Rattle.c_layout.specs.Layout.{part, params_of};

use params::MsarParams;

// N numbers from place `start` on.
fn part<const N: usize>(numbers: &[f64], start: usize) -> [f64; N]
    requires { start + N ≤ length numbers.now }
    ensures { result ≡ part start N numbers.now }
{
    let mut copied = [0.0; N];
    number::copy(&numbers[start..], N, &mut copied, 0);
    copied
}

// Any counts: the library checks them.
pub fn params_of(counts: &[usize; 6], numbers: &[f64; 400]) -> MsarParams
    ensures { result ≡ params_of counts.now numbers.now }
{
    MsarParams {
        transition: part(numbers, 0),
        means: part(numbers, 256),
        ar: part(numbers, 272),
        variances: part(numbers, 384),
        means_count: counts[0],
        transition_count: counts[1],
        ar_blocks: counts[2],
        order: counts[3],
        ar_count: counts[4],
        variances_count: counts[5],
    }
}
