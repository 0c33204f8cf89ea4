// What the constructor builds: the places that are not used become +0.
ghost use Rattle.std.specs.Prelude.{◌≡◌, ◌≤◌, replicate};
ghost use Rattle.number.specs.Number.{zero⁺};
ghost use Rattle.number.specs.Table.{◌!◌, fill_at};
ghost use Rattle.refusal.specs.Checks.{Passed};
ghost use Rattle.params.specs.Checks.{parameter_check};
ghost use Rattle.params.specs.Built.{tidied, tidy};

use crate::MsarParams;

// The first n places, and +0 in the others.
fn first_places<const N: usize>(given: &[f64; N], n: usize) -> [f64; N]
    requires { n ≤ N }
    ensures { result ≡ tidied N n given.now }
{
    let mut kept = [0.0; N];
    number::copy(given, n, &mut kept, 0);
    kept
}

pub fn tidied(q: MsarParams) -> MsarParams
    requires { parameter_check q ≡ Passed }
    ensures { result ≡ tidy q }
{
    MsarParams {
        transition: first_places(&q.transition, q.transition_count),
        means: first_places(&q.means, q.means_count),
        ar: first_places(&q.ar, q.ar_count),
        variances: first_places(&q.variances, q.variances_count),
        means_count: q.means_count,
        transition_count: q.transition_count,
        ar_blocks: q.ar_blocks,
        order: q.order,
        ar_count: q.ar_count,
        variances_count: q.variances_count,
    }
}
