// Start models for the EM steps, worked out from a series, and which of two fits is kept. Recipe number i splits the readings into k groups
// and takes the parameters from the groups. Of the recipes 0 to 119 each is another one. Ported from oracle/starts/start.py, operation by
// operation. Every call is safe; what it gives has a meaning where 2 <= k, the readings are finite, at least 2k and more than p, and not
// all equal.
#![tactic(auto)]

ghost use Rattle.std.specs.Prelude.{◌≤◌, length};

use params::MsarParams;
use values::Groups;

mod steps;
mod values;

// The parameters of the recipe, once the sizes are within bounds.
fn bounded(
    i: usize,
    y: &[f64],
    k: usize,
    p: usize,
    switching_variance: bool,
    blocks: usize,
) -> MsarParams
    requires { (length y.now ≤ 4096) × (k ≤ 16) × (p ≤ 7) × (blocks ≤ 16) }
{
    let mut labels = [0; 4096];
    let means = msar_start_groups::split(y, k, i, &mut labels);
    let groups = Groups {
        y,
        labels: &labels[..y.len()],
        means: &means,
    };
    let ar = groups.coefficients(i, p);
    let ar = &ar[..p];
    let ar_count = blocks * p;
    MsarParams {
        transition: steps::transition(i, groups.labels, k),
        means,
        ar: values::repeated(ar, ar_count),
        variances: groups.variances(k, ar, switching_variance),
        means_count: k,
        transition_count: k * k,
        ar_blocks: blocks,
        order: p,
        ar_count,
        variances_count: if switching_variance { k } else { 1 },
    }
}

// Recipe number i for k regimes and order p: parameters worked out from the series.
pub fn recipe(
    i: usize,
    y: &[f64],
    k: usize,
    p: usize,
    switching_variance: bool,
    ar_blocks: usize,
) -> MsarParams {
    let n = y.len().min(4096);
    bounded(
        i,
        &y[..n],
        k.min(16),
        p.min(7),
        switching_variance,
        ar_blocks.min(16),
    )
}

// ---- which of two fits is kept

// A regime that has drawn itself together on a few readings: its variance is below 1e-3 of the largest one. With switching variances the
// likelihood has no bound there, so that the log-likelihood says nothing.
pub fn is_collapsed(q: MsarParams) -> bool {
    let variances = q.variances;
    let mut largest = variances[0];
    let mut smallest = variances[0];
    for variance in &variances[..q.variances_count.min(16)] {
        if *variance > largest {
            largest = *variance;
        }
        if *variance < smallest {
            smallest = *variance;
        }
    }
    smallest < 0.001 * largest
}

// Whether the new fit takes the place of the one kept: one that has not collapsed before one that has, then by the log-likelihood. Equal
// ones leave the earlier.
pub fn is_better(new_loglik: f64, new_collapsed: bool, loglik: f64, was_collapsed: bool) -> bool {
    if new_collapsed != was_collapsed {
        return was_collapsed;
    }
    new_loglik > loglik
}
