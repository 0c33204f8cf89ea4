// The smoother over the rows in work memory, from the last back to the first, each in the place of its filtered row.
#![tactic(auto)]

ghost use Rattle.std.specs.Prelude.{◌≡◌, ℕ, suc, ◌+◌, ◌*◌, ◌^◌, ◌<◌, ◌≤◌, length, drop};
ghost use Rattle.number.specs.Table.{fill_at};
ghost use Rattle.params.specs.Parameters.{k, p};
ghost use Rattle.smoother.specs.Steps.{sum_after, Sharing, shared_sum, scaled_at, blockwise, smoothed_in};
ghost use Rattle.smoother.specs.InMemory.{SmoothedRows};

use params::MsarParams;
use window::Sizes;

// The sum over the successors of a window with label s now, those with a prediction not above zero skipped. They stand
// at `base` in the next row, whose smoothed and predicted weights begin the two slices.
fn sum_after(
    transition: &[f64; 256],
    smoothed: &[f64],
    predicted: &[f64],
    s: usize,
    k: usize,
    base: usize,
) -> f64
    requires { (s < k) × (k ≤ 16) × (base + k ≤ length smoothed.now) × (base + k ≤ length predicted.now) }
    ensures { result ≡ sum_after k transition.now smoothed.now predicted.now base s }
{
    let mut acc = 0.0;
    for r in 0..k {
        let d = predicted[base + r];
        if d > 0.0 {
            acc = acc + smoothed[base + r] * transition[r * k + s] / d;
        }
    }
    acc
}

// How windows share sums: windows c, c + count, .. share one, over the successors from c * stride on. A row has `blocks`
// times `count` windows.
#[derive(Clone, Copy)]
struct Shared {
    sizes: Sizes,
    count: usize,
    stride: usize,
    blocks: usize,
    ghost sharing: { Sharing sizes.k sizes.power count stride blocks },
}

impl Shared {
    // Windows with the same newest `order` labels have the same successors and the same label now, and share a sum. At
    // order 0 all have the same successors, but each its own label now.
    fn of(sizes: Sizes) -> Shared
        ensures { result.sizes ≡ sizes }
    {
        if sizes.power == 1 {
            return Shared {
                sizes,
                count: sizes.k,
                stride: 0,
                blocks: 1,
            };
        }
        Shared {
            sizes,
            count: sizes.power,
            stride: sizes.k,
            blocks: sizes.k,
        }
    }
}

// The shared sums, by the next row's smoothed and predicted weights.
fn sums_after(
    transition: &[f64; 256],
    smoothed: &[f64],
    predicted: &[f64],
    shared: Shared,
    sums: &mut [f64; 256],
)
    requires { (shared.sizes.windows ≤ length smoothed.now) × (shared.sizes.windows ≤ length predicted.now) }
    ensures { sums.new ≡ fill_at 0 (shared_sum shared.sizes.k shared.stride transition.now smoothed.now predicted.now) shared.count sums.old }
{
    let k = shared.sizes.k;
    let mut s = 0;
    for c in 0..shared.count {
        sums[c] = sum_after(transition, smoothed, predicted, s, k, c * shared.stride);
        s = window::next_label(s, k);
    }
}

// One block of windows, each weight times its sum.
fn scale_block(sums: &[f64; 256], count: usize, at: usize, work: &mut [f64])
    requires { (count ≤ 256) × (at + count ≤ length work.old) }
    ensures { work.new ≡ fill_at at (scaled_at sums.now (drop at work.old)) count work.old }
{
    for c in 0..count {
        work[at + c] *= sums[c];
    }
}

// A row, block by block.
fn scale_row(sums: &[f64; 256], shared: Shared, at: usize, work: &mut [f64])
    requires { at + shared.sizes.windows ≤ length work.old }
    ensures { work.new ≡ fill_at at (blockwise shared.count sums.now (drop at work.old)) shared.sizes.windows work.old }
{
    for x in 0..shared.blocks {
        scale_block(sums, shared.count, at + x * shared.count, work);
    }
}

// The filtered row from `at` on becomes the smoothed one. The next row's smoothed weights follow it, its predicted ones
// stand from `ahead` on.
fn smooth_row(
    transition: &[f64; 256],
    shared: Shared,
    at: usize,
    ahead: usize,
    sums: &mut [f64; 256],
    work: &mut [f64],
)
    requires { (at + 2 * shared.sizes.windows ≤ length work.old) × (ahead + shared.sizes.windows ≤ length work.old) }
    ensures { work.new ≡ fill_at at (smoothed_in shared.sizes.k shared.sizes.windows shared.count shared.stride transition.now at ahead work.old) shared.sizes.windows work.old }
{
    let next = at + shared.sizes.windows;
    sums_after(transition, &work[next..], &work[ahead..], shared, sums);
    scale_row(sums, shared, at, work);
}

// The smoothed rows, in the place of the filtered ones.
pub fn smooth(q: &MsarParams, sizes: Sizes, n: usize, work: &mut [f64])
    requires sizes_value { (sizes.k ≡ k q.now) × (sizes.order ≡ p q.now) }
    requires rows { (0 < n) × (2 * (n * sizes.windows) ≤ length work.old) }
    ensures { SmoothedRows q.now n work.old work.new }
{
    let m = sizes.windows;
    let shared = Shared::of(sizes);
    let mut sums = [0.0; 256];
    for i in (0..n - 1).rev() {
        smooth_row(
            &q.transition,
            shared,
            i * m,
            n * m + i * m + m,
            &mut sums,
            work,
        );
    }
}
