// The best fit of several starts: the MODEL, and recipes of msar_start.
use fit::Fitted;
use host_io::EprintBytes;
use msar_say::put::Figure;
use params::MsarParams;
use refusal::Refusal;
use std::fmt::Write;

// The fit that is kept, and the number of its start.
#[derive(Clone, Copy)]
pub struct Best {
    pub fit: Fitted,
    pub number: usize,
}

// Whether the refusal is of what was handed in, so that no other start can help.
fn is_handed_in(refusal: Refusal, q: MsarParams) -> bool {
    matches!(
        refusal,
        Refusal::FewRegimes(_)
            | Refusal::ManyWindows(_)
            | Refusal::ManyRegimes(_)
            | Refusal::ShortSeries(_)
            | Refusal::LongSeries(_)
            | Refusal::Reading(_)
            | Refusal::Memory(_)
            | Refusal::Shape
            | Refusal::OrderZero
            | Refusal::SampleVariance(_)
    ) || q.check().is_err()
}

// Whether the new fit takes the place of the one kept.
fn is_better(kept: Result<Best, Refusal>, new: Fitted) -> bool {
    let Ok(best) = kept else {
        return true;
    };
    let old = best.fit;
    let now = msar_start::is_collapsed(new.params);
    let before = msar_start::is_collapsed(old.params);
    msar_start::is_better(new.loglik, now, old.loglik, before)
}

// How far it is, on standard error.
fn told(rt: &impl EprintBytes, number: usize, starts: usize, reached: Result<Fitted, Refusal>) {
    let mut out = msar_say::note_begun();
    let _ = write!(out, "start {number} of {starts}");
    let Ok(f) = reached else {
        out.bytes(b" came to no fit");
        return out.say_line(rt);
    };
    let loglik = Figure::of(f.loglik, 10);
    let _ = write!(out, ": log-likelihood {loglik}");
    if msar_start::is_collapsed(f.params) {
        out.bytes(b", a regime has collapsed on a few readings");
    }
    out.say_line(rt);
}

// The start with this number, of the shape of q.
fn recipe(number: usize, y: &[f64], q: MsarParams) -> MsarParams {
    msar_start::recipe(
        number,
        y,
        q.means_count,
        q.order,
        q.switching_variance(),
        q.ar_blocks,
    )
}

// The best of so many starts, of which q is the first, or its refusal; each is fitted by `fit`.
pub fn of<F: FnMut(MsarParams) -> Result<Fitted, Refusal>>(
    rt: &impl EprintBytes,
    starts: usize,
    y: &[f64],
    q: MsarParams,
    mut fit: F,
) -> Result<Best, Refusal>
    requires { F.IsAlwaysCallable fit }
{
    let first = fit(q);
    let mut kept = first.map(|reached| Best {
        fit: reached,
        number: 0,
    });
    if starts < 2 {
        return kept;
    }
    if let Err(refusal) = first
        && is_handed_in(refusal, q)
    {
        return kept;
    }
    told(rt, 0, starts, first);
    for number in 1..starts {
        let new = fit(recipe(number, y, q));
        told(rt, number, starts, new);
        if let Ok(reached) = new
            && is_better(kept, reached)
        {
            kept = Ok(Best {
                fit: reached,
                number,
            });
        }
    }
    kept
}
