// What a refusal of the library means to whoever wrote the MODEL or the SERIES. docs/REFUSALS.md has the same, longer.
use crate::put::{Figure, Text};
use host_io::EprintBytes;
use refusal::Refusal;
use std::fmt;
use std::fmt::{Display, Formatter, Write};

// A number as a message shows it.
fn shown(value: f64) -> Figure {
    Figure::of(value, 15)
}

// ---- pieces

// An entry of the transition table of k regimes, by its line and its place there, counted from 0 as regimes are.
fn of_entry<W: Write>(f: &mut Formatter<W>, e: usize, k: usize, x: f64) -> fmt::Result {
    if k == 0 {
        return write!(f, "an entry of the transition table is no probability");
    }
    write!(
        f,
        "the transition table's probability of regime {} after regime {} is {}, and a probability is from 0 to 1",
        e / k,
        e % k,
        shown(x)
    )
}

// Beside of_entry, and not one with it: other words for another table.
fn of_coefficient<W: Write>(f: &mut Formatter<W>, i: usize, order: usize, x: f64) -> fmt::Result {
    if order == 0 {
        return write!(f, "an AR coefficient is not finite");
    }
    write!(
        f,
        "on line `ar` {} number {} (both counted from 0) is {}, and has to be finite",
        i / order,
        i % order,
        shown(x)
    )
}

// The column is the regime, or for the AR coefficients the lag less one. Whose coefficients they are stands in the hint.
// Which system it is has a number in document 01, the place of refusal 21.
fn of_system<W: Write>(f: &mut Formatter<W>, which: usize, column: u8) -> fmt::Result {
    match which {
        0 => write!(
            f,
            "the stationary shares are not determined: among regimes 0 to {column} (counted from 0) the transition table has regimes, or groups of them, that are never left for each other; let each be left with a small probability, as 0.001; if a fit came to such a table, try another start or fewer regimes"
        ),
        1 => write!(
            f,
            "no data tell the mean of regime {column} (counted from 0) from the others: over the variances the readings say next to nothing of it; try smaller variances, fewer regimes or another start"
        ),
        _ => write!(
            f,
            "no data determine the AR coefficient of lag {}",
            column as usize + 1
        ),
    }
}

// ---- a refusal

// Of a model of so many regimes and this order.
#[derive(Drop)]
struct Meaning {
    refusal: Refusal,
    regimes: usize,
    order: usize,
}

impl Display for Meaning {
    fn fmt<W: Write>(&self, f: &mut Formatter<W>) -> fmt::Result {
        self.of_spec(f)
    }
}

impl Meaning {
    // Of the spec, the series or the memory; else of what follows.
    fn of_spec<W: Write>(&self, f: &mut Formatter<W>) -> fmt::Result {
        let refusal = self.refusal;
        match refusal {
            Refusal::FewRegimes(k) => write!(
                f,
                "a model has at least 2 regimes, and this one has {k}"
            ),
            Refusal::ManyWindows(k) => write!(
                f,
                "{k} regimes with this order have more than 256 windows (regimes to the power order + 1): lower the order"
            ),
            Refusal::ManyRegimes(k) => write!(
                f,
                "a model has at most 16 regimes, and this one has {k}"
            ),
            Refusal::ShortSeries(needed) => write!(
                f,
                "the series has too few readings for the order: at least {needed} are needed"
            ),
            Refusal::LongSeries(t) => write!(
                f,
                "the series has {t} readings, and 4096 are the most"
            ),
            Refusal::Reading(n) | Refusal::Memory(n) => write!(
                f,
                "so many readings and windows need more memory than the program has, {n} numbers: take fewer readings or a lower order (msar check says how many readings every command takes)"
            ),
            _ => self.of_counts(f),
        }
    }

    // Of the counts of the parameters.
    fn of_counts<W: Write>(&self, f: &mut Formatter<W>) -> fmt::Result {
        let refusal = self.refusal;
        match refusal {
            Refusal::FewMeans(count) => write!(
                f,
                "there are {count} means, and a model has at least 2"
            ),
            Refusal::Beyond(count) => write!(
                f,
                "there are more than 16 means, or the order is above 7: {count}"
            ),
            Refusal::Length(expected) => write!(
                f,
                "a count of numbers or lines does not fit the regimes and the order: expected {expected}"
            ),
            Refusal::NoAr => write!(f, "there is no line `ar`"),
            Refusal::Shape => write!(f, "the parameters do not have the spec's shape"),
            _ => self.of_numbers(f),
        }
    }

    // Of their numbers.
    fn of_numbers<W: Write>(&self, f: &mut Formatter<W>) -> fmt::Result {
        let refusal = self.refusal;
        match refusal {
            Refusal::Mean(i, x) => write!(
                f,
                "the mean of regime {i} is {}, and has to be finite",
                shown(x)
            ),
            Refusal::Transition(e, x) => of_entry(f, e, self.regimes, x),
            Refusal::Column(j, sum) => write!(
                f,
                "column {j} of the transition table (counted from 0) adds up to {}, and not to 1",
                shown(sum)
            ),
            Refusal::Ar(i, x) => of_coefficient(f, i, self.order, x),
            Refusal::Variance(i, x) => write!(
                f,
                "variance {i} is {} (counted from 0), and has to be finite and above 0",
                shown(x)
            ),
            Refusal::Share(i, x) => write!(
                f,
                "the stationary share of regime {i} is {}: not finite, or below 0; see that every regime can be reached from the others",
                shown(x)
            ),
            _ => self.of_run(f),
        }
    }

    // Of the run.
    fn of_run<W: Write>(&self, f: &mut Formatter<W>) -> fmt::Result {
        let refusal = self.refusal;
        match refusal {
            Refusal::Singular(which, column) => of_system(f, which, column),
            Refusal::OrderZero => write!(
                f,
                "a fit needs an order of at least 1: write `order 1` and `ar 0`, and EM finds the coefficient"
            ),
            Refusal::SampleVariance(x) => write!(
                f,
                "the sample variance of the readings is {}, and a fit needs readings that vary (and whose squares are finite)",
                shown(x)
            ),
            Refusal::OtherRule => write!(f, "there is no such rule: take 1 or 2"),
            _ => write!(f, "the log-likelihood is not finite"),
        }
    }
}

// A refusal of a model of k regimes and this order, with a hint behind it.
pub fn refused(rt: &impl EprintBytes, r: Refusal, k: usize, order: usize, hint: &[u8]) {
    let meaning = Meaning {
        refusal: r,
        regimes: k,
        order,
    };
    let mut out = Text::new();
    let _ = write!(out, "msar: refused {}: {meaning}", r.number());
    out.bytes(hint);
    out.say_line(rt);
}

// ---- a reading

// Reading t, which stands on this line, is refused: it is not finite, or no regime explains it.
pub fn reading(rt: &impl EprintBytes, r: Refusal, t: usize, line: u64, x: f64) {
    let mut out = Text::new();
    let _ = write!(
        out,
        "msar: refused {}: reading {t} (line {line}) is {}",
        r.number(),
        shown(x)
    );
    if let Refusal::Reading(_) = r {
        out.bytes(b", and a reading has to be finite");
    } else {
        out.bytes(
            b": no regime of the model explains it, its likelihood is 0 or not finite. If it was read wrongly, leave it out; if the driver is dead or muted, that is the verdict; else give the model a regime with such a mean, or larger variances",
        );
    }
    out.say_line(rt);
}
