// Refusals by name, document 01's and those of document 02. specs/Refusals.antt gives each its number, its place and its value.
#![tactic(auto)]

ghost use Rattle.std.specs.Prelude.{◌≡◌};
ghost use Rattle.refusal.specs.Refusals.{said, saying};
ghost use Rattle.refusal.specs.Checks.{◌before◌};

#[derive(Clone, Copy)]
pub enum Refusal {
    FewRegimes(usize),
    ManyWindows(usize),
    ManyRegimes(usize),
    ShortSeries(usize),
    LongSeries(usize),
    Reading(usize),
    Memory(usize),
    FewMeans(usize),
    Beyond(usize),
    Mean(usize, f64),
    Length(usize),
    Transition(usize, f64),
    Column(usize, f64),
    NoAr,
    Ar(usize, f64),
    Variance(usize, f64),
    Shape,
    Singular(usize, u8),
    Share(usize, f64),
    Likelihood(usize),
    OrderZero,
    SampleVariance(f64),
    Loglike,
    OtherRule,
}

// What a refusal says: its number in document 01 or 02, the place and the value that it carries, zero where it carries none, as
// the C interface hands them out.
#[derive(Clone, Copy)]
pub struct Said {
    pub number: usize,
    pub place: usize,
    pub value: f64,
}

// The first refusal of two checks.
pub fn first_of(first: Result<(), Refusal>, second: Result<(), Refusal>) -> Result<(), Refusal>
    ensures { result ≡ (first before second) }
{
    first?;
    second
}

fn saying(number: usize, place: usize, value: f64) -> Said
    ensures { result ≡ saying number place value }
{
    Said {
        number,
        place,
        value,
    }
}

impl Refusal {
    pub fn said(self) -> Said
        ensures { result ≡ said self }
    {
        match self {
            Refusal::FewRegimes(k) => saying(1, k, 0.0),
            Refusal::ManyWindows(k) => saying(2, k, 0.0),
            Refusal::ManyRegimes(k) => saying(3, k, 0.0),
            Refusal::ShortSeries(needed) => saying(4, needed, 0.0),
            Refusal::LongSeries(t) => saying(5, t, 0.0),
            Refusal::Reading(i) => saying(6, i, 0.0),
            Refusal::Memory(needed) => saying(7, needed, 0.0),
            Refusal::FewMeans(count) => saying(10, count, 0.0),
            Refusal::Beyond(count) => saying(18, count, 0.0),
            Refusal::Mean(i, v) => saying(11, i, v),
            Refusal::Length(expected) => saying(12, expected, 0.0),
            Refusal::Transition(e, v) => saying(13, e, v),
            Refusal::Column(j, v) => saying(14, j, v),
            Refusal::NoAr => saying(17, 0, 0.0),
            Refusal::Ar(i, v) => saying(15, i, v),
            Refusal::Variance(i, v) => saying(16, i, v),
            Refusal::Shape => saying(20, 0, 0.0),
            Refusal::Singular(which, column) => saying(21, which, column as f64),
            Refusal::Share(i, v) => saying(22, i, v),
            Refusal::Likelihood(row) => saying(23, row, 0.0),
            Refusal::OrderZero => saying(24, 0, 0.0),
            Refusal::SampleVariance(v) => saying(25, 0, v),
            Refusal::Loglike => saying(26, 0, 0.0),
            Refusal::OtherRule => saying(29, 0, 0.0),
        }
    }

    // The number in document 01 or 02.
    pub fn number(self) -> usize
        ensures { result ≡ (said self).number }
    {
        self.said().number
    }

    // The place that it carries, 0 where it carries none.
    pub fn place(self) -> usize
        ensures { result ≡ (said self).place }
    {
        self.said().place
    }

    // The value that it carries, +0 where it carries none.
    pub fn value(self) -> f64
        ensures { result ≡ (said self).value }
    {
        self.said().value
    }
}
