// The options that take a value, and their values.
use crate::Options;
use crate::fault::Fault;

// A column's word is looked up when the heading is read; here its place among the arguments is kept.
#[derive(Clone, Copy)]
pub enum Valued {
    Column,
    Keep,
    Separator,
    Tol,
    Whole(Whole),
}

// Those whose value is a whole number.
#[derive(Clone, Copy)]
pub enum Whole {
    Digits,
    Rule,
    Regime,
    Regimes,
    Order,
    MaxIter,
    Starts,
}

pub fn option_of(word: &[u8]) -> Option<Valued> {
    match word {
        b"--column" => Some(Valued::Column),
        b"--keep" => Some(Valued::Keep),
        b"--separator" => Some(Valued::Separator),
        b"--tol" => Some(Valued::Tol),
        b"--digits" => Some(Valued::Whole(Whole::Digits)),
        b"--rule" => Some(Valued::Whole(Whole::Rule)),
        b"--regime" => Some(Valued::Whole(Whole::Regime)),
        b"--regimes" => Some(Valued::Whole(Whole::Regimes)),
        b"--order" => Some(Valued::Whole(Whole::Order)),
        b"--max-iter" => Some(Valued::Whole(Whole::MaxIter)),
        b"--starts" => Some(Valued::Whole(Whole::Starts)),
        _ => None,
    }
}

impl Whole {
    // Of the numbers below 1000000000.
    fn takes(self, n: usize) -> bool {
        match self {
            Whole::Digits => matches!(n, 1..=17),
            Whole::Rule => matches!(n, 1..=2),
            Whole::Regime => n < 16,
            Whole::Regimes => matches!(n, 2..=16),
            Whole::Order => matches!(n, 1..=7),
            Whole::MaxIter => true,
            Whole::Starts => matches!(n, 1..=100),
        }
    }

    fn what_it_takes(self) -> &'static [u8] {
        match self {
            Whole::Digits => b"--digits takes a whole number from 1 to 17, and not ",
            Whole::Rule => b"--rule takes 1 or 2, and not ",
            Whole::Regime => b"--regime takes a regime's number, from 0 on, and not ",
            Whole::Regimes => b"--regimes takes a whole number from 2 to 16, and not ",
            Whole::Order => {
                b"--order takes a whole number from 1 to 7 (a fit needs one of at least 1), and not "
            }
            Whole::MaxIter => b"--max-iter takes a whole number below 1000000000, and not ",
            Whole::Starts => b"--starts takes a whole number from 1 to 100, and not ",
        }
    }
}

fn tol(word: &[u8], i: usize) -> Result<f64, Fault> {
    text_decimal_read::read(word).map_err(|_| Fault::Word(b"--tol takes a number, and not ", i))
}

fn separator(word: &[u8], i: usize) -> Result<u8, Fault> {
    match word {
        b"," => Ok(b','),
        b";" => Ok(b';'),
        b"tab" => Ok(b'\t'),
        _ => Err(Fault::Word(b"--separator takes `,`, `;` or `tab`, and not ", i)),
    }
}

fn number_of(option: Whole, word: &[u8], i: usize) -> Result<usize, Fault> {
    text_words::whole(word)
        .filter(|n| option.takes(*n))
        .ok_or(Fault::Word(option.what_it_takes(), i))
}

fn once(given: Option<usize>, twice: &'static [u8]) -> Result<(), Fault> {
    if given.is_some() {
        return Err(Fault::Call(twice));
    }
    Ok(())
}

impl Options {
    // The rule decides which numbers come out, so a second one is not passed over.
    fn set_whole(&mut self, option: Whole, word: &[u8], i: usize) -> Result<(), Fault> {
        if let Whole::Rule = option {
            once(self.rule, b"--rule is given twice")?;
        }
        let n = Some(number_of(option, word, i)?);
        match option {
            Whole::Digits => self.digits = n,
            Whole::Rule => self.rule = n,
            Whole::Regime => self.regime = n,
            Whole::Regimes => self.regimes = n,
            Whole::Order => self.order = n,
            Whole::MaxIter => self.max_iter = n,
            Whole::Starts => self.starts = n,
        }
        Ok(())
    }

    // The option's value is the word with number i.
    pub fn set(&mut self, option: Valued, word: &[u8], i: usize) -> Result<(), Fault> {
        match option {
            Valued::Column => {
                once(self.column, b"--column is given twice")?;
                self.column = Some(i);
            }
            Valued::Keep => {
                once(self.keep, b"--keep is given twice")?;
                self.keep = Some(i);
            }
            Valued::Separator => self.separator = Some(separator(word, i)?),
            Valued::Tol => self.tol = Some(tol(word, i)?),
            Valued::Whole(whole) => return self.set_whole(whole, word, i),
        }
        Ok(())
    }
}
