// The words of the command line, one after the other, and whether they are those that the command takes.
use crate::fault::Fault;
use crate::value::{Valued, option_of};
use crate::{Call, Command, Options};
use std::rt::Env;
use text_csv::Heading;

// What the words so far say, and the option that waits for its value, with its place.
#[derive(Clone, Copy)]
pub struct Words {
    command: Option<Command>,
    options: Options,
    waiting: Option<(Valued, usize)>,
}

fn command_of(word: &[u8]) -> Option<Command> {
    match word {
        b"check" => Some(Command::Check),
        b"durations" => Some(Command::Durations),
        b"loglike" => Some(Command::Loglike),
        b"filter" => Some(Command::Filter),
        b"smooth" => Some(Command::Smooth),
        b"verdict" => Some(Command::Verdict),
        b"start" => Some(Command::Start),
        b"fit" => Some(Command::Fit),
        _ => None,
    }
}

fn no_options() -> Options {
    Options {
        model: None,
        series: None,
        column: None,
        keep: None,
        heading: Heading::Open,
        separator: None,
        digits: None,
        rule: None,
        regime: None,
        regimes: None,
        order: None,
        switching_variance: false,
        max_iter: None,
        tol: None,
        starts: None,
        as_reached: false,
    }
}

impl Words {
    pub fn none() -> Words {
        Words {
            command: None,
            options: no_options(),
            waiting: None,
        }
    }

    // The word with number i.
    pub fn take(&mut self, rt: &impl Env, i: usize) -> Result<(), Fault> {
        let mut buf = host_io::buffer();
        let Ok(n) = rt.arg(i, &mut buf) else {
            return Err(Fault::Call(b"an argument has more than 4096 bytes"));
        };
        let word = &buf[..n];
        if let Some((option, _)) = self.waiting.take() {
            return self.options.set(option, word, i);
        }
        match word {
            [b'-', _, ..] => self.option(word, i),
            _ => self.positional(word, i),
        }
    }

    // ---- the command, MODEL, SERIES; `start` has no MODEL

    fn positional(&mut self, word: &[u8], i: usize) -> Result<(), Fault> {
        let Some(given) = self.command else {
            let command = command_of(word).ok_or(Fault::Word(
                b"no such command (msar --help says which there are): ",
                i,
            ))?;
            self.command = Some(command);
            return Ok(());
        };
        if (given != Command::Start) & self.options.model.is_none() {
            self.options.model = Some(i);
        } else if self.options.series.is_none() {
            self.options.series = Some(i);
        } else {
            return Err(Fault::Word(b"one word too many: ", i));
        }
        Ok(())
    }

    // ---- options

    fn option(&mut self, word: &[u8], i: usize) -> Result<(), Fault> {
        match option_of(word) {
            Some(option) => {
                self.waiting = Some((option, i));
                Ok(())
            }
            None => self.alone(word, i),
        }
    }

    // In place of a command that was given before, and its MODEL and SERIES.
    fn instead(&mut self, command: Command) {
        self.command = Some(command);
        self.options.model = None;
        self.options.series = None;
    }

    // An option that takes no value.
    fn alone(&mut self, word: &[u8], i: usize) -> Result<(), Fault> {
        match word {
            b"--help" => self.instead(Command::Help),
            b"--version" => self.instead(Command::Version),
            b"--heading" => self.options.heading = Heading::Given,
            b"--no-heading" => self.options.heading = Heading::Absent,
            b"--switching-variance" => self.options.switching_variance = true,
            b"--as-reached" => self.options.as_reached = true,
            _ => {
                return Err(Fault::Word(b"no such option (msar --help says which there are): ", i));
            }
        }
        Ok(())
    }
}

// ---- whether the words are those that the command takes

impl Command {
    fn is_on_series(self) -> bool {
        self.is_by_rule() || matches!(self, Command::Start | Command::Fit)
    }

    // Whether the command writes a row for each reading, or of one.
    fn is_by_reading(self) -> bool {
        matches!(self, Command::Filter | Command::Smooth | Command::Verdict)
    }

    // Whether the command takes a rule. `fit` takes none: its order is at least 1, where both rules give the same.
    fn is_by_rule(self) -> bool {
        self == Command::Loglike || self.is_by_reading()
    }

    fn is_table(self) -> bool {
        self == Command::Durations || self.is_by_rule()
    }
}

// Refused with these words where the options do not fit.
fn unless(fits: bool, what: &'static [u8]) -> Result<(), Fault> {
    if fits { Ok(()) } else { Err(Fault::Call(what)) }
}

impl Options {
    fn is_for_fit(&self) -> bool {
        self.max_iter.is_some() | self.tol.is_some() | self.starts.is_some() | self.as_reached
    }

    fn is_for_start(&self) -> bool {
        self.regimes.is_some() | self.order.is_some() | self.switching_variance
    }

    fn is_for_columns(&self) -> bool {
        self.separator.is_some() | self.keep.is_some() | (self.heading != Heading::Open)
    }

    // The options that are for one command alone.
    fn for_one(&self, command: Command) -> Result<(), Fault> {
        unless(
            !self.is_for_fit() | (command == Command::Fit),
            b"--max-iter, --tol, --starts and --as-reached are for fit alone",
        )?;
        unless(
            !self.is_for_start() | (command == Command::Start),
            b"--regimes, --order and --switching-variance are for start alone",
        )?;
        unless(
            self.regime.is_none() | (command == Command::Verdict),
            b"--regime is for verdict alone",
        )
    }

    // Those that are for some commands.
    fn for_some(&self, command: Command) -> Result<(), Fault> {
        unless(
            self.rule.is_none() | command.is_by_rule(),
            b"--rule is for loglike, filter, smooth and verdict alone",
        )?;
        unless(
            self.keep.is_none() | command.is_by_reading(),
            b"--keep is for filter, smooth and verdict alone",
        )?;
        unless(
            self.digits.is_none() | command.is_table(),
            b"--digits is for tables: durations, loglike, filter, smooth, verdict",
        )?;
        unless(
            self.column.is_some() | !self.is_for_columns(),
            b"--separator, --heading, --no-heading and --keep need --column",
        )
    }

    fn for_series(&self, command: Command) -> Result<(), Fault> {
        if command.is_on_series() {
            return unless(
                self.series.is_some(),
                b"no SERIES (msar --help says how to call it)",
            );
        }
        unless(
            self.series.is_none() & self.column.is_none(),
            b"this command takes no SERIES and no --column",
        )
    }

    fn complete(&self, command: Command) -> Result<(), Fault> {
        unless(
            self.model.is_some() | (command == Command::Start),
            b"no MODEL (msar --help says how to call it)",
        )?;
        self.for_series(command)?;
        self.for_one(command)?;
        self.for_some(command)?;
        unless(
            (command != Command::Start) | (self.regimes.is_some() & self.order.is_some()),
            b"start needs --regimes K and --order P",
        )
    }
}

impl Words {
    // The call, where all words of it are there.
    pub fn complete(self) -> Result<Call, Fault> {
        if let Some((_, i)) = self.waiting {
            return Err(Fault::Word(
                b"an option lacks its value (msar --help says what it takes): ",
                i,
            ));
        }
        let options = self.options;
        let Some(command) = self.command else {
            return Err(Fault::Call(b"no command (msar --help says which there are)"));
        };
        if !matches!(command, Command::Help | Command::Version) {
            options.complete(command)?;
        }
        Ok(Call { command, options })
    }
}
