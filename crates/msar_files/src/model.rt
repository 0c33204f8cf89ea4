// Reads a MODEL file.
use crate::lines;
use crate::lines::{Line, Part, Say, said};
use arrayvec::ArrayVec;
use host_io::EprintBytes;
use msar_say::file::At;
use std::io::Read;
use text_model::Model;
use text_model_line::{Fault, ModelError};

// The file's own text, for a MODEL to be written with its comments; none where it finds no room.
pub type Own = Option<ArrayVec<u8, 16384>>;

// ---- what is at fault

// What the file lacks at its end.
fn lacking(rt: &impl EprintBytes, at: At<'_>, fault: Fault) {
    match fault {
        Fault::Regimes => at.expected(rt, b"a line `regimes`, and the file ends"),
        Fault::Order => at.expected(rt, b"a line `order`, and the file ends"),
        Fault::Transition(n) => at.expected_count(
            rt,
            b"lines `transition`, and the file ends: in all ",
            n,
        ),
        Fault::Means => at.expected(rt, b"a line `means`, and the file ends"),
        _ => at.expected(rt, b"a line `variances`, and the file ends"),
    }
}

// The word of the line that begins at this place is no number.
fn no_number(rt: &impl EprintBytes, line: Line<'_>, place: usize) {
    let rest = text_words::part(line.text, place, line.text.len());
    let word = text_words::word(line.text, rest.start);
    let part = Part::of(line.text, word);
    line.at(part.column).no_number(rt, part.text);
}

// At a line, or behind the last.
fn wrong(rt: &impl EprintBytes, line: Line<'_>, place: usize, fault: Fault) {
    let at = line.at(lines::column(place));
    match fault {
        Fault::Keyword => at.expected(
            rt,
            b"a keyword: regimes, order, transition, means, ar or variances",
        ),
        Fault::Once => at.expected(rt, b"no second line of this kind"),
        Fault::SizesFirst => at.expected(
            rt,
            b"lines `regimes` and `order` before the first line of numbers",
        ),
        Fault::Size => at.expected(rt, b"one whole number below 1000000000"),
        Fault::Number => no_number(rt, line, place),
        Fault::Numbers(n) => at.expected_count(rt, b"exactly so many numbers: ", n),
        Fault::OneOr(n) => at.expected_count(rt, b"one number, or exactly ", n),
        Fault::Enough(n) => at.expected_count(rt, b"no more lines of this kind than ", n),
        _ => lacking(rt, at, fault),
    }
}

impl Say for ModelError {
    fn say(self, rt: &impl EprintBytes, line: Line<'_>) {
        match self {
            ModelError::Wrong(fault, place) => wrong(rt, line, place, fault),
            ModelError::Refused(r) => msar_say::refusals::refused(rt, r, 0, 0, b""),
        }
    }
}

// ---- lines

// The text with the line behind it.
fn hold(own: &mut Own, line: &[u8]) {
    let Some(text) = own else {
        return;
    };
    if text.remaining_capacity() <= line.len() {
        *own = None;
        return;
    }
    let _ = text.try_extend_from_slice(line);
    let _ = text.try_push(b'\n');
}

// The model, and in `own` the file's text. None where something is at fault, which is said by then.
pub fn read(
    rt: &impl EprintBytes,
    input: &mut impl Read,
    path: &[u8],
    own: &mut Own,
) -> Option<Model> {
    let mut draft = text_model::start();
    let number = lines::each(rt, input, path, |line| {
        hold(own, line.text);
        draft = said(rt, line, text_model::read(line.text, draft))?;
        Some(())
    })?;
    let end = Line {
        path,
        number,
        text: b"",
    };
    said(rt, end, text_model::finish(draft))
}
