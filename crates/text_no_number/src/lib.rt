// Why a text is no number, for a message that a person can act on.
#![tactic(auto)]

ghost use Rattle.std.specs.Prelude.{◌≤◌, length, IsTrue};

#[derive(Clone, Copy, PartialEq, Eq)]
pub enum Why {
    // nothing stands there
    Empty,
    // a word for a missing reading
    Missing,
    // a decimal comma
    Comma,
    // cells of a CSV file
    Cells,
    // a dash or a minus sign that is not `-`
    Minus,
    // more than 19 significant digits
    Digits,
    // an exponent beyond 400
    Exponent,
    // a number, and something behind it
    More,
    // two bytes for each character
    Wide,
    Other,
}

// ---- words for a missing reading

// Whether the text is one of the words, whatever the case of its letters.
fn is_one_of(text: &[u8], words: &[&str]) -> bool {
    words
        .iter()
        .any(|word| text.eq_ignore_ascii_case(word.as_bytes()))
}

// What people and programs write where a reading is missing.
pub fn is_missing(text: &[u8]) -> bool {
    text.is_empty()
        || is_one_of(text, &["na", "n/a", "null", "none", "nan", "inf", "-", "?"])
        || is_spreadsheet_word(text)
}

// What a spreadsheet writes for a cell without a value. Each begins with `#`, which elsewhere begins a comment.
pub fn is_spreadsheet_word(text: &[u8]) -> bool {
    is_one_of(
        text,
        &[
            "#n/a", "#num!", "#div/0!", "#ref!", "#value!", "#name?", "#null!",
        ],
    )
}

// ---- the reason

// Whether the text begins with a dash of three bytes: U+2212, the minus sign, or U+2010 to U+2015, hyphen to bar.
fn is_dashed(text: &[u8]) -> bool
    ensures { IsTrue result → 3 ≤ length text.now }
{
    matches!(text, [0xE2, 0x88, 0x92, ..] | [0xE2, 0x80, 0x90..=0x95, ..])
}

// Whether the text begins as UTF-16 does.
fn is_wide(text: &[u8]) -> bool {
    matches!(
        text,
        [0xFF, 0xFE, ..] | [0xFE, 0xFF, ..] | [0, _, ..] | [_, 0, ..]
    )
}

// Whether one of the first n bytes marks an exponent.
fn has_mark(text: &[u8], n: usize) -> bool {
    text.iter().take(n).any(|c| matches!(c, b'e' | b'E'))
}

// A digit is at fault where there are too many, or where they lead too far.
fn too_far(text: &[u8], at: usize) -> Why {
    if has_mark(text, at) {
        Why::Exponent
    } else {
        Why::Digits
    }
}

// What stands before the byte at fault is a number, or it is none.
fn after(text: &[u8], at: usize) -> Why {
    match text.get(..at).map(text_decimal_read::read) {
        Some(Ok(_)) => Why::More,
        _ => Why::Other,
    }
}

// The byte at this place cannot stand there.
fn at_fault(text: &[u8], at: usize) -> Why {
    match text.get(at) {
        None => Why::Other,
        Some(b',') => Why::Comma,
        Some(b'0'..=b'9') if is_numeric(text) => too_far(text, at),
        Some(_) if text.contains(&b',') || text.contains(&b';') => Why::Cells,
        Some(_) => after(text, at),
    }
}

// Whether the text begins as a number with digits does.
fn is_numeric(text: &[u8]) -> bool {
    matches!(text, [b'0'..=b'9' | b'+' | b'-' | b'.', ..])
}

// Why the text, which is no number, is none.
pub fn reason(text: &[u8]) -> Why {
    if text.is_empty() {
        return Why::Empty;
    }
    if is_missing(text) {
        return Why::Missing;
    }
    if is_wide(text) {
        return Why::Wide;
    }
    if is_dashed(text) {
        return Why::Minus;
    }
    match text_decimal_read::read(text) {
        Ok(_) => Why::Other,
        Err(i) => at_fault(text, i),
    }
}
