// A line of a SERIES file without columns: a number alone, a comment, or nothing. docs/MODEL.md has the rules. Places in a line count
// from 0.
#![tactic(auto)]

ghost use Rattle.std.specs.Prelude.{◌≤◌, length};

use text_words::Span;

// What a line says. A word is said by its place, so that the line may be written over.
#[derive(Clone, Copy)]
pub enum Item {
    Reading(f64),
    Blank,
    Comment,
    // a comment whose first word stands for a missing reading
    Missing(Span),
    // a word that is no number
    NoNumber(Span),
    // a second word begins here
    Second(usize),
}

// The line's word is the reading, and it is the only one.
fn alone(line: &[u8], word: Span) -> Item
    requires { word.end ≤ length line.now }
{
    let more = text_words::word(line, word.end);
    if !more.is_empty() {
        return Item::Second(more.start);
    }
    let text = word.of(line);
    match text_decimal_read::read(text) {
        Ok(x) => Item::Reading(x),
        Err(_) => Item::NoNumber(word),
    }
}

// A comment's first word.
fn comment_word(comment: &[u8]) -> &[u8] {
    let n = comment
        .iter()
        .take_while(|c| !matches!(**c, b' ' | b'\t' | b'\r'))
        .count();
    &comment[..n]
}

fn comment(line: &[u8], start: usize) -> Item
    requires { start ≤ length line.now }
{
    let word = comment_word(&line[start..]);
    if text_no_number::is_spreadsheet_word(word) {
        Item::Missing(text_words::part(line, start, start.saturating_add(word.len())))
    } else {
        Item::Comment
    }
}

pub fn read(line: &[u8]) -> Item {
    let word = text_words::word(line, 0);
    if word.start == line.len() {
        return Item::Blank;
    }
    if word.is_empty() {
        return comment(line, word.start);
    }
    alone(line, word)
}
