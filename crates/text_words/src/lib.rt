// Lines of text, taken apart and put together: words between blanks, cells between separators, whole numbers, bytes behind bytes.
// Places in a line count from 0.
#![tactic(auto)]

ghost use Rattle.std.specs.Prelude.{◌≡◌, ◌<◌, ◌≤◌, ◌++◌, length, take, drop, take_while, IfSome};
ghost use Rattle.text_words.specs.Words.{is_blank, in_word, past, word_from};
ghost use Rattle.text_words.specs.Places.{Leads};

mod place;

pub use place::Span;

// ---- places

pub fn least(a: usize, b: usize) -> usize
    ensures { (result ≤ a) × (result ≤ b) }
{
    a.min(b)
}

// The part of the line from `start` to `end`, as far as it has them.
pub fn part(line: &[u8], start: usize, end: usize) -> Span
    ensures { result.end ≤ length line.now }
{
    let to = least(end, line.len());
    Span {
        start: least(start, to),
        end: to,
    }
}

// How many bytes of the line a byte order mark takes: 3, or none where it is not the first line or has no such mark at its start.
pub fn mark(line: &[u8], first: bool) -> usize
    ensures { result ≤ length line.now }
{
    if first && line.starts_with(b"\xEF\xBB\xBF") {
        3
    } else {
        0
    }
}

// Whether the line holds blanks alone.
pub fn is_blank_line(line: &[u8]) -> bool {
    line.iter().all(|c| is_blank(*c))
}

// Whether the byte stands in the line.
pub fn has(line: &[u8], c: u8) -> bool {
    line.contains(&c)
}

// ---- words

// A carriage return is a blank, so that a line may end in one.
fn is_blank(c: u8) -> bool
    ensures { result ≡ is_blank c }
{
    matches!(c, b' ' | b'\t' | b'\r')
}

fn is_in_word(c: u8) -> bool
    ensures { result ≡ in_word c }
{
    !is_blank(c) & (c != b'#')
}

// How many blanks stand at the text's start.
// Two functions, not one over a test: what a closure answers would need a clause longer than both. Counted in their callers, the proof didn't close.
fn blanks(text: &[u8]) -> usize
    ensures { result ≡ length (take_while is_blank text.now) }
{
    text.iter().take_while(|c| is_blank(**c)).count()
}

// How many bytes of a word stand at the text's start.
fn word_length(text: &[u8]) -> usize
    ensures { result ≡ length (take_while in_word text.now) }
{
    text.iter().take_while(|c| is_in_word(**c)).count()
}

// The first place from this one on that holds no blank, or the line's end.
fn past_blanks(line: &[u8], from: usize) -> usize
    requires { from ≤ length line.now }
    ensures bounds { (from ≤ result) × (result ≤ length line.now) }
    ensures place { result ≡ past is_blank line.now from }
{
    from + blanks(&line[from..])
}

// The first place from this one on that holds a blank or begins a comment, or the line's end.
fn word_end(line: &[u8], from: usize) -> usize
    requires { from ≤ length line.now }
    ensures bounds { (from ≤ result) × (result ≤ length line.now) }
    ensures place { result ≡ past in_word line.now from }
{
    from + word_length(&line[from..])
}

// The next word from this place on. It is empty at the line's end and where a comment begins.
pub fn word(line: &[u8], from: usize) -> Span
    requires { from ≤ length line.now }
    ensures bounds { (from ≤ result.start) × (result.end ≤ length line.now) }
    ensures places { result ≡ word_from line.now from }
{
    let start = past_blanks(line, from);
    let end = word_end(line, start);
    Span { start, end }
}

// Where a comment begins, or the line's end.
pub fn comment(line: &[u8]) -> usize
    ensures { result ≤ length line.now }
{
    line.iter().take_while(|c| **c != b'#').count()
}

// The end of the line that begins at this place of a text of lines: where its line feed stands, or the text's end.
pub fn line_end(text: &[u8], from: usize) -> usize
    requires { from ≤ length text.now }
    ensures { (from ≤ result) × (result ≤ length text.now) }
{
    from + text[from..].iter().take_while(|c| **c != b'\n').count()
}

// ---- cells

// The place of the first separator from this one on that stands outside quotes, or the line's end.
fn cell_end(line: &[u8], from: usize, separator: u8) -> usize
    requires { from ≤ length line.now }
    ensures { (from ≤ result) × (result ≤ length line.now) }
{
    let mut quoted = false;
    for (i, c) in line[from..].iter().enumerate() {
        if *c == b'"' {
            quoted = !quoted;
        }
        if (*c == separator) & !quoted {
            return from + i;
        }
    }
    line.len()
}

// The end of the part without the blanks at its end.
fn before_blanks(line: &[u8], part: Span) -> usize
    requires { part.end ≤ length line.now }
    ensures { (part.start ≤ result) × (result ≤ part.end) }
{
    let last = part.of(line).iter().rposition(|c| !is_blank(*c));
    last.map_or(part.start, |i| part.start + i + 1)
}

// A cell's content: without the quotes, where it begins and ends with one.
pub fn unquoted(line: &[u8], cell: Span) -> Span
    requires { cell.end ≤ length line.now }
    ensures { result.end ≤ cell.end }
{
    match cell.of(line) {
        [b'"', .., b'"'] => Span {
            start: cell.start + 1,
            end: cell.end - 1,
        },
        _ => cell,
    }
}

// Without the blanks around it. A separator is no blank, not even a tab.
fn trimmed(line: &[u8], cell: Span) -> Span
    requires { cell.end ≤ length line.now }
    ensures { result.end ≤ cell.end }
{
    let rest = Span {
        start: least(past_blanks(line, cell.start), cell.end),
        end: cell.end,
    };
    Span {
        start: rest.start,
        end: before_blanks(line, rest),
    }
}

// An empty cell at the line's end.
fn no_cell(line: &[u8]) -> Span
    ensures { result.end ≤ length line.now }
{
    Span {
        start: line.len(),
        end: line.len(),
    }
}

// The cell with this number, counted from 0, as it stands, with its quotes. It may be empty, and is where there is none.
pub fn cell(line: &[u8], number: usize, separator: u8) -> Span
    ensures { result.end ≤ length line.now }
{
    let mut start = 0;
    for _ in 0..number {
        let end = cell_end(line, start, separator);
        if end >= line.len() {
            return no_cell(line);
        }
        start = end + 1;
    }
    let end = cell_end(line, start, separator);
    trimmed(line, Span { start, end })
}

// How many cells there are: one more than separators outside quotes.
pub fn cells(line: &[u8], separator: u8) -> usize {
    let mut quoted = false;
    let mut count = 1;
    for c in line {
        if *c == b'"' {
            quoted = !quoted;
        }
        if (*c == separator) & !quoted {
            count += 1;
        }
    }
    count
}

// Whether every quote of the line is closed on it.
pub fn closed(line: &[u8]) -> bool {
    line.iter().filter(|c| **c == b'"').count() % 2 == 0
}

// ---- comparing

pub fn same(a: &[u8], b: &[u8]) -> bool {
    a == b
}

pub fn begins(text: &[u8], start: &[u8]) -> bool {
    text.starts_with(start)
}

// ---- whole numbers

// The number below 1,000,000,000 that the text stands for: digits and nothing else.
pub fn whole(text: &[u8]) -> Option<usize>
    ensures { IfSome result (λ n. n < 1000000000) }
{
    if text.is_empty() {
        return None;
    }
    let mut n = 0;
    for c in text {
        if n > 99_999_999 {
            return None;
        }
        n = n * 10 + char::from(*c).to_digit(10)? as usize;
    }
    Some(n)
}

// ---- putting together

// Puts the text behind the first `at` bytes, as far as there is room, and says how many bytes there are then.
// Its place goes in and out by hand: a public function, which docs/CONTRACTS.md names.
pub fn put(out: &mut [u8], at: usize, text: &[u8]) -> usize
    ensures leads { Leads result out.new }
    ensures so_far { take result out.new ≡ take (length out.old) (take at out.old ++ text.now) }
    ensures behind { drop result out.new ≡ drop result out.old }
{
    let from = at.min(out.len());
    let n = (out.len() - from).min(text.len());
    out[from..from + n].copy_from_slice(&text[..n]);
    from + n
}
