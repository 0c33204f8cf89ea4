// What a line of a MODEL file holds: a keyword, a size or a row of numbers; and how rows make a table. Places in a line count from 0.
#![tactic(auto)]

ghost use Rattle.std.specs.Prelude.{◌≡◌, ◌*◌, ◌<◌, ◌≤◌, length, IfOk};
ghost use Rattle.text_model_line.specs.declared.ModelError.TheVariants.{Refused};

use refusal::Refusal;

// What was expected where a line is at fault.
#[derive(Clone, Copy, PartialEq, Eq)]
pub enum Fault {
    Keyword,
    Once,
    SizesFirst,
    Size,
    // a number: the word that begins there is none
    Number,
    // so many numbers, and no more
    Numbers(usize),
    // one number, or so many
    OneOr(usize),
    // no further line of this kind: so many are enough
    Enough(usize),
    // at the end of the file
    Regimes,
    Order,
    // so many lines
    Transition(usize),
    Means,
    Variances,
}

// Why a model is not read: a line is at fault at a place, or the library refuses what the lines say.
#[derive(Clone, Copy)]
pub enum ModelError {
    Wrong(Fault, usize),
    Refused(Refusal),
}

impl From<Refusal> for ModelError {
    ghost from_gives = { λ refusal error. error ≡ Refused refusal };

    fn from(refusal: Refusal) -> ModelError {
        ModelError::Refused(refusal)
    }
}

// The numbers behind a keyword, and the place where they end.
#[derive(Clone, Copy)]
pub struct Row {
    // an array with its count, as the parameters hold them
    pub values: [f64; 16],
    pub count: usize,
    pub end: usize,
}

// What a line is, by its first word.
#[derive(Clone, Copy, PartialEq, Eq)]
pub enum Kind {
    Regimes,
    Order,
    Transition,
    Means,
    Ar,
    Variances,
}

// ---- from a line

pub fn keyword(word: &[u8]) -> Option<Kind> {
    match word {
        b"regimes" => Some(Kind::Regimes),
        b"order" => Some(Kind::Order),
        b"transition" => Some(Kind::Transition),
        b"means" => Some(Kind::Means),
        b"ar" => Some(Kind::Ar),
        b"variances" => Some(Kind::Variances),
        _ => None,
    }
}

// The numbers from this place on, no more than `most` of them, where nothing but a comment follows them.
fn numbers(line: &[u8], from: usize, most: usize) -> Result<Row, ModelError>
    requires { (from ≤ length line.now) × (most ≤ 16) }
    ensures { IfOk result (λ row. row.count ≤ most) }
{
    let mut values = [0.0; 16];
    let mut at = from;
    // an index, not an iterator over the values: it is also the count that is answered where the words end
    for count in 0..most {
        let word = text_words::word(line, at);
        if word.is_empty() {
            return Ok(Row {
                values,
                count,
                end: word.start,
            });
        }
        let Ok(x) = text_decimal_read::read(word.of(line)) else {
            return Err(ModelError::Wrong(Fault::Number, word.start));
        };
        values[count] = x;
        at = word.end;
    }
    let more = text_words::word(line, at);
    if !more.is_empty() {
        return Err(ModelError::Wrong(Fault::Numbers(most), more.start));
    }
    Ok(Row {
        values,
        count: most,
        end: more.start,
    })
}

// The whole number from this place on, alone.
pub fn size(line: &[u8], from: usize) -> Option<usize>
    requires { from ≤ length line.now }
{
    let word = text_words::word(line, from);
    if !text_words::word(line, word.end).is_empty() {
        return None;
    }
    text_words::whole(word.of(line))
}

// The numbers, exactly so many.
pub fn all_numbers(line: &[u8], from: usize, n: usize) -> Result<[f64; 16], ModelError>
    requires { (from ≤ length line.now) × (n ≤ 16) }
{
    let row = numbers(line, from, n)?;
    if row.count < n {
        return Err(ModelError::Wrong(Fault::Numbers(n), row.end));
    }
    Ok(row.values)
}

// One number, or as many as regimes.
pub fn one_or_all(line: &[u8], from: usize, n: usize) -> Result<Row, ModelError>
    requires { (from ≤ length line.now) × (n ≤ 16) }
{
    let row = numbers(line, from, n)?;
    if row.count != 1 && row.count != n {
        return Err(ModelError::Wrong(Fault::OneOr(n), row.end));
    }
    Ok(row)
}

// ---- rows into tables

// How many numbers the rows up to this one hold.
pub fn up_to(row: usize, n: usize) -> usize
    requires { (row < 16) × (n ≤ 16) }
{
    (row + 1) * n
}

// Row number `row`, of n numbers, in a table of 16 rows.
pub fn with_row<const N: usize>(
    mut table: [f64; N],
    row: usize,
    n: usize,
    values: [f64; 16],
) -> [f64; N]
    requires { (row < 16) × (n ≤ 16) × (16 * n ≤ N) }
{
    let all = &mut table[..];
    all[row * n..(row + 1) * n].copy_from_slice(&values[..n]);
    table
}
