// Decimal numbers: text to the nearest f64.
#![tactic(auto)]

ghost use Rattle.std.specs.Prelude.{◌≡◌};
ghost use Rattle.text_decimal_read.specs.Text.{read_of};

mod reading;

// The number that the whole text is, or the place of the first byte at fault: the text's length where it ends too early.
#[tactic(auto, using(crate::proofs::Scan::fault, crate::proofs::Scan::last))]
pub fn read(text: &[u8]) -> Result<f64, usize>
    ensures { result ≡ read_of text.now }
{
    let mut s = text_decimal_grammar::start();
    for (i, c) in text.iter().enumerate() {
        s = text_decimal_grammar::step(s, *c).ok_or(i)?;
    }
    reading::finish(s, text.len())
}
