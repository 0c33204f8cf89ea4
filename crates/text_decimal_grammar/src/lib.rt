// The grammar of a number, a byte at a time: what a byte adds to what was read, or that it is at fault.
#![tactic(auto)]

ghost use Rattle.std.specs.Prelude.{◌≡◌, ◌+◌, ◌*◌, ◌≤◌, ◌<◌, ◌^◌, IfSome};
ghost use Rattle.text_decimal_grammar.specs.Grammar.{digit_of, hex_of, nothing, moved, whole_digit, fraction_digit, exponent_digit, mark, after_sign, at_start, in_whole, after_zero, after_point, in_fraction, in_exponent, after_mark, in_word, in_hex, step};
ghost use Rattle.text_decimal_grammar.specs.Room.{Room};

// Where in a number the reader stands: what came last.
#[derive(Clone, Copy)]
pub enum Place {
    Start,
    Sign,
    Zero,
    Whole,
    Point,
    Fraction,
    Mark,
    MarkSign,
    Exponent,
    I,
    In,
    Inf,
    N,
    Na,
    Nan,
    Hex(usize),
}

// What was read: the number is digits * 10 ^ up / 10 ^ down, times ten to the exponent, which `under` makes negative.
#[derive(Clone, Copy)]
pub struct State {
    pub place: Place,
    pub negative: bool,
    pub digits: u64,
    pub up: usize,
    pub down: usize,
    pub under: bool,
    pub exponent: usize,
}

// Nothing is read yet.
#[tactic(auto, unfolding(crate::specs::Grammar::nothing))]
pub fn start() -> State
    ensures { result ≡ nothing }
{
    State {
        place: Place::Start,
        negative: false,
        digits: 0,
        up: 0,
        down: 0,
        under: false,
        exponent: 0,
    }
}

// What a byte stands for as a decimal digit.
#[tactic(auto, unfolding(crate::specs::Grammar::digit_of))]
fn digit_of(c: u8) -> Option<u64>
    ensures { result ≡ digit_of c }
{
    char::from(c).to_digit(10).map(u64::from)
}

// What a byte stands for as a hexadecimal digit, in either case. Beside digit_of, and not one function over the radix: each has its definition.
#[tactic(auto, unfolding(crate::specs::Grammar::hex_of))]
fn hex_of(c: u8) -> Option<u64>
    ensures value { result ≡ hex_of c }
    ensures below { IfSome result (λ d. d < 16) }
{
    char::from(c).to_digit(16).map(u64::from)
}

// Room is asked of a state, and no invariant of it: each byte uses some of it up.
impl State {
    #[tactic(auto, unfolding(crate::specs::Grammar::moved))]
    fn moved(self, place: Place) -> State
        ensures { result ≡ moved self place }
    {
        State { place, ..self }
    }

    // A digit before the point. Once there are 19, a zero only multiplies by ten.
    #[tactic(auto, unfolding(crate::specs::Grammar::whole_digit))]
    fn take_whole(self, d: u64) -> Option<State>
        requires room { Room self }
        requires digit { d < 10 }
        ensures { result ≡ whole_digit self d }
    {
        if self.digits < 1_000_000_000_000_000_000 {
            return Some(State {
                place: Place::Whole,
                digits: self.digits * 10 + d,
                ..self
            });
        }
        if d == 0 {
            return Some(State {
                place: Place::Whole,
                up: self.up + 1,
                ..self
            });
        }
        None
    }

    // A digit after the point. Once there are 19, a zero says nothing more.
    #[tactic(auto, unfolding(crate::specs::Grammar::fraction_digit))]
    fn take_fraction(self, d: u64) -> Option<State>
        requires room { Room self }
        requires digit { d < 10 }
        ensures { result ≡ fraction_digit self d }
    {
        if self.digits < 1_000_000_000_000_000_000 {
            return Some(State {
                place: Place::Fraction,
                digits: self.digits * 10 + d,
                down: self.down + 1,
                ..self
            });
        }
        if d == 0 {
            return Some(self.moved(Place::Fraction));
        }
        None
    }

    // A digit of the exponent.
    #[tactic(auto, unfolding(crate::specs::Grammar::exponent_digit))]
    fn take_exponent(self, d: u64) -> Option<State>
        requires room { Room self }
        requires digit { d < 10 }
        ensures { result ≡ exponent_digit self d }
    {
        let e = self.exponent * 10 + d as usize;
        if e > 400 {
            return None;
        }
        Some(State {
            place: Place::Exponent,
            exponent: e,
            ..self
        })
    }

    #[tactic(auto, unfolding(crate::specs::Grammar::after_sign))]
    fn after_sign(self, c: u8) -> Option<State>
        requires { Room self }
        ensures { result ≡ after_sign self c }
    {
        match digit_of(c) {
            Some(d) => self.take_whole(d),
            None => match c {
                b'.' => Some(self.moved(Place::Point)),
                b'i' => Some(self.moved(Place::I)),
                b'n' => Some(self.moved(Place::N)),
                _ => None,
            },
        }
    }

    #[tactic(auto, unfolding(crate::specs::Grammar::at_start, crate::specs::Grammar::minus))]
    fn at_start(self, c: u8) -> Option<State>
        requires { Room self }
        ensures { result ≡ at_start self c }
    {
        match c {
            b'+' => Some(self.moved(Place::Sign)),
            b'-' => Some(State {
                place: Place::Sign,
                negative: true,
                ..self
            }),
            b'0' => Some(self.moved(Place::Zero)),
            _ => self.after_sign(c),
        }
    }

    #[tactic(auto, unfolding(crate::specs::Grammar::in_whole))]
    fn in_whole(self, c: u8) -> Option<State>
        requires { Room self }
        ensures { result ≡ in_whole self c }
    {
        match digit_of(c) {
            Some(d) => self.take_whole(d),
            None if c == b'.' => Some(self.moved(Place::Fraction)),
            None => self.to_mark(c),
        }
    }

    #[tactic(auto, unfolding(crate::specs::Grammar::mark))]
    fn to_mark(self, c: u8) -> Option<State>
        ensures { result ≡ mark self c }
    {
        match c {
            b'e' | b'E' => Some(self.moved(Place::Mark)),
            _ => None,
        }
    }

    #[tactic(auto, unfolding(crate::specs::Grammar::after_zero))]
    fn after_zero(self, c: u8) -> Option<State>
        requires { Room self }
        ensures { result ≡ after_zero self c }
    {
        match c {
            b'x' => Some(self.moved(Place::Hex(0))),
            _ => self.in_whole(c),
        }
    }

    #[tactic(auto, unfolding(crate::specs::Grammar::after_point))]
    fn after_point(self, c: u8) -> Option<State>
        requires { Room self }
        ensures { result ≡ after_point self c }
    {
        self.take_fraction(digit_of(c)?)
    }

    #[tactic(auto, unfolding(crate::specs::Grammar::in_fraction))]
    fn in_fraction(self, c: u8) -> Option<State>
        requires { Room self }
        ensures { result ≡ in_fraction self c }
    {
        match digit_of(c) {
            Some(d) => self.take_fraction(d),
            None => self.to_mark(c),
        }
    }

    #[tactic(auto, unfolding(crate::specs::Grammar::in_exponent))]
    fn in_exponent(self, c: u8) -> Option<State>
        requires { Room self }
        ensures { result ≡ in_exponent self c }
    {
        self.take_exponent(digit_of(c)?)
    }

    #[tactic(auto, unfolding(crate::specs::Grammar::after_mark, crate::specs::Grammar::minus_exponent))]
    fn after_mark(self, c: u8) -> Option<State>
        requires { Room self }
        ensures { result ≡ after_mark self c }
    {
        match c {
            b'+' => Some(self.moved(Place::MarkSign)),
            b'-' => Some(State {
                place: Place::MarkSign,
                under: true,
                ..self
            }),
            _ => self.in_exponent(c),
        }
    }

    #[tactic(auto, unfolding(crate::specs::Grammar::in_word))]
    fn in_word(self, c: u8, wanted: u8, place: Place) -> Option<State>
        ensures { result ≡ in_word self c wanted place }
    {
        if c == wanted {
            Some(self.moved(place))
        } else {
            None
        }
    }

    #[tactic(auto, unfolding(crate::specs::Grammar::in_hex, crate::specs::Grammar::hex_digit))]
    fn in_hex(self, c: u8, n: usize) -> Option<State>
        requires { self.digits < 2 ^ (4 * n) }
        ensures { result ≡ in_hex self c n }
    {
        if n >= 16 {
            return None;
        }
        let d = hex_of(c)?;
        Some(State {
            place: Place::Hex(n + 1),
            digits: self.digits * 16 + d,
            ..self
        })
    }
}

// One byte more.
#[tactic(auto, unfolding(crate::specs::Grammar::step, crate::specs::Grammar::step_at))]
pub fn step(s: State, c: u8) -> Option<State>
    requires { Room s }
    ensures { result ≡ step s c }
{
    match s.place {
        Place::Start => s.at_start(c),
        Place::Sign => s.after_sign(c),
        Place::Zero => s.after_zero(c),
        Place::Whole => s.in_whole(c),
        Place::Point => s.after_point(c),
        Place::Fraction => s.in_fraction(c),
        Place::Mark => s.after_mark(c),
        Place::MarkSign | Place::Exponent => s.in_exponent(c),
        Place::I => s.in_word(c, b'n', Place::In),
        Place::In => s.in_word(c, b'f', Place::Inf),
        Place::N => s.in_word(c, b'a', Place::Na),
        Place::Na => s.in_word(c, b'n', Place::Nan),
        Place::Hex(n) => s.in_hex(c, n),
        Place::Inf | Place::Nan => None,
    }
}
