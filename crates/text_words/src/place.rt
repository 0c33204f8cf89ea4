// A part of a line, by its places.
ghost use Rattle.std.specs.Prelude.{◌≡◌, ◌==◌, ◌-◌, ◌≤◌, length, take, drop};

// From `start` up to, not including, `end`.
#[derive(Clone, Copy, PartialEq, Eq)]
pub struct Span {
    pub start: usize,
    pub end: usize,
    pub ghost ordered: { start ≤ end },
}

impl Span {
    // What stands there.
    pub fn of(self, line: &[u8]) -> &[u8]
        requires { self.end ≤ length line.now }
        ensures { result.now ≡ take (self.end - self.start) (drop self.start line.now) }
    {
        &line[self.start..self.end]
    }

    pub fn is_empty(self) -> bool
        ensures { result ≡ (self.start == self.end) }
    {
        self.start == self.end
    }
}
