// A sum, and of how many numbers.
ghost use Rattle.number.specs.Number.{◌⊕◌, ◌⊘◌, zero⁺, one};
ghost use Rattle.std.specs.Prelude.{◌≡◌};

#[derive(Clone, Copy)]
pub struct Sum {
    pub total: f64,
    pub count: f64,
}

impl Sum {
    pub fn none() -> Sum
        ensures { (result.total ≡ zero⁺) × (result.count ≡ zero⁺) }
    {
        Sum {
            total: 0.0,
            count: 0.0,
        }
    }

    pub fn add(&mut self, x: f64)
        ensures { (self.new.total ≡ self.old.total ⊕ x) × (self.new.count ≡ self.old.count ⊕ one) }
    {
        self.total = self.total + x;
        self.count = self.count + 1.0;
    }

    pub fn mean(self) -> f64
        ensures { result ≡ self.total ⊘ self.count }
    {
        self.total / self.count
    }

    pub(crate) fn of(numbers: &[f64]) -> Sum {
        let mut sum = Sum::none();
        for x in numbers {
            sum.add(*x);
        }
        sum
    }
}
