// How many readings the groups have: a group's weight is at most 9^15, those of 16 groups times 4096 readings stay below 2^64.
ghost use Rattle.std.specs.Prelude.{◌≤◌, ◌<◌, ◌*◌, length};

// How a recipe deals n readings to k groups.
#[derive(Clone, Copy)]
pub struct Sizes {
    n: usize,
    k: usize,
    // each group is so many times the one before it, or the one after it
    ratio: usize,
    // whether the groups' sizes rise from low to high: few low readings, so few failing ones
    rising: bool,
    ghost bounded: { (n ≤ 4096) × (k ≤ 16) × (ratio ≤ 9) },
}

impl Sizes {
    pub fn of(i: usize, n: usize, k: usize) -> Sizes
        requires { (n ≤ 4096) × (k ≤ 16) }
    {
        let (ratio, rising) = match i % 5 {
            0 => (1, true),
            1 => (9, true),
            2 => (9, false),
            3 => (3, true),
            _ => (3, false),
        };
        Sizes {
            n,
            k,
            ratio,
            rising,
        }
    }

    pub fn is_even(self) -> bool {
        self.ratio == 1
    }

    // Every group has 5 readings or half its equal share, lest a regime begins on one or two outliers.
    fn smallest(self) -> usize
        ensures { result ≤ 5 }
    {
        if self.k == 0 {
            return 0;
        }
        (self.n / (2 * self.k)).min(5)
    }

    fn weight(self, g: usize) -> usize
        requires { g < self.k }
        ensures { result ≤ 205891132094649 }
    {
        let e = if self.rising { g } else { self.k - 1 - g };
        self.ratio.pow(e as u32)
    }

    // The weights of the first groups.
    fn weights(self, groups: usize) -> usize
        requires { groups ≤ self.k }
        ensures { result ≤ 3294258113514384 }
    {
        let mut passed = 0;
        for g in 0..groups {
            passed += self.weight(g);
        }
        passed
    }

    // The readings that are dealt by the weights.
    fn dealt(self) -> usize
        ensures { result ≤ 4096 }
    {
        self.n.saturating_sub(self.smallest() * self.k)
    }

    // How many readings the first groups have: the smallest count for each, and the others dealt by the weights. Without weights, which
    // k = 0 has, nothing.
    fn cut(self, groups: usize) -> usize
        requires { groups ≤ self.k }
    {
        let weighted = self.dealt() * self.weights(groups);
        let share = weighted.checked_div(self.weights(self.k)).unwrap_or(0);
        self.smallest() * groups + share
    }

    // Place g: how many readings the groups 0 to g have.
    pub fn cuts(self) -> [usize; 16] {
        let mut cuts = [0; 16];
        for g in 0..self.k {
            cuts[g] = self.cut(g + 1);
        }
        cuts
    }
}
