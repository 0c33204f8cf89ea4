// How many labels, lags and windows a model has.
ghost use Rattle.std.specs.Prelude.{◌≡◌, suc, ◌^◌, ◌≤◌};
ghost use Rattle.window.specs.Shape.{Shape};

// k labels and an order, with the counts that follow from them: k^order, and the k^(order + 1) windows.
#[derive(Clone, Copy)]
pub struct Sizes {
    pub k: usize,
    pub order: usize,
    pub power: usize,
    pub windows: usize,
    pub ghost shape: { Shape k order },
    pub ghost few_lags: { order ≤ 7 },
    pub ghost power_value: { power ≡ k ^ order },
    pub ghost windows_value: { windows ≡ k ^ suc order },
}

impl Sizes {
    // From the count of windows, which the spec's check has made.
    pub fn of(k: usize, order: usize, windows: usize) -> Sizes
        requires shape { Shape k order }
        requires windows_value { windows ≡ k ^ suc order }
        ensures counts { (result.k ≡ k) × (result.order ≡ order) }
        ensures powers { (result.power ≡ k ^ order) × (result.windows ≡ windows) }
    {
        Sizes {
            k,
            order,
            power: windows / k,
            windows,
        }
    }

    // From the shape alone: the windows are counted here, k for the label now and once more for each lag.
    pub fn shaped(k: usize, order: usize) -> Sizes
        requires { Shape k order }
        ensures counts { (result.k ≡ k) × (result.order ≡ order) }
        ensures powers { (result.power ≡ k ^ order) × (result.windows ≡ k ^ suc order) }
    {
        let mut windows = k;
        for _ in 0..order {
            windows = windows * k;
        }
        Sizes::of(k, order, windows)
    }
}
