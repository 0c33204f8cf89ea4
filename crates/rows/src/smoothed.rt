// What an EM step sums over: the readings, and the smoothed rows in work memory.
ghost use Rattle.std.specs.Prelude.{◌≡◌, ◌+◌, ◌*◌, ◌<◌, ◌≤◌, length, drop, take};
ghost use Rattle.window.specs.Time.{time_of};

use window::{Row, Sizes, Time};

// Row i has its windows' weights from place i·windows on.
#[derive(Clone, Copy)]
pub struct Smoothed<'a> {
    pub sizes: Sizes,
    pub y: &'a [f64],
    pub rows: usize,
    pub work: &'a [f64],
    pub ghost readings: { sizes.order + rows ≡ length y.now },
    pub ghost short: { length y.now ≤ 4096 },
    pub ghost fits: { rows * sizes.windows ≤ length work.now },
}

impl<'a> Smoothed<'a> {
    // When the reading of a row was made.
    pub fn time_of(&self, row: Row) -> Time
        requires { row.0 < self.now.rows }
        ensures { result ≡ time_of self.now.sizes.order row }
    {
        window::time_of(row, self.sizes.order)
    }

    // The weights of a row's windows.
    pub fn weights(&self, row: Row) -> &'a [f64]
        requires { row.0 < self.now.rows }
        ensures { result.now ≡ take self.now.sizes.windows (drop (row.0 * self.now.sizes.windows) self.now.work.now) }
    {
        let from = row.0 * self.sizes.windows;
        &self.work[from..from + self.sizes.windows]
    }
}
