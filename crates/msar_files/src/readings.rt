// What is kept of the readings of a file: their values, their lines, and the cells that are to be carried along. What finds no room is
// counted and not kept.
ghost use Rattle.std.specs.Prelude.{◌≡◌, []};

use arrayvec::ArrayVec;

// One reading more than a call takes.
const ROOM: usize = 4097;

// Behind the kept cells of the readings stands that of the heading.
pub const HEADING: usize = 4097;

const CELLS: usize = 4098;

// A kept cell's text stands behind its length.
#[derive(Drop)]
pub struct Readings {
    pub values: ArrayVec<f64, ROOM>,
    pub lines: ArrayVec<u64, ROOM>,
    pub cells: [[u8; 64]; CELLS],
}

impl Readings {
    pub fn none() -> Readings
        ensures { (result.values.items ≡ []) × (result.lines.items ≡ []) }
    {
        Readings {
            values: ArrayVec::new(),
            lines: ArrayVec::new(),
            cells: [[0; 64]; CELLS],
        }
    }

    pub(crate) fn add(&mut self, value: f64, line: u64) {
        let _ = self.values.try_push(value);
        let _ = self.lines.try_push(line);
    }

    // A cell of at most 63 bytes, longer ones are refused before.
    pub(crate) fn keep(&mut self, i: usize, text: &[u8]) {
        let n = text.len().min(63);
        if let Some(cell) = self.cells.get_mut(i) {
            cell[0] = n as u8;
            cell[1..=n].copy_from_slice(&text[..n]);
        }
    }
}
