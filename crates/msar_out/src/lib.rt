// What the program writes to standard output.
#![tactic(auto)]

ghost use Rattle.std.specs.Prelude.{◌<◌, ◌≤◌};

use host_io::EprintBytes;
use std::io;

pub mod model;
pub mod table;

// Says so where standard output takes no more, as on a full disk.
pub fn is_written(rt: &impl EprintBytes, went: io::Result<()>) -> bool {
    match went {
        Ok(()) => true,
        Err(error) => {
            msar_say::failed(rt, b"cannot write ", b"standard output", error);
            false
        }
    }
}

// Beyond the table +0.
pub fn entry(table: &[f64], i: usize) -> f64 {
    table.get(i).copied().unwrap_or(0.0)
}

// The place of a row's first number.
pub fn row_start(row: usize, k: usize) -> usize
    requires { (row < 4096) × (k ≤ 16) }
    ensures { result ≤ 65536 }
{
    row * k
}
