// The files that the program reads.
#![tactic(auto)]

use host_io::{EprintBytes, Opened};
use std::io::Input;
use std::rt::Files;

pub mod csv;
mod fault;
mod lines;
pub mod model;
pub mod readings;
pub mod series;

// A file, `-` being standard input; none where it cannot be opened, which is said by then.
pub fn opened<R: Files + Input + EprintBytes>(
    rt: &R,
    path: &[u8],
) -> Option<Opened<R::File, R::Reader>> {
    if let b"-" = path {
        return Some(Opened::Input(rt.reader()));
    }
    match host_io::open_read(rt, path) {
        Ok(file) => Some(Opened::File(file)),
        Err(error) => {
            msar_say::failed(rt, b"cannot open ", path, error);
            None
        }
    }
}
