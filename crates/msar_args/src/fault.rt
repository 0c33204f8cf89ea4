// What is at fault in the command line.
use host_io::EprintBytes;
use std::rt::Env;

// What is said of the call as a whole, or of the word with this number, which stands behind it.
#[derive(Clone, Copy)]
pub enum Fault {
    Call(&'static [u8]),
    Word(&'static [u8], usize),
}

impl Fault {
    pub fn say(self, rt: &(impl Env + EprintBytes)) {
        match self {
            Fault::Call(what) => msar_say::error(rt, what),
            Fault::Word(what, i) => {
                let mut word = host_io::buffer();
                let n = host_io::arg(rt, i, &mut word);
                msar_say::error_of(rt, what, &word[..n]);
            }
        }
    }
}
