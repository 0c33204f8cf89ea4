// This crate has laws and no code of its own: what is written is read back. A crate must have a function.
#![tactic(auto)]

fn nothing() {}
