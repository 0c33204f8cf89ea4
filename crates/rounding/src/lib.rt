// This crate has laws and no code of its own; a crate must have a function.
#![tactic(auto)]

fn nothing() {}
