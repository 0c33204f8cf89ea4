// How the parameters and the answers of the C interface stand in its arrays.
#![tactic(auto)]

pub mod given;
pub mod told;
