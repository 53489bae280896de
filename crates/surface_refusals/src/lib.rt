//! What the commands on surfaces share: the check of a vector, and the refusal if a number of an enumeration exceeds
//! the limit.
#![tactic(auto)]

mod checks;
mod large;

pub use checks::check;
pub use large::large_outcome;
