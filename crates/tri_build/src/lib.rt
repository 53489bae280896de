//! Tables made from a seed by random moves on the standard sphere, with the moves back as their certificates.
//!
//! - `make`: a table and its certificate, which are determined by the seed and the number of moves
//!
//! Contracts state that the certificate is one of the table, and how each move is drawn.
#![tactic(auto)]

mod candidates;
mod carrying;
mod generator;
mod inverse_moves;
mod labels;
mod making;
mod standing;
mod steps;

pub use making::{Made, make};
