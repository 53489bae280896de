//! The lift of a quad vector to standard coordinates, and the quads of a standard vector.
//!
//! - `lift`: the standard vector without a vertex link as a summand, or the least vertex at which there is none
//! - `project`: the quads of a standard vector
#![tactic(auto)]

mod checks;
mod crossing;
mod heights;
mod lifting;
mod lows;
mod quad_vector;
mod sums;

pub use lifting::{lift, project};
pub use out_of_memory::Failure;
pub use surface_vector_definitions::LiftFault;
