//! The normal discs of a surface, and the connected components that they form across their common arcs.
//!
//! - `Pieces::build`: the components of a surface of at most 100,000 discs
//! - `vector`, `two_sided`, `orientable`: the vector of a component, and whether it is two-sided and orientable
#![tactic(auto)]

mod arcs;
mod columns;
mod counts;
mod joined;
mod numbers;
mod pieces;
mod rows;
mod searches;
mod signs;
mod steps;
mod surface;
mod vectors;

pub use out_of_memory::Failure;
pub use pieces::{Pieces, PiecesFault};
pub use surface_vector_definitions::ManyPieces as TooManyPieces;
