//! The quadrilateral condition, by which quads and octagons of one tetrahedron clash, and any two octagons do.
//!
//! - `check_vector`: whether a vector is an admissible solution, or what fails first
//! - `clash_list`, `first_clash`: the clashing pairs, and the first one in a vector
//! - `Masks`, `MaskedClashes`: the test whether a union of supports contains a clashing pair, word by word
#![tactic(auto)]

mod check;
mod clashes;
mod masked;
mod masks;
mod space;
mod words;

pub use check::check_vector;
pub use clashes::{clash_list, first_clash};
pub use masked::MaskedClashes;
pub use masks::Masks;
pub use surface_definitions::VectorFault;
