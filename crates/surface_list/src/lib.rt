//! All vertex normal surfaces of a gluing table, in standard, quad or octagon coordinates.
//!
//! - `surfaces`, `surfaces_by`, `surfaces_of_table`: the list, from a skeleton, from equations, or from a table
//! - `packed_surfaces_by`, `packed_surfaces_of_table`: the list in half the memory
//! - `write_list`: a line for each vector
//!
//! Contracts state that the list is exactly the admissible primitive extreme rays of the solution cone, each once, in
//! lexicographic order. Time and memory are not bounded.
#![tactic(auto)]

mod bounded;
mod bounds;
mod listed;
mod of_skeleton;

pub use listed::{packed_surfaces_by, packed_surfaces_of_table, surfaces_by, surfaces_of_table};
pub use of_skeleton::surfaces;
pub use vector_text::write_list;
