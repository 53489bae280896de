//! A presentation of the group of a gluing table, with generators from faces off a maximal tree and relators around its
//! internal edges.
//!
//! - `Group::of`: the presentation of a connected table without invalid edges
//! - `face_of`, `turns`: the face class of a generator, and whether it reverses orientation
//! - `edge_of`, `relator`: the edge class of a relator, and its letters
//! - `tree_face`: the maximal tree, of shortest paths from tetrahedron 0
//!
//! Contracts state the generators and relators. That they present the fundamental group is topology and is not proved.
#![tactic(auto)]

mod distances;
mod faces;
mod generators;
mod group;
mod places;
mod relators;
mod tree;
mod turning;

pub use group::Group;
pub use out_of_memory::Failure;
pub use presentation_definitions::{GroupFault, Letter};
