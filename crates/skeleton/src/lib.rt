//! The skeleton of a gluing table: its vertex, edge and face classes, and its orientation.
//!
//! - `Skeleton`: the classes with their degrees, which edges are valid or on the boundary, the orientation, and
//!   `around`, the corners around an internal edge
//! - `classes_of`: the classes of one kind
//! - `edge_ends`: the vertices of an edge of a tetrahedron
//!
//! Two vertices, edges or faces are in one class if and only if a chain of gluings identifies them, and classes are
//! numbered by their least members.
#![tactic(auto)]

mod boundary;
mod corners;
mod crossings;
mod degrees;
mod edges;
mod marks;
mod neighbours;
mod numbering;
mod signs;
mod skeleton;

pub use corners::Corner;
pub use edges::edge_ends;
pub use numbering::{Numbering, classes_of};
pub use skeleton::Skeleton;
pub use skeleton_class_laws::Kind;
