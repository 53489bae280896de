//! The links of the vertex classes of a gluing table.
//!
//! - `links`: for each vertex class a `Link` with its numbers of triangles, edges and vertices, its Euler
//!   characteristic, and whether it is closed and orientable
//!
//! The kind of a link (`LinkKind`) is read off from these numbers; that they determine the surface is not proved.
#![tactic(auto)]

mod link;
mod sides;
mod tally;

pub use link::links;
pub use skeleton_definitions::{Link, LinkKind};
