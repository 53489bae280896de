//! Crushes a table along a normal surface, which removes the tetrahedra with quads and follows faces through them.
//!
//! - `crush_table`, `crush`: the crushed table
//!
//! Contracts state the gluings of the crushed table. What crushing does to the manifold is topology and is not proved.
#![tactic(auto)]

mod chain;
mod crushed;
mod quads;
mod surface;

pub use crushed::{crush, crush_table};
