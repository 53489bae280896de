//! Counts what a normal surface consists of: points on edges, arcs and normal discs, and so its Euler characteristic.
//!
//! - `properties_of`: the Euler characteristic, whether the surface is a sum of vertex links, and whether it meets the
//!   boundary
//! - `is_linking`: whether a vector has no quads and octagons
#![tactic(auto)]

mod arcs;
mod points;
mod properties;
mod sums;
mod vectors;

pub use properties::{is_linking, properties_of};
pub use surface_vector_definitions::{Properties, PropertyFault, SurfaceSum as Sum};
