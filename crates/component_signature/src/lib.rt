//! The connected components of a table, its component signature, and the least isomorphism of two tables component by
//! component.
//!
//! - `parts`: each component as a table of its own, with the numbers of its tetrahedra
//! - `component_signature`: two tables have equal component signatures if and only if they are isomorphic
//! - `same_parts`: an isomorphism of two tables, or that there is none
#![tactic(auto)]

mod components;
mod drafts;
mod matches;
mod order;
mod renumbered;
mod signatures;
mod split;

pub use matches::same_parts;
pub use signatures::component_signature;
pub use split::{Part, parts};
