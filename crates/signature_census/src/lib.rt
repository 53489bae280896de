//! A census of tables up to isomorphism, by their signatures in the order of first occurrence. The class of a table is
//! the index of its signature.
//!
//! - `Census::add`: the class of a connected table, which is new if no isomorphic table was added before
//! - `Census::signature_of`: the signature of a class
#![tactic(auto)]

mod census;

pub use canonical_labelling::{NotConnected, WalkFault};
pub use census::Census;
