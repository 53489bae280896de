//! Certificates that a table is a 3-sphere, as moves that end at a table isomorphic to the standard sphere (Pachner
//! 1991).
//!
//! - `check`: whether moves are a certificate of a table, or the first reason why not
//! - `descend`: simplifies a table by 4-1 and 3-2 moves, and says whether it reached the standard sphere
//! - `standard`: the standard sphere, of one tetrahedron
//!
//! Contracts state that the moves are legal and which table results. That moves keep the manifold is topology and is
//! not proved. A descent that does not reach the sphere shows nothing.
#![tactic(auto)]

mod accepted;
mod checking;
mod descending;
mod sphere;

pub use accepted::is_accepted;
pub use canonical_labelling::{NotConnected, WalkFault};
pub use checking::{CheckFault, check, check_owned};
pub use descending::{Descent, descend};
pub use sphere::standard;
