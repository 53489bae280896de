//! Certificates: moves that lead from a table to one isomorphic to the standard 3-sphere, those of a table that was
//! made, and the answers of checking them. The definitions are in `specs/`; `proofs/` has worked examples.
#![tactic(auto)]

use move_definitions::MoveFault;

/// Why moves certify no table. `S` is the type of the signature, a list of characters.
#[derive(Drop)]
pub enum CheckFault<S> {
    /// The move with this number, counted from 1, is the first that is not legal.
    Illegal { step: u32, fault: MoveFault },
    /// The last table is disconnected: `tet` is the first tetrahedron that no path from tetrahedron 0 reaches.
    NotConnected { tet: u32 },
    /// The last table has this signature, which is not that of the standard sphere.
    NotStandard { signature: S },
}
