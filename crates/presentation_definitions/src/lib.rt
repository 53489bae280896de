//! Tree faces, generators and relators of a table. The definitions are in `specs/`; `proofs/` has worked examples.
#![tactic(auto)]

/// A generator, by its number from 1, or its inverse.
#[derive(Clone, Copy, PartialEq, Eq)]
pub struct Letter {
    pub generator: u32,
    pub inverse: bool,
}

/// Why a table has no presentation.
#[derive(Clone, Copy)]
pub enum GroupFault {
    /// The table is disconnected; this is the least tetrahedron that no path from tetrahedron 0 reaches.
    NotConnected { tet: u32 },
    /// An edge class is invalid, and this is the least such class.
    InvalidEdge { class: u32 },
}
