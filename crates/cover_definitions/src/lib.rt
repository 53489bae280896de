//! The orientable double cover of a table, its deck transformation, and its split into two copies. The definitions are
//! in `specs/`; `proofs/` has worked examples.
#![tactic(auto)]

/// Why a table has no cover: the cover exceeds the limit of tetrahedra.
#[derive(Clone, Copy)]
pub struct LargeCover;
