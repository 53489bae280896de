//! Pachner moves of gluing tables, with their legality, their inverses, and the record that takes a move back.
//!
//! - `Move`, `Core`: a move 1-4, 2-3, 3-2 or 4-1, by a tetrahedron and the vertices of its core
//! - `legal`: the facets that a legal move removes, or the first reason why it is illegal
//! - `apply`, `take_back`: play a move, and restore the rows from before it
//! - `inverse_move`: the inverse move up to relabelling
//!
//! Contracts state the table after a move row by row. That a move keeps the manifold is topology and is not proved.
#![tactic(auto)]

mod cores;
mod facet;
mod facets;
mod legality;
mod moving;

pub use cores::{Core, Move, inverse_on, retained};
pub use facet::Facet;
pub use facets::{Label, closed_number, facet_of};
pub use legality::{Pattern, legal};
pub use move_definitions::MoveFault;
pub use moving::{Undo, apply, apply_legal, inverse_move, keeps_limit, take_back};
