//! The equations of normal and octagonal surfaces of a gluing table, in standard, quad and octagon coordinates.
//!
//! - `equations`, `equations_of_table`, `matching_system`, `quad_equations`: the system of rows
//! - `column`, `columns`: the column of a disc type, and the number of columns
#![tactic(auto)]

mod equation;
mod matching;
mod pieces;
mod quads;
mod table_equations;

pub use matching::matching_system;
pub use normal_discs::{DiscCoords, columns};
pub use pieces::column;
pub use surface_definitions::{Coords, Piece};
pub use table_equations::{equations, equations_of_table, quad_equations};
