//! The orientable double cover of a table, with its projection, its deck transformation, and its splitting over an
//! orientable table.
//!
//! - `Cover::of`, `table`: the cover of at most 1,000 tetrahedra
//! - `over`, `sheet`: the tetrahedron below, and the sheet
//! - `exchange`: the deck transformation
//! - `split`: the isomorphism to two copies of an orientable table
#![tactic(auto)]

mod cover;
mod images;
mod rows;
mod sheets;

pub use cover::{Cover, CoverFault};
pub use cover_definitions::LargeCover as TooMany;
pub use out_of_memory::Failure;
