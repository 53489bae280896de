//! All vertex surfaces of a system by the double description method, with columns that enter at the first row that
//! contains them.
//!
//! - `vertex_surfaces`: the list, or `None` if a number exceeds `MAX_ENTRY`
//!
//! A column has a ray only from the first row on that contains it. If a row contains a column that has not entered,
//! with coefficient 1 or -1, and that clashes with no other, the entry of each ray there is what the row leaves for it.
#![tactic(auto)]

mod elimination;
mod engine;
mod entering;
mod fresh;
mod late_rays;
mod raising;
mod row_step;

pub use engine::vertex_surfaces;
