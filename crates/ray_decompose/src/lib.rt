//! Writes a solution as a sum of listed rays, and tests such a sum.
//!
//! - `decompose`: a multiple of a solution as a sum of rays, or the first step at which a number exceeds the limit
//! - `add_up`: whether terms add up to a multiple of a vector
#![tactic(auto)]

mod adding;
mod columns;
mod decomposing;
mod fraction;
mod products;
mod taking;

pub use adding::{Given, add_up};
pub use decomposing::{Sum, SumFault, Term, decompose};
pub use sum_definitions::{AddFault, LargeTurn as Large};
