//! Rows, systems of rows and rays of a cone, with exact arithmetic up to a limit.
//!
//! - `SparseRow`, `System`: rows with coefficients up to `MAX_COEFFICIENT`
//! - `Ray`, `PackedRay`: primitive integer vectors with entries up to `MAX_ENTRY`; `Ray` stores 128 bits for each, and
//!   `PackedRay` 8 or 64 bits for each if these suffice
//! - `parts`, `combine`, `combine_inside`: the positive and negative part of a row at a ray, and the combination of two
//!   rays at which a row is 0
//! - `is_solution`: whether a vector solves a system
//!
//! No result is rounded or wraps around: a number above the limit is an error that names the first place.
#![tactic(auto)]

mod combination;
mod divisors;
mod entries;
mod filled;
mod limit;
mod narrow;
mod numbers;
mod packed;
mod pair;
mod ray;
mod row;
mod small;
mod system;

pub use limit::Limit;
pub use numbers::{MAX_ENTRY, Passed, PlusMinus, gcd, parts};
pub use packed::PackedRay;
pub use pair::{RayPair, combine_inside};
pub use ray::{CombineFault, Ray, combine, compare};
pub use row::{MAX_COEFFICIENT, SparseRow};
pub use system::{SolutionFault, System, is_solution};
