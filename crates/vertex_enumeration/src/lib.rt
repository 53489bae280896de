//! The list of all vertex surfaces of a system, found by the fastest method if no order of the rows can exceed the
//! limit.
//!
//! - `vertex_list`: the list, or the first step of the named order at which a number exceeds the limit
//! - `rays`: the same for a cone without clashing columns, so all its primitive extreme rays
//!
//! If all numbers are bounded the list does not depend on the method, so the rows are solved first. Otherwise they are
//! eliminated in the named order.
#![tactic(auto)]

mod enumeration;
mod list;

pub use enumeration::rays;
pub use list::{Terms, vertex_list};
