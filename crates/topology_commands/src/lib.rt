//! The commands `cover` and `pi1`, for the orientable double cover of a table and the generators and relators of its
//! group.
#![tactic(auto)]

mod cover_command;
mod pi1_command;
mod presentation;
mod sheets;

pub use cover_command::cover;
pub use pi1_command::pi1;
