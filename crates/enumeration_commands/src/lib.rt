//! The commands `verify`, `surfaces` and `rays`, which check and list solutions of the equations of a table or of the
//! rows of a cone.
#![tactic(auto)]

mod enumerations;
mod rays_command;
mod surfaces_command;
mod verify_command;

pub use rays_command::rays;
pub use surfaces_command::surfaces;
pub use verify_command::verify;
