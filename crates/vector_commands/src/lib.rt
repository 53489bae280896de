//! The commands `describe`, `crush` and `lift`, which compute with single vectors of a table.
#![tactic(auto)]

mod crush_command;
mod describe_command;
mod descriptions;
mod lift_command;
mod refusals;

pub use crush_command::crush;
pub use describe_command::describe;
pub use lift_command::lift;
