//! The command `play`, which runs a script of moves on a table.
#![tactic(auto)]

mod documents;
mod play_command;
mod script;
mod steps;

pub use play_command::play;
