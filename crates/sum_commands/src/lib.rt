//! The commands `decompose` and `addup`, which write vectors as sums of vertex surfaces, and test such sums.
#![tactic(auto)]

mod addup_command;
mod blocks;
mod checks;
mod decompose_command;
mod equations;
mod refusals;
mod writing;

pub use addup_command::addup;
pub use decompose_command::decompose;
