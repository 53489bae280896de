//! The commands `info`, `sig`, `csig`, `same`, `csame` and `group`, which read off what the gluings of tables
//! determine.
#![tactic(auto)]

mod csame_command;
mod csig_command;
mod group_command;
mod groups;
mod info_command;
mod information;
mod same_command;
mod sig_command;

pub use csame_command::csame;
pub use csig_command::csig;
pub use group_command::group;
pub use info_command::info;
pub use same_command::same;
pub use sig_command::sig;
