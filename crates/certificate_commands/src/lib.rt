//! The commands `check`, `descend`, `make` and `bulk`, which check certificates of 3-spheres, simplify tables, and make
//! 3-spheres with their certificates.
#![tactic(auto)]

mod bulk_command;
mod check_command;
mod descend_command;
mod documents;
mod faults;
mod make_command;
mod summaries;

pub use bulk_command::bulk;
pub use check_command::check;
pub use descend_command::descend;
pub use make_command::make;
