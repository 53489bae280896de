//! The top of the workbench, with one call that does all that the program does.
//!
//! - `run`: from words, a source and a sink to a status; its contract is all that the program promises
//! - `outcome_of`: the outcome for words and an input in memory
//! - `exit_code`: the exit status of the program
//!
//! Not proved: time, memory, and that standard input and output are a source and a sink as their traits state.
#![tactic(auto)]

mod dispatch;
mod in_memory;
mod steady;

ghost use Rattle.std.specs.Prelude.{◌≡◌};
ghost use Rattle.workbench.specs.Codes.{code_of};

pub use dispatch::run;
pub use in_memory::outcome_of;
pub use outcome_definitions::Status;
pub use steady::run_steadily;

/// The exit status of the program for `status`.
pub fn exit_code(status: Status) -> u8
    ensures { result ≡ code_of status }
{
    match status {
        Status::Done => 0,
        Status::Usage => 2,
        Status::Input => 3,
        Status::Refused => 4,
        Status::Large => 5,
        Status::ReadFault => 6,
        Status::WriteFault => 7,
        Status::NoMemory => 8,
    }
}
