//! Reads the words of the command line as a request.
//!
//! - `read_words`: the request of the words, whose values are in range, or that they are not a command with valid
//!   options
//!
//! Which words are accepted is a function of the words alone, and the contract states that the result is its value.
#![tactic(auto)]

mod program;
mod reader;
mod values;

pub use command_definitions::Request;
pub use cone_definitions::Order;
pub use reader::read_words;
use std::alloc::AllocError;
pub use surface_definitions::Coords;

/// Why `read_words` fails.
#[derive(Clone, Copy)]
pub enum WordsFault {
    /// Memory ran out.
    NoMemory,
    /// The words are not a command with its options.
    Usage,
}

impl From<AllocError> for WordsFault {
    ghost use Rattle.std.specs.Prelude.{◌≡◌};
    ghost use Rattle.command_words.specs.declared.WordsFault.TheVariants.{NoMemory};

    ghost from_gives = { λ e f. f ≡ NoMemory };

    fn from(_error: AllocError) -> WordsFault {
        WordsFault::NoMemory
    }
}
