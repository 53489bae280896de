//! Scripts of moves, as steps in text, and sessions that play, undo and redo moves.
//!
//! - `read_move`, `read_moves`, `read_step`, `write_move`, `write_moves`: moves and steps as text
//! - `Session`: a table with its played moves; `undo` restores the table row for row
//! - `append_move_fault`: why a move is illegal, as text
#![tactic(auto)]

mod faults;
mod reader;
mod session;
mod writer;

pub use faults::append_move_fault;
pub use reader::{Step, read_move, read_moves, read_step};
pub use session::{PlayFault, Session};
pub use writer::{write_move, write_moves};
