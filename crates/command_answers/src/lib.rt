//! What the commands share: outcomes, the one line of each refusal, and documents of tables and vectors.
//!
//! - `Outcome`: a status and the text to be written
//! - `read_table_document` and the other `read` functions: documents from bytes, with the first error
//! - `fault_outcome`, `not_connected_outcome`, `invalid_edge_outcome`, `refused_vector`: refusals
#![tactic(auto)]

mod answers;
mod document;
mod lines;
mod outcome;
mod refusals;
mod vectors;
mod verdicts;

pub use answers::answer_read;
pub use document::{
    TableAndVector, TableAndVectors, TwoTables, end_document, read_table, read_table_and_vector,
    read_table_and_vectors, read_table_document, read_two_tables,
};
pub use lines::{accepted_outcome, append_flag, append_number_line, line_outcome, yes_or_no};
pub use outcome::Outcome;
pub use refusals::{fault_outcome, invalid_edge_outcome, not_connected_outcome, refused_vector};
pub use vectors::{read_numbers, read_vector};
pub use verdicts::append_checked;
