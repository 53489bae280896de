//! Writes vectors and lists of rays as text.
#![tactic(auto)]

mod text;
mod view;

pub use text::{write_entries, write_list, write_packed_list, write_vector};
