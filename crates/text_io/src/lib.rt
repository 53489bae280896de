//! Sources and sinks of bytes, the lexer of the text formats, and functions that append bytes and decimals to a text.
//!
//! - `Source`, `Sink`: the traits. `StdSource` and `StdSink` wrap readers and writers of the standard library;
//!   `SteadySource` and `NullSink` never fail.
//! - `read_all`, `write_all`: all bytes of a source up to a limit, and all bytes to a sink
//! - `Lexer`: a cursor over lines, words and decimals, whose errors have a line and a column
//! - `append`, `append_decimal`, `append_signed`: text at the end of a vector, which is unchanged if memory runs out
//!
//! Contracts state what happens to the bytes of a source or a sink if they are visible, and count failures. What a
//! lexer reads is a function of the bytes.
//!
//! Not proved: what a reader or a writer of the standard library does with its bytes.
#![tactic(auto)]

mod decimals;
mod faults;
mod front;
mod lexer;
mod lines;
mod null;
mod sink;
mod source;
mod standard;
mod steady;
mod transfer;
mod words;
mod writing;

pub use decimals::{LIMIT, is_decimal_word, value_up_to};
pub use faults::Failed;
pub use lexer::Lexer;
pub use null::NullSink;
pub use out_of_memory::NoMemory;
pub use sink::Sink;
pub use source::Source;
pub use standard::{StdSink, StdSource};
pub use steady::{SteadySource, copy_front};
pub use text_definitions::{LexFault, LexKind, Place};
pub use transfer::{ReadEnd, read_all, write_all};
pub use words::Words;
pub use writing::{append, append_decimal, append_signed};
