//! The calls of `command_words`, each once with its type.
use bench_io::Words;
use command_words::{Request, WordsFault, read_words};
use std::alloc::Global;

#[test]
fn calls_have_their_types(_rt: HostRuntime) {
    let _read_words: fn(Global, &Words) -> Result<Request, WordsFault> = read_words;
}
