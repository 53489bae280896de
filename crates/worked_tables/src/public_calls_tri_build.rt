//! The calls of `tri_build`, each once with its type.
use out_of_memory::NoMemory;
use std::alloc::Global;
use tri_build::{Made, make};

#[test]
fn calls_have_their_types(_rt: HostRuntime) {
    let _make: fn(Global, u64, u32) -> Result<Made, NoMemory> = make;
}
