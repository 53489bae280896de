//! The calls of `matching_equations`, each once with its type.
use cone_core::System;
use matching_equations::{Coords, Piece, column, columns, equations};
use out_of_memory::NoMemory;
use skeleton::Skeleton;
use std::alloc::Global;

#[test]
fn calls_have_their_types(_rt: HostRuntime) {
    let _columns: fn(Coords, u32) -> u32 = columns;
    let _column: fn(Coords, u32, Piece) -> Option<u32> = column;
    let _equations: fn(Global, &Skeleton, Coords) -> Result<System, NoMemory> = equations;
}
