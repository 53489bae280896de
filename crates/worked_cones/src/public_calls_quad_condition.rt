//! The calls of `quad_condition`, each once with its type.
use cone_core::System;
use matching_equations::Coords;
use out_of_memory::NoMemory;
use quad_condition::{Masks, VectorFault, check_vector, clash_list, first_clash};
use std::alloc::Global;
use support_bits::Support;

#[test]
fn calls_have_their_types(_rt: HostRuntime) {
    let _clash_list: fn(Global, Coords, u32) -> Result<Vec<(u32, u32)>, NoMemory> = clash_list;
    let _new: fn(Global, Coords, u32) -> Result<Masks, NoMemory> = Masks::new;
    let _allows: fn(&Masks, &Support, &Support) -> bool = Masks::allows;
    let _first_clash: fn(Coords, u32, &[u128]) -> Option<(u32, u32)> = first_clash;
    let _check_vector: fn(Coords, u32, &System, &[u128]) -> Result<(), VectorFault> = check_vector;
}
