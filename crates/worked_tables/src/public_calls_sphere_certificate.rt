//! The calls of `sphere_certificate`, each once with its type.
use gluing_table::Table;
use out_of_memory::{Failure, NoMemory};
use pachner_moves::Move;
use sphere_certificate::{CheckFault, Descent, WalkFault, check, descend, standard};
use std::alloc::Global;

#[test]
fn calls_have_their_types(_rt: HostRuntime) {
    let _standard: fn(Global) -> Result<Table, NoMemory> = standard;
    let _check: fn(Global, &Table, &[Move]) -> Result<(), Failure<CheckFault>> = check;
    let _descend: fn(Global, &Table) -> Result<Descent, WalkFault> = descend;
}
