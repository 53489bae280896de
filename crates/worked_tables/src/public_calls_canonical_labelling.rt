//! The calls of `canonical_labelling`, each once with its type. Calls that take or return a borrow are named as they
//! are called.
use canonical_labelling::{SameFault, Start, WalkFault, Walked, same, signature, walk};
use gluing_table::{Relabelling, Table};
use std::alloc::Global;

#[test]
fn calls_have_their_types(_rt: HostRuntime) {
    let _walk: fn(Global, &Table, Start) -> Result<Walked, WalkFault> = walk;
    let _signature: fn(Global, &Table) -> Result<Vec<u8>, WalkFault> = signature;
    let _same: fn(Global, &Table, &Table) -> Result<Option<Relabelling>, SameFault> = same;
}
