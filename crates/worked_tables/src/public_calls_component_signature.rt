//! The calls of `component_signature`, each once with its type.
use component_signature::{Part, component_signature, parts, same_parts};
use gluing_table::{Relabelling, Table};
use out_of_memory::NoMemory;
use std::alloc::Global;

#[test]
fn calls_have_their_types(_rt: HostRuntime) {
    let _parts: fn(Global, &Table) -> Result<Vec<Part>, NoMemory> = parts;
    let _component_signature: fn(Global, &Table) -> Result<Vec<u8>, NoMemory> = component_signature;
    let _same_parts: fn(Global, &Table, &Table) -> Result<Option<Relabelling>, NoMemory> =
        same_parts;
}
