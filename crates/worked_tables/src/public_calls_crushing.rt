//! The calls of `crushing`, each once with its type.
use crushing::crush;
use gluing_table::Table;
use out_of_memory::NoMemory;
use skeleton::Skeleton;
use std::alloc::Global;

#[test]
fn calls_have_their_types(_rt: HostRuntime) {
    let _crush: fn(Global, &Skeleton, &[u128]) -> Result<Table, NoMemory> = crush;
}
