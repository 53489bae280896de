//! The calls of `signature_census`, each once with its type. Calls that take or return a borrow are named as they are
//! called.
use gluing_table::Table;
use signature_census::{Census, WalkFault};
use std::alloc::Global;

#[test]
fn calls_have_their_types(_rt: HostRuntime) {
    let _new: fn(Global) -> Census = Census::new;
    let _add: fn(&mut Census, &Table) -> Result<u32, WalkFault> = Census::add;
    let _len: fn(&Census) -> u32 = Census::len;
}
