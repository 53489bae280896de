//! The calls of `signature_codec`, each once with its type. Calls that take or return a borrow are named as they are
//! called.
use gluing_table::Table;
use signature_codec::{SigFault, SpellFault, read_signature, spell};
use std::alloc::Global;

#[test]
fn calls_have_their_types(_rt: HostRuntime) {
    let _spell: fn(Global, &Table) -> Result<Vec<u8>, SpellFault> = spell;
    let _read_signature: fn(Global, &[u8]) -> Result<Table, SigFault> = read_signature;
}
