//! The calls of `support_bits`, each once with its type. Calls that take or return a borrow are named as they are
//! called.
use out_of_memory::NoMemory;
use std::alloc::Global;
use support_bits::Support;

#[test]
fn calls_have_their_types(_rt: HostRuntime) {
    let _of: fn(Global, &[u128]) -> Result<Support, NoMemory> = Support::of;
    let _columns: fn(&Support) -> u32 = Support::columns;
    let _contains: fn(&Support, u32) -> bool = Support::contains;
    let _same: fn(&Support, &Support) -> bool = Support::same;
    let _inside_union: fn(&Support, &Support, &Support) -> bool = Support::inside_union;
    let _meets: fn(&Support, &Support) -> bool = Support::meets;
}
