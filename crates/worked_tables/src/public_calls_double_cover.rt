//! The calls of `double_cover`, each once with its type. Calls that take or return a borrow are named as they are
//! called.
use double_cover::{Cover, CoverFault};
use gluing_table::Relabelling;
use out_of_memory::NoMemory;
use skeleton::Skeleton;
use std::alloc::Global;

#[test]
fn calls_have_their_types(_rt: HostRuntime) {
    let _of: fn(Global, &Skeleton) -> Result<Cover, CoverFault> = Cover::of;
    let _over: fn(&Cover, u32) -> u32 = Cover::over;
    let _sheet: fn(&Cover, u32) -> u8 = Cover::sheet;
    let _exchange: fn(&Cover, Global) -> Result<Relabelling, NoMemory> = Cover::exchange;
    let _split: fn(&Cover, Global) -> Result<Option<Relabelling>, NoMemory> = Cover::split;
}
