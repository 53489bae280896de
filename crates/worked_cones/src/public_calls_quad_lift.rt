//! The calls of `quad_lift`, each once with its type.
use out_of_memory::{Failure, NoMemory};
use quad_lift::{LiftFault, lift, project};
use skeleton::Skeleton;
use std::alloc::Global;

#[test]
fn calls_have_their_types(_rt: HostRuntime) {
    let _lift: fn(Global, &Skeleton, &[u128]) -> Result<Vec<u128>, Failure<LiftFault>> = lift;
    let _project: fn(Global, u32, &[u128]) -> Result<Vec<u128>, NoMemory> = project;
}
