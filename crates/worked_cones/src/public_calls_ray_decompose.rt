//! The calls of `ray_decompose`, each once with its type.
use cone_core::{Ray, System};
use ray_decompose::{AddFault, Given, Sum, SumFault, add_up, decompose};
use std::alloc::Global;

#[test]
fn calls_have_their_types(_rt: HostRuntime) {
    let _decompose: fn(Global, &System, &[Ray], &[u128], u128) -> Result<Sum, SumFault> = decompose;
    let _add_up: fn(&[u128], u128, &[Given]) -> Result<(), AddFault> = add_up;
}
