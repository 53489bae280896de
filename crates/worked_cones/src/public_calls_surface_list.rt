//! The calls of `surface_list`, each once with its type.
use cone_core::Ray;
use double_description::{EnumFault, Order};
use matching_equations::Coords;
use out_of_memory::NoMemory;
use skeleton::Skeleton;
use std::alloc::Global;
use surface_list::{surfaces, write_list};

#[test]
fn calls_have_their_types(_rt: HostRuntime) {
    let _surfaces: fn(Global, &Skeleton, Coords, Order, u128) -> Result<Vec<Ray>, EnumFault> =
        surfaces;
    let _write_list: fn(Global, &[Ray], &mut Vec<u8>) -> Result<(), NoMemory> = write_list;
}
