//! The calls of `cone_core`, each once with its type. Calls that take or return a borrow are named as they are called.
use bench_io::NoMemory;
use cone_core::{CombineFault, Ray, SolutionFault, SparseRow, System, combine, gcd, is_solution};
use std::alloc::Global;
use std::test::Fail;

#[test]
fn calls_have_their_types(_rt: HostRuntime) {
    let _row: fn(Global, &[(u32, i32)]) -> Result<SparseRow, NoMemory> = SparseRow::new;
    let _system: fn(Global, u32) -> System = System::new;
    let _push_row: fn(&mut System, SparseRow) -> Result<(), NoMemory> = System::push_row;
    let _columns: fn(&System) -> u32 = System::columns;
    let _len: fn(&System) -> u32 = System::len;
    let _unit: fn(Global, u32, u32) -> Result<Ray, NoMemory> = Ray::unit;
    let _copy: fn(&Ray, Global) -> Result<Ray, NoMemory> = Ray::copy;
    let _gcd: fn(u128, u128) -> u128 = gcd;
    let _combine: fn(Global, &Ray, &Ray, u128, u128, u128) -> Result<Ray, CombineFault> = combine;
    let _is_solution: fn(&System, &[u128]) -> Result<(), SolutionFault> = is_solution;
}

#[test]
fn entries_are_lent(rt: HostRuntime) -> Result<(), Fail> {
    let ray = Ray::unit(rt.alloc(), 3, 1)?;
    let entries: &[u128] = Ray::entries(&ray);
    assert_eq!(rt; entries, [0, 1, 0].as_slice());
    Ok(())
}
