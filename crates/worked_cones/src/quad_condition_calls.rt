use crate::sample_cones::{SPHERE, read_table};
use cone_core::MAX_ENTRY;
use matching_equations::{Coords, DiscCoords, matching_system};
use out_of_memory::NoMemory;
use quad_condition::{Masks, VectorFault, check_vector, clash_list, first_clash};
use std::test::Fail;
use support_bits::Support;

#[test]
fn vectors_of_a_sphere_are_checked(rt: HostRuntime) -> Result<(), Fail> {
    let table = read_table(rt.alloc(), SPHERE)?;
    assert_eq!(rt; table.len(), 1);
    let system = matching_system(rt.alloc(), DiscCoords::STANDARD, &table)?;
    let big = MAX_ENTRY;
    let check = |x: &[u128]| check_vector(Coords::Standard, 1, &system, x).err();
    assert!(rt; check(&[1, 1, 0, 0, 1, 0, 0]).is_none());
    let other = check(&[1, 0, 0, 0, 0, 0, 0]);
    assert!(rt; matches!(other, Some(VectorFault::NotSolution { row: 0 })));
    let clash = check(&[0, 0, 1, 1, 0, 1, 1]);
    assert!(rt;
        matches!(
            clash,
            Some(VectorFault::Clash {
                first: 5,
                second: 6
            })
        )
    );
    let short = check(&[1, 1, 0, 0, 1, 0]);
    assert!(rt; matches!(short, Some(VectorFault::Length { got: 6 })));
    assert!(rt; check(&[0, 0, 0, 0, 0, 0, 0]).is_none());
    let large = check(&[big, big, 0, 0, 0, big, big]);
    assert!(rt; matches!(large, Some(VectorFault::Large { row: 4 })));
    Ok(())
}

#[test]
fn octagons_of_two_tetrahedra_clash(rt: HostRuntime) -> Result<(), NoMemory> {
    let mut x = [0u128; 20];
    x[7] = 1;
    x[17] = 1;
    assert_eq!(rt; first_clash(Coords::Octagon, 2, &x), Some((7, 17)));
    let pairs = clash_list(rt.alloc(), Coords::Quad, 2)?;
    assert_eq!(rt;
        pairs.as_slice(),
        &[(0u32, 1u32), (0, 2), (1, 2), (3, 4), (3, 5), (4, 5)][..]
    );
    assert_eq!(rt; clash_list(rt.alloc(), Coords::Octagon, 2)?.len(), 39);
    Ok(())
}

#[test]
fn clashing_supports_are_reported(rt: HostRuntime) -> Result<(), NoMemory> {
    let alloc = rt.alloc();
    let quads = Masks::new(alloc, Coords::Quad, 1)?;
    let first = Support::of(alloc, &[1, 0, 0])?;
    let last = Support::of(alloc, &[0, 0, 5])?;
    assert!(rt; quads.allows(&first, &first));
    assert!(rt; !quads.allows(&first, &last));
    let octagons = Masks::new(alloc, Coords::Octagon, 2)?;
    let mut x = [0u128; 20];
    x[7] = 1;
    let octagon = Support::of(alloc, &x)?;
    x[7] = 0;
    x[17] = 1;
    let other = Support::of(alloc, &x)?;
    x[17] = 0;
    x[14] = 1;
    let quad = Support::of(alloc, &x)?;
    assert!(rt; octagons.allows(&octagon, &quad));
    assert!(rt; !octagons.allows(&octagon, &other));
    assert!(rt; !octagons.allows(&quad, &other));
    Ok(())
}
