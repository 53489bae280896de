use crate::sample_cones::{SPHERE, skeleton_of};
use std::test::Fail;
use surface_definitions::Coords;
use surface_properties::{PropertyFault, Sum, properties_of};

#[test]
fn surfaces_of_a_sphere_are_counted(rt: HostRuntime) -> Result<(), Fail> {
    let skeleton = skeleton_of(rt.alloc(), SPHERE)?;
    assert_eq!(rt; skeleton.table().len(), 1);
    let torus = properties_of(&skeleton, Coords::Standard, &[1, 1, 0, 0, 1, 0, 0]);
    assert_eq!(rt; torus.ok().expect(&rt, "properties").euler, 0);
    let octagon = properties_of(&skeleton, Coords::Octagon, &[0, 0, 1, 1, 0, 0, 0, 1, 0, 0])
        .ok()
        .expect(&rt, "properties");
    assert_eq!(rt; octagon.points, 6);
    assert_eq!(rt; octagon.arcs, 7);
    assert_eq!(rt; octagon.pieces, 3);
    assert_eq!(rt; octagon.euler, 2);
    assert!(rt; !octagon.linking && !octagon.boundary);
    let most = 170_141_183_460_469_231_731_687_303_715_884_105_727;
    let large = properties_of(
        &skeleton,
        Coords::Standard,
        &[most, most, most, most, 0, 0, 0],
    );
    assert!(rt; matches!(large, Err(PropertyFault::Large { sum: Sum::Points })));
    Ok(())
}
