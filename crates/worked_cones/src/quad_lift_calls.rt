use crate::sample_cones::{SPHERE, skeleton_of};
use quad_lift::{Failure, LiftFault, lift, project};
use std::test::Fail;

#[test]
fn a_sphere_has_a_torus(rt: HostRuntime) -> Result<(), Fail> {
    let skeleton = skeleton_of(rt.alloc(), SPHERE)?;
    assert_eq!(rt; skeleton.table().len(), 1);
    let lifted = lift(rt.alloc(), &skeleton, &[1, 0, 0])
        .ok()
        .expect(&rt, "a lift");
    assert_eq!(rt; lifted.as_slice(), [1, 1, 0, 0, 1, 0, 0].as_slice());
    let quads = project(rt.alloc(), 1, &lifted).expect(&rt, "memory");
    assert_eq!(rt; quads.as_slice(), [1, 0, 0].as_slice());
    let most = 170_141_183_460_469_231_731_687_303_715_884_105_727;
    let large = lift(rt.alloc(), &skeleton, &[most, 0, 0]);
    assert!(rt; matches!(large, Err(Failure::Fault(LiftFault::Large))));
    Ok(())
}

#[test]
fn a_figure_eight_has_no_lift(rt: HostRuntime) -> Result<(), Fail> {
    let skeleton = skeleton_of(rt.alloc(), b"cPcbbbiht")?;
    assert_eq!(rt; skeleton.table().len(), 2);
    let lifted = lift(rt.alloc(), &skeleton, &[2, 0, 0, 0, 0, 1]);
    assert!(rt; matches!(lifted, Err(Failure::Fault(LiftFault::NoLift { class: 0 }))));
    Ok(())
}
