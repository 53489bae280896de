ghost use Rattle.std.specs.Prelude.{◌≤◌};

use crate::sample_cones::{SPHERE, are_rays, skeleton_of};
use cone_core::MAX_ENTRY;
use double_description::Order;
use matching_equations::Coords;
use std::alloc::Global;
use std::process::Abort;
use std::test::Fail;
use surface_list::surfaces;

fn are_surfaces(
    rt: &impl Abort,
    alloc: Global,
    signature: &[u8],
    coords: Coords,
    limit: u128,
    vectors: &[&[u128]],
) -> Result<(), Fail>
    requires most_limit { limit ≤ MAX_ENTRY }
{
    let skeleton = skeleton_of(alloc, signature)?;
    match surfaces(alloc, &skeleton, coords, Order::Given, limit) {
        Ok(rays) => {
            are_rays(rt, &rays, vectors);
        }
        Err(_) => assert!(rt; false),
    }
    Ok(())
}

#[test]
fn surfaces_of_small_tables(rt: HostRuntime) -> Result<(), Fail> {
    let alloc = rt.alloc();
    for limit in [MAX_ENTRY, 64, 63, 1] {
        are_surfaces(
            &rt,
            alloc,
            SPHERE,
            Coords::Standard,
            limit,
            &[&[1, 1, 0, 0, 1, 0, 0], &[1, 1, 1, 1, 0, 0, 0]],
        )?;
    }
    are_surfaces(&rt, alloc, SPHERE, Coords::Quad, MAX_ENTRY, &[&[1, 0, 0]])?;
    are_surfaces(&rt, alloc, b"a", Coords::Standard, MAX_ENTRY, &[])?;
    are_surfaces(
        &rt,
        alloc,
        b"baa",
        Coords::Standard,
        MAX_ENTRY,
        &[
            &[0, 0, 0, 0, 0, 0, 1],
            &[0, 0, 0, 0, 0, 1, 0],
            &[0, 0, 0, 0, 1, 0, 0],
            &[0, 0, 0, 1, 0, 0, 0],
            &[0, 0, 1, 0, 0, 0, 0],
            &[0, 1, 0, 0, 0, 0, 0],
            &[1, 0, 0, 0, 0, 0, 0],
        ],
    )?;
    Ok(())
}
