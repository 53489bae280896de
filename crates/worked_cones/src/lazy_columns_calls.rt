ghost use Rattle.std.specs.Prelude.{◌≤◌, length};
ghost use Rattle.text_definitions.specs.Text.{max_text};

use crate::sample_cones::{are_rays, cone};
use cone_core::Ray;
use lazy_columns::vertex_surfaces;
use ray_steps::{Clashes, NoClash, wide_rays};
use std::alloc::Global;
use std::process::Abort;
use std::test::Fail;

// Without clashing pairs.
fn rays_of(rt: &impl Abort, alloc: Global, text: &[u8]) -> Result<Option<Vec<Ray>>, Fail>
    requires text { length text.now ≤ max_text }
{
    let system = cone(rt, alloc, text)?;
    let columns = system.columns();
    let clashes = Clashes::new(alloc, NoClash { columns })?;
    match vertex_surfaces(alloc, &system, &clashes)? {
        Some(packed) => Ok(Some(wide_rays(alloc, packed)?)),
        None => Ok(None),
    }
}

#[test]
fn columns_enter_late(rt: HostRuntime) -> Result<(), Fail> {
    let alloc = rt.alloc();
    let none = rays_of(&rt, alloc, b"cone 2 0")?;
    are_rays(&rt, &none.expect(&rt, "rays"), &[&[0, 1], &[1, 0]]);
    // the last column is new in the last row, but with -2
    let doubled = rays_of(&rt, alloc, b"cone 3 2\n1 -2 0\n0 1 -2")?;
    are_rays(&rt, &doubled.expect(&rt, "rays"), &[&[4, 2, 1]]);
    // the fifth column comes with 1, the sixth with -1, and the last never
    let raised = rays_of(
        &rt,
        alloc,
        b"cone 7 3\n1 1 -1 -1 0 0 0\n1 0 -1 0 1 0 0\n0 1 0 0 -1 -1 0",
    )?;
    are_rays(
        &rt,
        &raised.expect(&rt, "rays"),
        &[
            &[0, 0, 0, 0, 0, 0, 1],
            &[0, 1, 0, 1, 0, 1, 0],
            &[0, 1, 1, 0, 1, 0, 0],
            &[1, 0, 1, 0, 0, 0, 0],
        ],
    );
    Ok(())
}

#[test]
fn large_numbers_have_no_answer(rt: HostRuntime) -> Result<(), Fail> {
    let alloc = rt.alloc();
    let six = rays_of(
        &rt,
        alloc,
        b"cone 5 4\n1000000 -1 0 0 0\n0 1000000 -1 0 0\n0 0 1000000 -1 0\n0 0 0 1000000 -1",
    )?;
    assert!(rt; six.is_some());
    let seven = rays_of(
        &rt,
        alloc,
        b"cone 8 7\n1000000 -1 0 0 0 0 0 0\n0 1000000 -1 0 0 0 0 0\n0 0 1000000 -1 0 0 0 0\n0 0 0 1000000 -1 0 0 0\n0 0 0 0 1000000 -1 0 0\n0 0 0 0 0 1000000 -1 0\n0 0 0 0 0 0 1000000 -1",
    )?;
    assert!(rt; seven.is_none());
    Ok(())
}
