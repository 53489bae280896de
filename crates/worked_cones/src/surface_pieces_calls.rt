ghost use Rattle.std.specs.Prelude.{◌≤◌, sum};
ghost use Rattle.text_definitions.specs.Written.{limit};

use crate::sample_cones::skeleton_of;
use gluing_table::Table;
use matching_equations::equations;
use skeleton::Skeleton;
use std::alloc::Global;
use std::process::Abort;
use std::test::Fail;
use surface_definitions::Coords;
use surface_pieces::Pieces;
use surface_refusals::check;

/// A triangle and two quads of a tetrahedron without glued faces: no two of them have a common arc.
#[test]
fn pieces_that_meet_none_are_components(rt: HostRuntime) -> Result<(), Fail> {
    let alloc = rt.alloc();
    let Ok(table) = Table::from_rows(alloc, &[[None, None, None, None]]) else {
        panic!(rt; "a table was expected");
    };
    let skeleton = Skeleton::of(alloc, &table).expect(&rt, "memory");
    let pieces = Pieces::build(alloc, &skeleton, Coords::Standard, &[1, 0, 0, 0, 2, 0, 0])
        .ok()
        .ok_or("no pieces")?;
    assert_eq!(rt; pieces.components(), 3);
    assert_eq!(rt; pieces.vector(0), [1, 0, 0, 0, 0, 0, 0].as_slice());
    assert_eq!(rt; pieces.vector(2), [0, 0, 0, 0, 1, 0, 0].as_slice());
    assert!(rt; pieces.two_sided(1) && pieces.orientable(1));
    Ok(())
}

/// The components of `x`, if it is a surface.
fn pieces_of(alloc: Global, skeleton: &Skeleton, x: &[u128]) -> Result<Pieces, Fail>
    requires { sum x.now ≤ limit }
{
    let system = equations(alloc, skeleton, Coords::Standard)?;
    match check(Coords::Standard, skeleton.table(), &system, x) {
        Ok(()) => Ok(
            Pieces::build(alloc, skeleton, Coords::Standard, x)
                .ok()
                .ok_or("no pieces")?,
        ),
        Err(_) => Err("no surface")?,
    }
}

/// Whether a surface with one component, `pieces`, is two-sided, and whether it is orientable.
fn sides_of_one(rt: &impl Abort, pieces: &Pieces) -> (bool, bool) {
    assert_eq!(rt; pieces.components(), 1);
    (pieces.two_sided(0), pieces.orientable(0))
}

/// One quad of this table is one-sided; two quads are two-sided, and so are the triangles around its vertex.
#[test]
fn pieces_of_a_closed_table_are_joined(rt: HostRuntime) -> Result<(), Fail> {
    let skeleton = skeleton_of(rt.alloc(), b"bkaajj")?;
    let one = pieces_of(rt.alloc(), &skeleton, &[0, 0, 0, 0, 0, 1, 0])?;
    assert_eq!(rt; sides_of_one(&rt, &one), (false, false));
    let two = pieces_of(rt.alloc(), &skeleton, &[0, 0, 0, 0, 0, 2, 0])?;
    assert_eq!(rt; sides_of_one(&rt, &two), (true, true));
    let link = pieces_of(rt.alloc(), &skeleton, &[1, 1, 1, 1, 0, 0, 0])?;
    assert_eq!(rt; sides_of_one(&rt, &link), (true, true));
    Ok(())
}
