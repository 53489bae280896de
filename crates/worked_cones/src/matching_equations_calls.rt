use crate::sample_cones::{SPHERE, are_rows, entries, read_table, skeleton_of};
use matching_equations::{Coords, Piece, column, columns, equations, equations_of_table};
use std::test::Fail;

#[test]
fn a_sphere_has_six_rows(rt: HostRuntime) -> Result<(), Fail> {
    let skeleton = skeleton_of(rt.alloc(), SPHERE)?;
    let standard = equations(rt.alloc(), &skeleton, Coords::Standard)?;
    assert_eq!(rt; standard.columns(), 7);
    are_rows(
        &rt,
        &standard,
        &[
            &[(0, -1), (1, 1)],
            &[(5, 1), (6, -1)],
            &[(5, -1), (6, 1)],
            &[(0, 1), (1, -1)],
            &[(1, 1), (2, -1), (4, -1), (6, 1)],
            &[(0, -1), (3, 1), (4, 1), (6, -1)],
        ],
    );
    Ok(())
}

#[test]
fn octagons_are_in_the_same_rows(rt: HostRuntime) -> Result<(), Fail> {
    let table = read_table(rt.alloc(), SPHERE)?;
    let octagon = equations_of_table(rt.alloc(), &table, Coords::Octagon)?;
    assert_eq!(rt; octagon.len(), 6);
    assert_eq!(rt;
        entries(&octagon, 4),
        &[(1u32, 1), (2, -1), (4, -1), (6, 1), (7, 1), (9, -1)][..]
    );
    Ok(())
}

#[test]
fn a_sphere_has_two_rows_in_quads(rt: HostRuntime) -> Result<(), Fail> {
    let skeleton = skeleton_of(rt.alloc(), SPHERE)?;
    let quad = equations(rt.alloc(), &skeleton, Coords::Quad)?;
    assert_eq!(rt; quad.columns(), 3);
    are_rows(&rt, &quad, &[&[(1, -1), (2, 1)], &[(1, 1), (2, -1)]]);
    Ok(())
}

#[test]
fn pieces_have_columns(rt: HostRuntime) {
    assert_eq!(rt; columns(Coords::Quad, 2), 6);
    assert_eq!(rt;
        (
            column(Coords::Standard, 1, Piece::Quad(2)),
            column(Coords::Octagon, 1, Piece::Oct(0)),
            column(Coords::Quad, 1, Piece::Tri(0)),
            column(Coords::Standard, 0, Piece::Tri(4)),
        ),
        (Some(13u32), Some(17u32), None, None)
    );
}
