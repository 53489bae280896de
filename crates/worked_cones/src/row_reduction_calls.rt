use crate::sample_cones::{are_rows, cone};
use row_reduction::{SolveFault, solve};
use std::test::Fail;

#[test]
fn solves_rows(rt: HostRuntime) -> Result<(), Fail> {
    let alloc = rt.alloc();
    let system = cone(
        &rt,
        alloc,
        b"cone 5 4\n1 -1 0 2 0\n0 1 1 0 -1\n-1 1 0 0 5\n0 0 0 0 0",
    )?;
    let solved = solve(alloc, &system, 1, &[0, 1]).ok().ok_or("not solved")?;
    assert_eq!(rt; solved.columns(), 5);
    are_rows(
        &rt,
        &solved,
        &[
            &[(3, 2), (4, 5)],
            &[(0, 1), (2, 1), (3, 2), (4, -1)],
            &[(1, 1), (2, 1), (4, -1)],
        ],
    );
    Ok(())
}

/// The equations of the sphere of one tetrahedron, whose columns 0 to 3 are the triangles. The rows with column 4,
/// which the row of quads lacks, come last.
#[test]
fn solves_a_sphere(rt: HostRuntime) -> Result<(), Fail> {
    let alloc = rt.alloc();
    let system = cone(
        &rt,
        alloc,
        b"cone 7 6\n-1 1 0 0 0 0 0\n0 0 0 0 0 1 -1\n0 0 0 0 0 -1 1\n1 -1 0 0 0 0 0\n0 1 -1 0 -1 0 1\n-1 0 0 1 1 0 -1",
    )?;
    let solved = solve(alloc, &system, 7, &[0, 1, 2, 3])
        .ok()
        .ok_or("not solved")?;
    are_rows(
        &rt,
        &solved,
        &[
            &[(5, 1), (6, -1)],
            &[(2, -1), (3, 1)],
            &[(0, -1), (3, 1), (4, 1), (6, -1)],
            &[(1, 1), (3, -1), (4, -1), (6, 1)],
        ],
    );
    Ok(())
}

/// The row of four terms is made sparser, and the row that names two blocks of two columns comes last.
#[test]
fn makes_rows_sparser(rt: HostRuntime) -> Result<(), Fail> {
    let alloc = rt.alloc();
    let system = cone(
        &rt,
        alloc,
        b"cone 6 3\n1 0 0 0 -1 0\n1 1 1 1 0 0\n1 1 0 0 0 0",
    )?;
    let solved = solve(alloc, &system, 2, &[]).ok().ok_or("not solved")?;
    are_rows(
        &rt,
        &solved,
        &[&[(2, 1), (3, 1)], &[(0, 1), (1, 1)], &[(0, 1), (4, -1)]],
    );
    Ok(())
}

#[test]
fn a_great_coefficient_passes(rt: HostRuntime) -> Result<(), Fail> {
    let alloc = rt.alloc();
    let system = cone(&rt, alloc, b"cone 3 2\n1 1000 0\n1001 0 1")?;
    let passed = solve(alloc, &system, 1, &[0]);
    assert!(rt; matches!(passed, Err(SolveFault::Passed)));
    are_rows(
        &rt,
        &solve(alloc, &system, 1, &[1, 2]).ok().ok_or("not solved")?,
        &[&[(0, 1), (1, 1000)], &[(0, 1001), (2, 1)]],
    );
    Ok(())
}
