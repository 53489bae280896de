//! Distances from tetrahedron 0 in the dual graph, by breadth-first search.

ghost use Rattle.std.specs.Prelude.{◌≡◌, ◌<◌, length, replicate, set, None, Some, IfOk, OnOk};
ghost use Rattle.table_definitions.specs.Table.{IsTable};
ghost use Rattle.edge_group.specs.Searches.{HasGrown, IsGrown, IsFace, IsFaceOf, IsFaceOfSome, AreDistances};

use crate::places::{FaceOfTable, Level, TetOfTable};
use gluing_table::{Face, Table};
use std::alloc::{AllocError, Global};

/// Marks the tetrahedron across the face `at` with `distance` and appends it to `next`, unless it is marked or the face
/// is a boundary face.
fn cross_face(
    at: FaceOfTable<'_>,
    distance: u32,
    marks: &mut [Option<u32>],
    next: &mut Vec<u32>,
) -> Result<(), AllocError>
    requires { length marks.old ≡ length at.table.now }
    ensures grown { OnOk result (HasGrown at.entry.table.now (IsFace at.entry.face) distance marks.old marks.new
        next.old.items next.new.items) }
    ensures is_table { IsTable at.entry.table.now }
{
    let Some(glue) = at.table.glue(at.face) else {
        return Ok(());
    };
    if marks[glue.tet as usize].is_some() {
        return Ok(());
    }
    marks[glue.tet as usize] = Some(distance);
    next.push(glue.tet)?;
    Ok(())
}

/// As `cross_face`, for the four faces of the tetrahedron `at`.
fn mark_neighbours(
    at: TetOfTable<'_>,
    distance: u32,
    marks: &mut [Option<u32>],
    next: &mut Vec<u32>,
) -> Result<(), AllocError>
    requires { length marks.old ≡ length at.table.now }
    ensures { OnOk result (HasGrown at.entry.table.now (IsFaceOf at.entry.tet) distance marks.old marks.new
        next.old.items next.new.items) }
{
    for face in 0..4 {
        let face = FaceOfTable {
            table: at.table,
            face: Face { tet: at.tet, face },
        };
        cross_face(face, distance, marks, next)?;
    }
    Ok(())
}

/// Marks with `distance` the unmarked neighbours of the tetrahedra in `level`, and returns them.
fn next_level(
    alloc: Global,
    level: Level<'_>,
    distance: u32,
    marks: &mut [Option<u32>],
) -> Result<Vec<u32>, AllocError>
    requires { length marks.old ≡ length level.table.now }
    ensures { IfOk result (λ next. IsGrown level.entry.table.now (IsFaceOfSome level.entry.tets.now) distance marks.old
        marks.new next.items) }
{
    let mut next = Vec::new(alloc);
    for tet in level.tets {
        let at = TetOfTable {
            table: level.table,
            tet: *tet,
        };
        mark_neighbours(at, distance, marks, &mut next)?;
    }
    Ok(next)
}

/// Marks for `count` tetrahedra: 0 at tetrahedron 0, and no mark at the others.
fn first_marks(alloc: Global, count: usize) -> Result<Vec<Option<u32>>, AllocError>
    requires { 0 < count }
    ensures { IfOk result (λ marks. marks.items ≡ set (replicate count None) 0 (Some 0)) }
{
    let mut marks = vec![in alloc; None; count]?;
    marks[0] = Some(0);
    Ok(marks)
}

/// As `distances`, for a `table` that is not empty.
fn breadth_first(alloc: Global, table: &Table) -> Result<Vec<Option<u32>>, AllocError>
    requires { 0 < length table.now }
    ensures { IfOk result (λ marks. AreDistances table.now marks.items) }
{
    let mut marks = first_marks(alloc, table.len() as usize)?;
    let mut level = vec![in alloc; 0; 1]?;
    let mut distance = 0;
    'levels: while !level.is_empty() {
        distance += 1;
        let here = Level {
            table,
            tets: &level,
        };
        level = next_level(alloc, here, distance, &mut marks)?;
    }
    Ok(marks)
}

/// The distance of each tetrahedron of `table` from tetrahedron 0 in the dual graph; `None` if it is in another
/// component.
pub fn distances(alloc: Global, table: &Table) -> Result<Vec<Option<u32>>, AllocError>
    ensures distances { IfOk result (λ marks. AreDistances table.now marks.items) }
    ensures is_table { IsTable table.now }
{
    if table.len() == 0 {
        return Ok(Vec::new(alloc));
    }
    breadth_first(alloc, table)
}
