//! The maximal tree of shortest paths from tetrahedron 0.

ghost use Rattle.std.specs.Prelude.{◌↔◌, IsTrue, IfOk};
ghost use Rattle.table_definitions.specs.Places.{IsConnected};
ghost use Rattle.edge_group.specs.Searches.{AreDistances};
ghost use Rattle.edge_group.specs.Across.{IsOneLess, IsCloserFace, IsLeastOf, IsLeastCloser, AreLeastCloser};
ghost use Rattle.edge_group.specs.Turns.{IsTreeWith};

use crate::distances::distances;
use crate::places::{FaceOfTable, TetOfTable};
use gluing_table::{Face, Table};
use out_of_memory::NoMemory;
use std::alloc::{AllocError, Global};

/// The tree face of each tetrahedron, and the distance of each tetrahedron from tetrahedron 0.
#[derive(Drop)]
pub struct FaceTree {
    pub faces: Vec<Option<Face>>,
    pub distances: Vec<Option<u32>>,
}

/// Whether `far` is `near` plus 1.
fn is_one_less(near: Option<u32>, far: Option<u32>) -> bool
    ensures { IsTrue result ↔ IsOneLess near far }
{
    let Some(near) = near else {
        return false;
    };
    let Some(far) = far else {
        return false;
    };
    near < far && far - near == 1
}

/// The face glued to the face `at`, if its tetrahedron is closer to tetrahedron 0.
fn closer_face(distances: &[Option<u32>], at: FaceOfTable<'_>) -> Option<Face>
    requires { AreDistances at.table.now distances.now }
    ensures { IsCloserFace at.entry.table.now at.entry.face result }
{
    let face = at.face;
    let Some(glue) = at.table.glue(face) else {
        return None;
    };
    if is_one_less(distances[glue.tet as usize], distances[face.tet as usize]) {
        Some(glue.other_side(face))
    } else {
        None
    }
}

/// The first, by tetrahedron and number, of `first` and `second`, or the one that there is.
fn smaller(first: Option<Face>, second: Option<Face>) -> Option<Face>
    ensures { IsLeastOf first second result }
{
    let Some(one) = first else {
        return second;
    };
    let Some(other) = second else {
        return first;
    };
    if other.is_before(one) {
        Some(other)
    } else {
        Some(one)
    }
}

/// The least face glued to the tetrahedron `at` of a tetrahedron closer to tetrahedron 0.
fn tree_face(distances: &[Option<u32>], at: TetOfTable<'_>) -> Option<Face>
    requires { AreDistances at.table.now distances.now }
    ensures { IsLeastCloser at.entry.table.now at.entry.tet 4 result }
{
    let mut least = None;
    for face in 0..4 {
        let face = FaceOfTable {
            table: at.table,
            face: Face { tet: at.tet, face },
        };
        least = smaller(least, closer_face(distances, face));
    }
    least
}

/// The tree face of each tetrahedron of `table`.
fn tree_faces(
    alloc: Global,
    table: &Table,
    distances: &[Option<u32>],
) -> Result<Vec<Option<Face>>, AllocError>
    requires { AreDistances table.now distances.now }
    ensures { IfOk result (λ faces. AreLeastCloser table.now faces.items) }
{
    let mut faces = Vec::with_capacity(alloc, distances.len())?;
    for tet in 0..table.len() {
        faces.push(tree_face(distances, TetOfTable { table, tet }))?;
    }
    Ok(faces)
}

/// The tree faces of `table`, which is connected, and the distances from tetrahedron 0.
pub fn shortest_tree(alloc: Global, table: &Table) -> Result<FaceTree, NoMemory>
    requires { IsConnected table.now }
    ensures { IfOk result (λ tree. IsTreeWith table.now tree.faces.items tree.distances.items) }
{
    let distances = distances(alloc, table)?;
    let faces = tree_faces(alloc, table, &distances)?;
    Ok(FaceTree { faces, distances })
}
