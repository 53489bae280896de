//! Determines which generators reverse orientation.

ghost use Rattle.std.specs.Prelude.{◌≡◌, IfOk};
ghost use Rattle.std.specs.List.{AllZip};
ghost use Rattle.table_definitions.specs.Table as gluings;
ghost use Rattle.table_definitions.specs.Table.{IsTable};
ghost use Rattle.presentation_definitions.specs.Trees.{is_even_gluing};
ghost use Rattle.presentation_definitions.specs.Presentations.{IsTurning, IsTurningFace};
ghost use Rattle.edge_group.specs.Turns.{IsPathOdd, IsTreeWith};

use crate::faces::face_of;
use crate::generators::Generators;
use crate::places::{FaceOfTable, GluedFace, TetOfTable};
use crate::tree::FaceTree;
use out_of_memory::NoMemory;
use std::alloc::Global;

/// Whether the face `at` has an even gluing.
fn is_even(at: FaceOfTable<'_>) -> bool
    ensures value { result ≡ is_even_gluing (gluings.glue at.entry.table.now at.entry.face) }
    ensures is_table { IsTable at.entry.table.now }
{
    match at.table.glue(at.face) {
        Some(glue) => !glue.perm.is_odd(),
        None => false,
    }
}

/// Whether the path in the tree to the tetrahedron `at` has an odd number of even gluings.
fn is_path_odd(tree: &FaceTree, at: TetOfTable<'_>) -> bool
    requires { IsTreeWith at.table.now tree.now.faces.items tree.now.distances.items }
    ensures { IsPathOdd at.entry.table.now at.entry.tet result }
{
    let table = at.table;
    let mut odd = false;
    let mut tet = at.tet;
    'path: while let Some(face) = tree.faces[tet as usize] {
        odd = odd != is_even(FaceOfTable { table, face });
        tet = face.tet;
    }
    odd
}

/// Whether the loop through the tree to the face `at`, across it, and back through the tree has an odd number of even
/// gluings.
fn turns(tree: &FaceTree, at: GluedFace<'_>) -> bool
    requires { IsTreeWith at.table.now tree.now.faces.items tree.now.distances.items }
    ensures { IsTurningFace at.entry.table.now at.entry.face result }
{
    let GluedFace { table, face } = at;
    let Some(glue) = table.glue(face) else {
        unreachable!();
    };
    let start = TetOfTable {
        table,
        tet: face.tet,
    };
    let end = TetOfTable {
        table,
        tet: glue.tet,
    };
    let forth = is_path_odd(tree, start);
    let back = is_path_odd(tree, end);
    (forth != is_even(FaceOfTable { table, face })) != back
}

impl Generators<'_> {
    /// For each generator whether it reverses orientation. `tree` is the maximal tree by which the generators are made.
    pub fn turning(&self, alloc: Global, tree: &FaceTree) -> Result<Vec<bool>, NoMemory>
        requires { IsTreeWith self.now.skeleton.rows tree.now.faces.items tree.now.distances.items }
        ensures { IfOk result (λ turning. AllZip (IsTurning self.now.skeleton) self.now.classes turning.items) }
    {
        let table = self.skeleton.table();
        let mut turning = Vec::with_capacity(alloc, self.classes.len())?;
        for class in &self.classes {
            turning.push(turns(
                tree,
                GluedFace {
                    table,
                    face: face_of(self.firsts[*class as usize]),
                },
            ))?;
        }
        Ok(turning)
    }
}
