//! What a skeleton holds of a table besides its classes.

ghost use Rattle.std.specs.Prelude.{length, IfOk};
ghost use Rattle.std.specs.Option.{option_map};
ghost use Rattle.skeleton_definitions.specs.Skeleton.{IsOrientation};
ghost use Rattle.skeleton_class_laws.specs.Numberings.{AreClassesOf};
ghost use Rattle.skeleton_class_laws.specs.declared.Kind.TheVariants.{Vertices, Edges};
ghost use Rattle.skeleton.specs.Parts.{AreDegrees, AreBoundaryMarks, AreRounds, items_of};

use crate::boundary::boundary_marks;
use crate::corners::{Corner, walks};
use crate::degrees::degrees_of;
use crate::numbering::Numbering;
use crate::signs::orientation_of;
use gluing_table::Table;
use out_of_memory::NoMemory;
use std::alloc::Global;

/// The degrees of the vertex and edge classes, which edge classes are on the boundary, the orientation by signs of the
/// tetrahedra, if there is one, and the tours of the edge classes.
#[derive(Drop)]
pub struct Marks {
    pub vertex_degrees: Vec<u32>,
    pub edge_degrees: Vec<u32>,
    pub boundary: Vec<bool>,
    pub signs: Option<Vec<bool>>,
    pub walks: Vec<Vec<Corner>>,
}

/// Computes degrees, boundary marks, orientation and tours for `table`, whose vertex and edge classes are `vertices`
/// and `edges`.
pub fn marks_of(
    alloc: Global,
    table: &Table,
    vertices: &Numbering,
    edges: &Numbering,
) -> Result<Marks, NoMemory>
    requires vertices { AreClassesOf Vertices table.now vertices.now.classes.items vertices.now.firsts.items }
    requires edges { AreClassesOf Edges table.now edges.now.classes.items edges.now.firsts.items }
    ensures vertex_degrees { IfOk result
        (λ m. AreDegrees vertices.now.classes.items (length vertices.now.firsts.items) m.vertex_degrees.items) }
    ensures edge_degrees { IfOk result
        (λ m. AreDegrees edges.now.classes.items (length edges.now.firsts.items) m.edge_degrees.items) }
    ensures boundary { IfOk result (λ m.
        AreBoundaryMarks table.now edges.now.classes.items (length edges.now.firsts.items) m.boundary.items) }
    ensures orientation { IfOk result (λ m. IsOrientation table.now (option_map items_of m.signs)) }
    ensures walks { IfOk result (λ m.
        AreRounds table.now edges.now.firsts.items m.boundary.items (length edges.now.firsts.items) m.walks.items) }
{
    let vertex_degrees = degrees_of(alloc, vertices)?;
    let edge_degrees = degrees_of(alloc, edges)?;
    let boundary = boundary_marks(alloc, table, edges)?;
    let signs = orientation_of(alloc, table)?;
    let walks = walks(alloc, table, &edges.firsts, &boundary)?;
    Ok(Marks {
        vertex_degrees,
        edge_degrees,
        boundary,
        signs,
        walks,
    })
}
