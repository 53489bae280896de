//! Classes of vertices, edges, faces and signs under gluing.

ghost use Rattle.std.specs.Prelude.{◌<◌, ◌^◌, ℕ, length, slice_index, IfOk};
ghost use Rattle.skeleton_class_laws.specs.Numberings.{AreClassesOf, AreFirsts, IsOrdered};
ghost use Rattle.skeleton_class_laws.specs.declared.Kind.TheVariants.{Vertices, Edges, Directions, Faces};

use crate::neighbours::neighbours;
use finite_walks::classes;
use gluing_table::Table;
use out_of_memory::NoMemory;
use skeleton_class_laws::Kind;
use std::alloc::Global;

/// Things in classes: `classes[i]` is the class of thing `i`, and `firsts[c]` is the least member of class `c`.
/// Invariant: each class is below the length of `firsts`.
#[derive(Drop)]
pub struct Numbering {
    pub classes: Vec<u32>,
    pub firsts: Vec<u32>,
    pub ghost limited: { length classes.items < 2 ^ 32 },
    pub ghost in_range: { (i : ℕ) → i < length classes.items → slice_index classes.items i < length firsts.items },
}

/// The classes of the vertices, edges, faces and directed edges of a table.
#[derive(Drop)]
pub struct Classes {
    pub vertices: Numbering,
    pub edges: Numbering,
    pub faces: Numbering,
    pub directions: Numbering,
}

/// The least member of each class of `classes`, in which classes are numbered by their least members.
fn firsts(alloc: Global, classes: &[u32]) -> Result<Vec<u32>, NoMemory>
    requires ordered { IsOrdered classes.now }
    requires limited { length classes.now < 2 ^ 32 }
    ensures { IfOk result (λ firsts. AreFirsts classes.now firsts.items) }
{
    let mut firsts = Vec::new(alloc);
    for place in 0..classes.len() as u32 {
        if classes[place as usize] as usize == firsts.len() {
            firsts.push(place)?;
        }
    }
    Ok(firsts)
}

/// The classes of kind `kind` of `table` under gluing, numbered from 0 by their least members.
pub fn classes_of(alloc: Global, table: &Table, kind: Kind) -> Result<Numbering, NoMemory>
    ensures { IfOk result (λ r. AreClassesOf kind table.now r.classes.items r.firsts.items) }
{
    let neighbours = neighbours(alloc, table, kind)?;
    let numbered = classes(alloc, &neighbours)?;
    let firsts = firsts(alloc, &numbered.classes)?;
    Ok(Numbering {
        classes: numbered.classes,
        firsts,
    })
}

/// The vertex, edge, face and directed edge classes of `table`, each numbered by their least members.
pub fn all_classes(alloc: Global, table: &Table) -> Result<Classes, NoMemory>
    ensures vertices { IfOk result (λ c.
        AreClassesOf Vertices table.now c.vertices.classes.items c.vertices.firsts.items) }
    ensures edges { IfOk result (λ c. AreClassesOf Edges table.now c.edges.classes.items c.edges.firsts.items) }
    ensures faces { IfOk result (λ c. AreClassesOf Faces table.now c.faces.classes.items c.faces.firsts.items) }
    ensures directions { IfOk result
        (λ c. AreClassesOf Directions table.now c.directions.classes.items c.directions.firsts.items) }
{
    let vertices = classes_of(alloc, table, Kind::Vertices)?;
    let edges = classes_of(alloc, table, Kind::Edges)?;
    let faces = classes_of(alloc, table, Kind::Faces)?;
    let directions = classes_of(alloc, table, Kind::Directions)?;
    Ok(Classes {
        vertices,
        edges,
        faces,
        directions,
    })
}
