//! The matching equations of a table.

ghost use Rattle.std.specs.Prelude.{◌≡◌, ◌≢◌, ◌+◌, ◌<◌, ◌≤◌, ◌^◌, [], ◌∷◌, ◌++◌, length, IfOk, OnOk};
ghost use Rattle.surface_definitions.specs.Coordinates as coordinates;
ghost use Rattle.surface_definitions.specs.Equations.{matching, matching_rows};
ghost use Rattle.surface_definitions.specs.Equations as equations;
ghost use Rattle.table_definitions.specs.Table.{max_tets};
ghost use Rattle.matching_equations.specs.Matching.{glued_rows, face_rows, tet_rows};

use crate::equation::{Sides, row_of};
use cone_arithmetic::System;
use gluing_table::{Face, Glue, Table};
use normal_discs::{DiscCoords, arc_columns, columns};
use out_of_memory::NoMemory;
use std::alloc::Global;

/// A face of a table with its gluing. Invariant: both tetrahedra are below 1,000.
#[derive(Drop)]
struct GluedFace {
    face: Face,
    glue: Glue,
    ghost tet: { face.tet < max_tets },
    ghost other_tet: { glue.tet < max_tets },
}

/// Appends the equation of the normal arcs around `vertex` in the glued face `pair`.
fn push_equation(
    alloc: Global,
    coords: DiscCoords,
    pair: &GluedFace,
    vertex: u8,
    system: &mut System,
) -> Result<(), NoMemory>
    requires a_vertex { vertex < 4 }
    requires separate { vertex ≢ pair.now.face.face }
    requires room { length system.old.rows + 1 < 2 ^ 32 }
    ensures columns { OnOk result (system.new.columns ≡ system.old.columns) }
    ensures rows { OnOk result (system.new.rows
        ≡ system.old.rows ++ equations.row_of system.old.columns
        (matching coords.system pair.now.face pair.now.glue vertex) ∷ []) }
    ensures one_more { OnOk result (length system.new.rows ≡ length system.old.rows + 1) }
{
    let face = pair.face;
    let glue = pair.glue;
    let left = arc_columns(coords, face.tet, face.face, vertex);
    let other_face = glue.perm.image(face.face);
    let other_vertex = glue.perm.image(vertex);
    let right = arc_columns(coords, glue.tet, other_face, other_vertex);
    let sides = Sides {
        left: left.as_slice(),
        right: right.as_slice(),
    };
    let row = row_of(alloc, system.columns(), sides)?;
    system.push_row(row)?;
    Ok(())
}

/// Appends the three equations of the glued face `pair`.
fn push_glued(
    alloc: Global,
    coords: DiscCoords,
    pair: &GluedFace,
    system: &mut System,
) -> Result<(), NoMemory>
    requires room { length system.old.rows + 4 < 2 ^ 32 }
    ensures columns { OnOk result (system.new.columns ≡ system.old.columns) }
    ensures rows { OnOk result (system.new.rows
        ≡ system.old.rows ++ glued_rows coords.system system.old.columns pair.now.face pair.now.glue) }
    ensures limited { OnOk result (length system.new.rows ≤ length system.old.rows + 4) }
{
    let face = pair.face;
    let opposite = face.face;
    for vertex in 0..4 {
        if vertex != opposite {
            push_equation(alloc, coords, pair, vertex, system)?;
        }
    }
    Ok(())
}

/// Appends the equations of `face`, if it is glued and the first one of the pair.
fn push_face(
    alloc: Global,
    coords: DiscCoords,
    table: &Table,
    face: Face,
    system: &mut System,
) -> Result<(), NoMemory>
    requires in_range { face.tet < length table.now }
    requires room { length system.old.rows + 4 < 2 ^ 32 }
    ensures columns { OnOk result (system.new.columns ≡ system.old.columns) }
    ensures rows { OnOk result (system.new.rows
        ≡ system.old.rows ++ face_rows coords.system table.now system.old.columns face) }
    ensures limited { OnOk result (length system.new.rows ≤ length system.old.rows + 4) }
{
    if let Some(glue) = table.glue(face) {
        if face.is_before(glue.other_side(face)) {
            push_glued(alloc, coords, &GluedFace { face, glue }, system)?;
        }
    }
    Ok(())
}

/// Appends the equations of the faces of tetrahedron `tet`.
fn push_tet(
    alloc: Global,
    coords: DiscCoords,
    table: &Table,
    tet: u32,
    system: &mut System,
) -> Result<(), NoMemory>
    requires in_range { tet < length table.now }
    requires room { length system.old.rows + 16 < 2 ^ 32 }
    ensures columns { OnOk result (system.new.columns ≡ system.old.columns) }
    ensures rows { OnOk result (system.new.rows
        ≡ system.old.rows ++ tet_rows coords.system table.now system.old.columns tet) }
    ensures limited { OnOk result (length system.new.rows ≤ length system.old.rows + 16) }
{
    for face in 0..4 {
        push_face(alloc, coords, table, Face { tet, face }, system)?;
    }
    Ok(())
}

/// The matching equations of `table` in the coordinates `coords` (Haken 1961). There is one for each pair of glued
/// faces and each vertex of the first face: both sides have equal numbers of normal arcs around the vertex.
pub fn matching_system(alloc: Global, coords: DiscCoords, table: &Table) -> Result<System, NoMemory>
    ensures columns { IfOk result (λ s. s.columns ≡ coordinates.columns coords.system (length table.now)) }
    ensures rows { IfOk result (λ s. s.rows ≡ matching_rows coords.system table.now) }
    ensures limited { IfOk result (λ s. length s.rows ≤ 16000) }
{
    let tets = table.rows().len() as u32;
    let mut system = System::new(alloc, columns(coords.system, tets));
    for tet in 0..tets {
        push_tet(alloc, coords, table, tet, &mut system)?;
    }
    Ok(system)
}
