//! Lists of neighbours across the four faces.

ghost use Rattle.std.specs.Prelude.{◌≡◌, ◌*◌, ◌<◌, ◌≤◌, length, IfOk};
ghost use Rattle.table_definitions.specs.Table.{IsTable};
ghost use Rattle.skeleton_class_laws.specs.Neighbours.{AreNeighbours, row_at};
ghost use Rattle.skeleton_class_laws.specs.Numberings.{per_tet, crossing};

use crate::crossings::{Exit, face_across, vertex_across};
use crate::edges::{direction_across, edge_across};
use crate::signs::{sign_across, vertex_sign_across};
use gluing_table::Table;
use out_of_memory::NoMemory;
use skeleton_class_laws::Kind;
use std::alloc::Global;

fn per_tet(kind: Kind) -> u32
    ensures { result ≡ per_tet kind }
{
    match kind {
        Kind::Vertices => 4,
        Kind::Edges => 6,
        Kind::Directions => 12,
        Kind::Faces => 4,
        Kind::Signs => 2,
        Kind::VertexSigns => 8,
    }
}

/// What `place`, of kind `kind`, is glued to across `exit.face`, or `None`.
fn across(exit: Exit<'_>, kind: Kind, place: u32) -> Option<u32>
    requires { place < per_tet kind * length exit.table.now }
    ensures { result ≡ crossing kind exit.entry.table.now place exit.entry.face }
{
    match kind {
        Kind::Vertices => vertex_across(exit, place),
        Kind::Edges => edge_across(exit, place),
        Kind::Directions => direction_across(exit, place),
        Kind::Faces => face_across(exit.table, place, exit.face),
        Kind::Signs => sign_across(exit, place),
        Kind::VertexSigns => vertex_sign_across(exit, place),
    }
}

fn row_of(table: &Table, kind: Kind, place: u32) -> [Option<u32>; 4]
    requires { place < per_tet kind * length table.now }
    ensures { result ≡ row_at (crossing kind table.now) place }
{
    [
        across(Exit { table, face: 0 }, kind, place),
        across(Exit { table, face: 1 }, kind, place),
        across(Exit { table, face: 2 }, kind, place),
        across(Exit { table, face: 3 }, kind, place),
    ]
}

/// For each vertex, edge, or other thing of kind `kind` of `table`, what it is glued to across each of the four faces.
pub fn neighbours(
    alloc: Global,
    table: &Table,
    kind: Kind,
) -> Result<Vec<[Option<u32>; 4]>, NoMemory>
    ensures rows { IfOk result (λ rows.
        AreNeighbours (per_tet kind * length table.now) (crossing kind table.now) rows.items) }
    ensures is_table { IsTable table.now }
{
    let count = count_of(table, kind);
    let mut rows = Vec::with_capacity(alloc, count as usize)?;
    for place in 0..count {
        rows.push(row_of(table, kind, place))?;
    }
    Ok(rows)
}

/// The number of things of kind `kind` in `table`.
fn count_of(table: &Table, kind: Kind) -> u32
    ensures value { result ≡ per_tet kind * length table.now }
    ensures limited { result ≤ 24000 }
    ensures is_table { IsTable table.now }
{
    per_tet(kind) * table.len()
}
