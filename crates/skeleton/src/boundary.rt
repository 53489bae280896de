//! Determines which edge classes lie in the boundary.

ghost use Rattle.std.specs.Prelude.{◌≡◌, ◌*◌, ◌/◌, ◌%◌, ◌<◌, ◌&&◌, ◌||◌, not, length, IfOk};
ghost use Rattle.table_definitions.specs.Lists.{has};
ghost use Rattle.table_definitions.specs.Places as places;
ghost use Rattle.skeleton.specs.Parts.{AreBoundaryMarks, is_open_at};

use crate::crossings::{Exit, across};
use crate::edges::edge_ends;
use crate::numbering::Numbering;
use gluing_table::{Face, Table};
use out_of_memory::NoMemory;
use std::alloc::Global;

/// Whether the face `exit.face` of the tetrahedron of `edge` is a boundary face that contains `edge`.
fn is_bounded_by(exit: Exit<'_>, edge: u32) -> bool
    requires { edge < 6 * length exit.table.now }
    ensures { result ≡ (not (has (places.ends (edge % 6)) exit.entry.face)
        && places.is_boundary exit.entry.table.now (record { tet = edge / 6; face = exit.entry.face })) }
{
    let (lower, higher) = edge_ends((edge % 6) as u8);
    if lower == exit.face {
        return false;
    }
    if higher == exit.face {
        return false;
    }
    exit.of(edge / 6).is_none()
}

/// Whether `edge`, which has index 6t + e, lies in a boundary face of its tetrahedron.
fn lies_in_boundary(table: &Table, edge: u32) -> bool
    requires { edge < 6 * length table.now }
    ensures { result ≡ places.lies_in_boundary table.now edge }
{
    is_bounded_by(Exit { table, face: 0 }, edge)
        || is_bounded_by(Exit { table, face: 1 }, edge)
        || is_bounded_by(Exit { table, face: 2 }, edge)
        || is_bounded_by(Exit { table, face: 3 }, edge)
}

/// For each class of `edges`, whether one of its members lies in a boundary face of `table`.
pub fn boundary_marks(
    alloc: Global,
    table: &Table,
    edges: &Numbering,
) -> Result<Vec<bool>, NoMemory>
    requires { length edges.now.classes.items ≡ 6 * length table.now }
    ensures { IfOk result (λ marks.
        AreBoundaryMarks table.now edges.now.classes.items (length edges.now.firsts.items) marks.items) }
{
    let classes = edges.classes.as_slice();
    let mut marks = vec![in alloc; false; edges.firsts.len()]?;
    for edge in 0..classes.len() as u32 {
        if lies_in_boundary(table, edge) {
            marks[classes[edge as usize] as usize] = true;
        }
    }
    Ok(marks)
}

/// Whether `table` has no boundary face.
pub fn is_closed(table: &Table) -> bool
    ensures { result ≡ places.is_closed table.now }
{
    for tet in 0..table.len() {
        if is_open(table, tet) {
            return false;
        }
    }
    true
}

/// Whether tetrahedron `tet` has a boundary face.
fn is_open(table: &Table, tet: u32) -> bool
    requires { tet < length table.now }
    ensures { result ≡ (is_open_at table.now tet 0 || is_open_at table.now tet 1 || is_open_at table.now tet 2
        || is_open_at table.now tet 3) }
{
    across(table, Face { tet, face: 0 }).is_none()
        || across(table, Face { tet, face: 1 }).is_none()
        || across(table, Face { tet, face: 2 }).is_none()
        || across(table, Face { tet, face: 3 }).is_none()
}
