//! The moves among which one is drawn.

ghost use Rattle.std.specs.Prelude.{◌≡◌, ◌++◌, ◌<◌, [], length, map, filter, IfOk, OnOk};
ghost use Rattle.table_definitions.specs.Permutation.{four, others};
ghost use Rattle.move_definitions.specs.Certificates as certificates;
ghost use Rattle.move_definitions.specs.Certificates.{moves_at, moves_with};

use gluing_table::Table;
use out_of_memory::NoMemory;
use pachner_moves::{Core, Move};
use sphere_certificate::is_accepted;
use std::alloc::Global;

/// The cores of the four faces, by the vertex opposite.
fn faces() -> [Core; 4]
    ensures { result ≡ map others four }
{
    [
        Core::opposite_face(0),
        Core::opposite_face(1),
        Core::opposite_face(2),
        Core::opposite_face(3),
    ]
}

/// Appends the accepted moves at tetrahedron `tet` with one of `cores`.
fn append_at(moves: &mut Vec<Move>, table: &Table, tet: u32, cores: &[Core]) -> Result<(), NoMemory>
    ensures { OnOk result (moves.new.items
        ≡ moves.old.items ++ filter (certificates.is_accepted table.now) (moves_at tet cores.now)) }
{
    for core in cores {
        let m = Move { tet, core: *core };
        if is_accepted(table, m) {
            moves.push(m)?;
        }
    }
    Ok(())
}

/// Appends the accepted moves with one of `cores`, by tetrahedron and then by core.
fn append_accepted(moves: &mut Vec<Move>, table: &Table, cores: &[Core]) -> Result<(), NoMemory>
    ensures { OnOk result (moves.new.items
        ≡ moves.old.items ++ filter (certificates.is_accepted table.now) (moves_with cores.now (length table.now))) }
{
    for tet in 0..table.len() {
        append_at(moves, table, tet, cores)?;
    }
    Ok(())
}

/// The moves among which one is drawn: the accepted 2-3 and 3-2 moves of `table`, or the accepted 1-4 moves if there
/// are none.
pub fn candidates(alloc: Global, table: &Table) -> Result<Vec<Move>, NoMemory>
    ensures { IfOk result (λ moves. moves.items ≡ certificates.candidates table.now) }
{
    let mut moves = Vec::new(alloc);
    append_accepted(&mut moves, table, &faces())?;
    append_accepted(&mut moves, table, &Core::edges())?;
    if moves.is_empty() {
        append_accepted(&mut moves, table, &[Core::all()])?;
    }
    Ok(moves)
}
