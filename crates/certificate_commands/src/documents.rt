//! Reads the document of a table and moves.
ghost use Rattle.std.specs.Prelude.{◌≤◌, length};
ghost use Rattle.text_definitions.specs.Text.{max_text};
ghost use Rattle.text_document_definitions.specs.Documents.{moves_document};
ghost use Rattle.text_definitions.specs.Reading.{Reads};

use command_answers::read_table;
use gluing_table::Table;
use move_undo::read_moves;
use pachner_moves::Move;
use signature_codec::InputFault;
use std::alloc::Global;
use text_io::Lexer;

/// A table and moves.
#[derive(Drop)]
pub struct TableAndMoves {
    pub table: Table,
    pub moves: Vec<Move>,
}

/// Reads `bytes` as a table and a move on each further line. Fails with the first error of the table, then of the
/// moves.
#[tactic(auto, unfolding(text_document_definitions::specs::Documents::table_and_lines))]
pub fn read_table_and_moves(alloc: Global, bytes: &[u8]) -> Result<TableAndMoves, InputFault>
    requires { length bytes.now ≤ max_text }
    ensures { Reads InputFault.NoMemory (λ d. (d.table, d.moves.items)) result (moves_document bytes.now) }
{
    let mut lexer = Lexer::new(bytes);
    let table = read_table(alloc, &mut lexer)?;
    let moves = read_moves(alloc, &mut lexer)?;
    Ok(TableAndMoves { table, moves })
}
