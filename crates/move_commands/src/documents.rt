//! Reads the document of a table and steps.
ghost use Rattle.std.specs.Prelude.{◌≤◌, length};
ghost use Rattle.text_definitions.specs.Text.{max_text};
ghost use Rattle.text_document_definitions.specs.Documents.{steps_document};
ghost use Rattle.text_definitions.specs.Reading.{Reads};
ghost use Rattle.move_commands.specs.Scripts.{steps_of};

use crate::steps::read_steps;
use command_answers::read_table;
use gluing_table::Table;
use move_undo::Step;
use signature_codec::InputFault;
use std::alloc::Global;
use text_io::Lexer;

/// A table and steps.
#[derive(Drop)]
pub struct TableAndSteps {
    pub table: Table,
    pub steps: Vec<Step>,
}

/// Reads `bytes` as a table and a step on each further line. Fails with the first error of the table, then of the
/// steps.
#[tactic(auto, unfolding(text_document_definitions::specs::Documents::table_and_lines))]
pub fn read_table_and_steps(alloc: Global, bytes: &[u8]) -> Result<TableAndSteps, InputFault>
    requires { length bytes.now ≤ max_text }
    ensures { Reads InputFault.NoMemory (λ d. (d.table, steps_of d.steps)) result (steps_document bytes.now) }
{
    let mut lexer = Lexer::new(bytes);
    let table = read_table(alloc, &mut lexer)?;
    let steps = read_steps(alloc, &mut lexer)?;
    Ok(TableAndSteps { table, steps })
}
