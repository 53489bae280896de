//! Reads steps from text.
ghost use Rattle.move_definitions.specs.MoveText.{step_at};
ghost use Rattle.text_document_definitions.specs.Documents.{each_line_from};
ghost use Rattle.text_definitions.specs.Reading.{ReadsFrom};
ghost use Rattle.table_definitions.specs.TableText.{lexed};
ghost use Rattle.move_commands.specs.Scripts.{steps_of};

use gluing_table::TextFault;
use move_undo::{Step, read_step};
use std::alloc::Global;
use text_io::Lexer;

/// Reads a step from each line that `lexer` has left. Fails at the first line on which `read_step` does.
pub fn read_steps(alloc: Global, lexer: &mut Lexer<'_>) -> Result<Vec<Step>, TextFault>
    ensures { ReadsFrom TextFault.NoMemory steps_of result lexer.new
        (lexed (each_line_from step_at lexer.old.later lexer.old)) }
{
    let mut steps = Vec::new(alloc);
    while lexer.next_line() {
        let step = read_step(lexer)?;
        steps.push(step)?;
    }
    Ok(steps)
}
