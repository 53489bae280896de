//! The command `play`: a line for each step of a script, and the table at its end.
ghost use Rattle.std.specs.Prelude.{◌≤◌, length, IfOk};
ghost use Rattle.text_definitions.specs.Text.{max_text};
ghost use Rattle.text_document_definitions.specs.Documents.{steps_document};
ghost use Rattle.outcome_definitions.specs.Outcomes.{IsReadOutcome};
ghost use Rattle.outcome_definitions.specs.Scripts.{IsScriptAnswer};
ghost use Rattle.move_commands.specs.Scripts.{all_steps};

use crate::documents::read_table_and_steps;
use crate::script::take_steps;
use command_answers::{Outcome, fault_outcome};
use gluing_table::{Table, write_table};
use move_undo::{Session, Step};
use out_of_memory::NoMemory;
use outcome_definitions::Status;
use std::alloc::Global;

/// The outcome for `table` and `steps`.
fn run_play(alloc: Global, table: Table, steps: &[Step]) -> Result<Outcome, NoMemory>
    ensures { IfOk result (IsScriptAnswer (table, all_steps steps.now)) }
{
    let mut session = Session::new(alloc, table);
    let mut text = take_steps(alloc, &mut session, steps)?;
    write_table(alloc, session.table(), &mut text)?;
    Ok(Outcome::with_text(Status::Done, text))
}

/// The outcome of `play` for the input `bytes`, a table and steps: a line for each step, and the table at the end; or a
/// refusal.
pub fn play(alloc: Global, bytes: &[u8]) -> Result<Outcome, NoMemory>
    requires { length bytes.now ≤ max_text }
    ensures { IfOk result (IsReadOutcome (steps_document bytes.now) IsScriptAnswer) }
{
    match read_table_and_steps(alloc, bytes) {
        Ok(document) => run_play(alloc, document.table, &document.steps),
        Err(fault) => fault_outcome(alloc, fault),
    }
}
