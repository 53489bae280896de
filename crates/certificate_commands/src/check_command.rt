//! The command `check`: whether moves certify that a table is a 3-sphere.
ghost use Rattle.std.specs.Prelude.{◌<◌, ◌≤◌, ◌-◌, ◌^◌, length, IfOk};
ghost use Rattle.text_definitions.specs.Text.{max_text};
ghost use Rattle.text_document_definitions.specs.Documents.{moves_document};
ghost use Rattle.outcome_definitions.specs.Outcomes.{IsReadOutcome};
ghost use Rattle.outcome_definitions.specs.Certificates.{IsCheckAnswer};

use crate::documents::read_table_and_moves;
use crate::faults::refused_outcome;
use command_answers::{Outcome, accepted_outcome, fault_outcome};
use gluing_table::Table;
use out_of_memory::{Failure, NoMemory};
use pachner_moves::Move;
use sphere_certificate::check_owned;
use std::alloc::Global;

/// The outcome for `table` and `moves`.
fn run_check(alloc: Global, table: Table, moves: &[Move]) -> Result<Outcome, NoMemory>
    requires limited { length moves.now < 2 ^ 32 - 1 }
    ensures { IfOk result (IsCheckAnswer (table, moves.now)) }
{
    match check_owned(alloc, table, moves) {
        Ok(()) => accepted_outcome(alloc),
        Err(Failure::Fault(fault)) => refused_outcome(alloc, fault),
        Err(Failure::NoMemory) => Err(NoMemory),
    }
}

/// The outcome of `check` for the input `bytes`, a table and moves: `accepted` if the moves certify that the table is a
/// 3-sphere, otherwise a refusal.
pub fn check(alloc: Global, bytes: &[u8]) -> Result<Outcome, NoMemory>
    requires { length bytes.now ≤ max_text }
    ensures answer { IfOk result (IsReadOutcome (moves_document bytes.now) IsCheckAnswer) }
{
    match read_table_and_moves(alloc, bytes) {
        Ok(document) => run_check(alloc, document.table, &document.moves),
        Err(fault) => fault_outcome(alloc, fault),
    }
}
