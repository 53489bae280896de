//! The command `sig`: the signature of a table.
ghost use Rattle.std.specs.Prelude.{◌≤◌, length, IfOk};
ghost use Rattle.text_definitions.specs.Text.{max_text};
ghost use Rattle.text_document_definitions.specs.Documents.{table_document};
ghost use Rattle.outcome_definitions.specs.Outcomes.{IsReadOutcome};
ghost use Rattle.outcome_definitions.specs.Canonical.{IsSignatureAnswer};

use canonical_labelling::signature;
use command_answers::{
    Outcome, answer_read, line_outcome, not_connected_outcome, read_table_document,
};
use gluing_table::Table;
use out_of_memory::{Failure, NoMemory};
use std::alloc::Global;

/// The outcome for `table`.
fn run_sig(alloc: Global, table: &Table) -> Result<Outcome, NoMemory>
    ensures { IfOk result (IsSignatureAnswer table.now) }
{
    match signature(alloc, table) {
        Ok(text) => line_outcome(text),
        Err(Failure::Fault(fault)) => not_connected_outcome(alloc, 0, fault.tet),
        Err(Failure::NoMemory) => Err(NoMemory),
    }
}

/// The outcome of `sig` for the input `bytes`, a table: its isomorphism signature, or a refusal, also if the table is
/// disconnected.
pub fn sig(alloc: Global, bytes: &[u8]) -> Result<Outcome, NoMemory>
    requires { length bytes.now ≤ max_text }
    ensures { IfOk result (IsReadOutcome (table_document bytes.now) IsSignatureAnswer) }
{
    answer_read(
        alloc,
        read_table_document(alloc, bytes),
        |table| run_sig(alloc, &table),
    )
}
