//! The command `csame`: an isomorphism of two tables, component by component.

ghost use Rattle.std.specs.Prelude.{◌≤◌, length, IfOk};
ghost use Rattle.text_definitions.specs.Text.{max_text};
ghost use Rattle.text_document_definitions.specs.Documents.{two_tables_document};
ghost use Rattle.outcome_definitions.specs.Outcomes.{IsReadOutcome};
ghost use Rattle.outcome_definitions.specs.Parts.{IsSamePartsAnswer};

use crate::same_command::relabelling_outcome;
use command_answers::{Outcome, answer_read, read_two_tables};
use component_signature::same_parts;
use gluing_table::Table;
use out_of_memory::NoMemory;
use std::alloc::Global;

/// The outcome for the tables `first` and `second`.
fn run_csame(alloc: Global, first: &Table, second: &Table) -> Result<Outcome, NoMemory>
    ensures { IfOk result (IsSamePartsAnswer (first.now, second.now)) }
{
    match same_parts(alloc, first, second)? {
        Some(by) => relabelling_outcome(alloc, first.len(), &by),
        None => Ok(Outcome::different()),
    }
}

/// The outcome of `csame` for the input `bytes`, two tables: an isomorphism, component by component, or `different`; or
/// a refusal.
pub fn csame(alloc: Global, bytes: &[u8]) -> Result<Outcome, NoMemory>
    requires { length bytes.now ≤ max_text }
    ensures answer { IfOk result (IsReadOutcome (two_tables_document bytes.now) IsSamePartsAnswer) }
{
    answer_read(alloc, read_two_tables(alloc, bytes), |tables| {
        run_csame(alloc, &tables.first, &tables.second)
    })
}
