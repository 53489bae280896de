//! The command `csig`: the component signature of a table.

ghost use Rattle.std.specs.Prelude.{◌≤◌, length, IfOk};
ghost use Rattle.text_definitions.specs.Text.{max_text};
ghost use Rattle.text_document_definitions.specs.Documents.{table_document};
ghost use Rattle.outcome_definitions.specs.Outcomes.{IsReadOutcome};
ghost use Rattle.outcome_definitions.specs.Parts.{IsComponentSignatureAnswer};

use command_answers::{Outcome, answer_read, line_outcome, read_table_document};
use component_signature::component_signature;
use out_of_memory::NoMemory;
use std::alloc::Global;

/// The outcome of `csig` for the input `bytes`, a table: its component signature, or a refusal.
pub fn csig(alloc: Global, bytes: &[u8]) -> Result<Outcome, NoMemory>
    requires { length bytes.now ≤ max_text }
    ensures answer { IfOk result (IsReadOutcome (table_document bytes.now) IsComponentSignatureAnswer) }
{
    answer_read(alloc, read_table_document(alloc, bytes), |table| {
        let text = component_signature(alloc, &table)?;
        line_outcome(text)
    })
}
