//! The command `descend`: the simplifying moves of a table, and the table at which they end.
ghost use Rattle.std.specs.Prelude.{◌≡◌, ◌≤◌, ◌++◌, length, decimal, Ok, IfOk, OnOk};
ghost use Rattle.text_definitions.specs.Text.{max_text};
ghost use Rattle.text_document_definitions.specs.Documents.{table_document};
ghost use Rattle.text_definitions.specs.Written.{line};
ghost use Rattle.outcome_definitions.specs.Outcomes.{IsReadOutcome};
ghost use Rattle.outcome_definitions.specs.Certificates as certificates;
ghost use Rattle.outcome_definitions.specs.Certificates.{IsDescendAnswer};

use command_answers::{Outcome, answer_read, not_connected_outcome, read_table_document};
use gluing_table::{Table, write_table};
use move_undo::write_moves;
use out_of_memory::{Failure, NoMemory};
use outcome_definitions::Status;
use sphere_certificate::{Descent, descend as descend_from};
use std::alloc::Global;
use text_io::{append, append_decimal};

/// The word for whether the standard sphere was reached (`reached`).
fn descent_word(reached: bool) -> &'static [u8]
    ensures { result.now ≡ certificates.descent_word reached }
{
    if reached { b"reached " } else { b"stuck " }
}

/// Appends the line of whether the standard sphere was `reached`, with the number of `moves`.
fn append_head(
    alloc: Global,
    out: &mut Vec<u8>,
    reached: bool,
    moves: usize,
) -> Result<(), NoMemory>
    ensures { OnOk result (out.new.items ≡ out.old.items ++ line (certificates.descent_word reached ++ decimal moves)) }
{
    append(out, descent_word(reached))?;
    append_decimal(alloc, out, moves as u128)?;
    append(out, b"\n")?;
    Ok(())
}

/// The text of `descent`.
#[tactic(auto, unfolding(outcome_definitions::specs::Certificates::moves_text))]
fn descent_text(alloc: Global, descent: &Descent) -> Result<Vec<u8>, NoMemory>
    ensures { IfOk result (λ text. text.items
        ≡ certificates.descent_text (record
        { reached = descent.now.reached; moves = descent.now.moves.items; table = descent.now.table })) }
{
    let mut text = Vec::new(alloc);
    append_head(alloc, &mut text, descent.reached, descent.moves.len())?;
    write_moves(alloc, &descent.moves, &mut text)?;
    write_table(alloc, &descent.table, &mut text)?;
    Ok(text)
}

/// The outcome of `descent`.
fn outcome_of_descent(alloc: Global, descent: &Descent) -> Result<Outcome, NoMemory>
    ensures { IfOk result (λ o. o ≡ certificates.descend_outcome
        (Ok (record { reached = descent.now.reached; moves = descent.now.moves.items; table = descent.now.table }))) }
{
    let text = descent_text(alloc, descent)?;
    Ok(Outcome::with_text(Status::Done, text))
}

/// The outcome for `table`.
fn run_descend(alloc: Global, table: &Table) -> Result<Outcome, NoMemory>
    ensures { IfOk result (IsDescendAnswer table.now) }
{
    match descend_from(alloc, table) {
        Ok(descent) => outcome_of_descent(alloc, &descent),
        Err(Failure::Fault(fault)) => not_connected_outcome(alloc, 0, fault.tet),
        Err(Failure::NoMemory) => Err(NoMemory),
    }
}

/// The outcome of `descend` for the input `bytes`, a table: whether simplifying moves reach the standard sphere, the
/// moves, and the last table; or a refusal.
pub fn descend(alloc: Global, bytes: &[u8]) -> Result<Outcome, NoMemory>
    requires { length bytes.now ≤ max_text }
    ensures answer { IfOk result (IsReadOutcome (table_document bytes.now) IsDescendAnswer) }
{
    answer_read(
        alloc,
        read_table_document(alloc, bytes),
        |table| run_descend(alloc, &table),
    )
}
