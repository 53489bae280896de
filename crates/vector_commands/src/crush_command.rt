//! The command `crush`: the table crushed along a normal surface.
ghost use Rattle.std.specs.Prelude.{◌≡◌, ◌≤◌, length, IfOk};
ghost use Rattle.text_definitions.specs.Text.{max_text};
ghost use Rattle.surface_definitions.specs.Coordinates.{columns};
ghost use Rattle.surface_definitions.specs.declared.Coords.TheVariants.{Standard};
ghost use Rattle.text_document_definitions.specs.Documents.{vector_document};
ghost use Rattle.outcome_definitions.specs.Outcomes.{IsReadOutcome};
ghost use Rattle.outcome_definitions.specs.Vectors.{IsCrushAnswer};
ghost use Rattle.vector_commands.specs.Crushed.{IsCrushOutcome};

use crate::refusals::refusal_outcome;
use command_answers::{Outcome, answer_read, read_table_and_vector};
use gluing_table::{Table, write_table};
use matching_equations::{Coords, equations_of_table};
use out_of_memory::NoMemory;
use outcome_definitions::Status;
use std::alloc::Global;
use surface_refusals::check;
use surface_vector_definitions::Refusal;

/// The outcome for `table` and an admissible solution.
fn outcome_of_crushing(alloc: Global, table: &Table, x: &[u128]) -> Result<Outcome, NoMemory>
    requires { length x.now ≡ columns Standard (length table.now) }
    ensures { IfOk result (IsCrushOutcome table.now x.now) }
{
    let new = crushing::crush_table(alloc, table, x)?;
    let mut text = Vec::new(alloc);
    write_table(alloc, &new, &mut text)?;
    Ok(Outcome::with_text(Status::Done, text))
}

/// The outcome for `table` and `x`.
fn run_crush(alloc: Global, table: &Table, x: &[u128]) -> Result<Outcome, NoMemory>
    ensures { IfOk result (IsCrushAnswer (table.now, x.now)) }
{
    let system = equations_of_table(alloc, table, Coords::Standard)?;
    match check(Coords::Standard, table, &system, x) {
        Ok(()) => outcome_of_crushing(alloc, table, x),
        Err(fault) => refusal_outcome(alloc, 0, Refusal::Unfit { fault }),
    }
}

/// The outcome of `crush` for the input `bytes`, a table and a standard vector: the table crushed along it; or a
/// refusal, also if the vector is no admissible solution.
pub fn crush(alloc: Global, bytes: &[u8]) -> Result<Outcome, NoMemory>
    requires { length bytes.now ≤ max_text }
    ensures { IfOk result (IsReadOutcome (vector_document bytes.now) IsCrushAnswer) }
{
    answer_read(alloc, read_table_and_vector(alloc, bytes), |document| {
        run_crush(alloc, &document.table, &document.vector)
    })
}
