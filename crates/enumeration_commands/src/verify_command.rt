//! The command `verify`: a verdict on each vector.
ghost use Rattle.std.specs.Prelude.{◌≡◌, ◌≤◌, ◌++◌, length, map, IfOk, OnOk};
ghost use Rattle.text_definitions.specs.Text.{max_text};
ghost use Rattle.surface_definitions.specs.Coordinates as coordinates;
ghost use Rattle.text_document_definitions.specs.Documents.{vectors_document, verdicts_text};
ghost use Rattle.command_answers.specs.Reads.{all_entries};
ghost use Rattle.surface_definitions.specs.Verdict.{verdict_text};
ghost use Rattle.outcome_definitions.specs.Outcomes.{IsReadOutcome};
ghost use Rattle.surface_vector_definitions.specs.Answers.{verdict_in};
ghost use Rattle.outcome_definitions.specs.Answers.{IsVerdictsAnswer};

use command_answers::{Outcome, answer_read, append_checked, read_table_and_vectors};
use cone_arithmetic::System;
use gluing_table::Table;
use matching_equations::{Coords, equations_of_table};
use out_of_memory::NoMemory;
use outcome_definitions::Status;
use quad_condition::check_vector;
use std::alloc::Global;

/// Appends the line of the verdict on `vector`.
fn append_verdict(
    alloc: Global,
    out: &mut Vec<u8>,
    coords: Coords,
    table: &Table,
    system: &System,
    vector: &[u128],
) -> Result<(), NoMemory>
    requires { system.now.columns ≡ coordinates.columns coords (length table.now) }
    ensures { OnOk result (out.new.items
        ≡ out.old.items ++ verdict_text (verdict_in coords table.now system.now.rows vector.now)) }
{
    let checked = check_vector(coords, table.len(), system, vector);
    append_checked(alloc, out, checked)
}

/// The lines of the verdicts on `vectors`.
fn verdicts(
    alloc: Global,
    coords: Coords,
    table: &Table,
    system: &System,
    vectors: &[Vec<u128>],
) -> Result<Vec<u8>, NoMemory>
    requires { system.now.columns ≡ coordinates.columns coords (length table.now) }
    ensures { IfOk result (λ text. text.items
        ≡ verdicts_text (map (verdict_in coords table.now system.now.rows) (all_entries vectors.now))) }
{
    let mut text = Vec::new(alloc);
    for vector in vectors {
        append_verdict(alloc, &mut text, coords, table, system, vector)?;
    }
    Ok(text)
}

/// The outcome for `table` and `vectors`.
fn run_verify(
    alloc: Global,
    coords: Coords,
    table: &Table,
    vectors: &[Vec<u128>],
) -> Result<Outcome, NoMemory>
    ensures { IfOk result (IsVerdictsAnswer coords (table.now, all_entries vectors.now)) }
{
    let system = equations_of_table(alloc, table, coords)?;
    let text = verdicts(alloc, coords, table, &system, vectors)?;
    Ok(Outcome::with_text(Status::Done, text))
}

/// The outcome of `verify` for the input `bytes`, a table and vectors: for each vector whether it is an admissible
/// solution in the coordinates `coords`, or what fails first; or a refusal.
pub fn verify(alloc: Global, coords: Coords, bytes: &[u8]) -> Result<Outcome, NoMemory>
    requires { length bytes.now ≤ max_text }
    ensures { IfOk result (IsReadOutcome (vectors_document bytes.now) (IsVerdictsAnswer coords)) }
{
    answer_read(alloc, read_table_and_vectors(alloc, bytes), |document| {
        run_verify(alloc, coords, &document.table, &document.vectors)
    })
}
