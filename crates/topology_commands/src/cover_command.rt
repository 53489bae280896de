//! The command `cover`: the orientable double cover of a table.

ghost use Rattle.std.specs.Prelude.{◌≡◌, ◌≤◌, length, IfOk};
ghost use Rattle.text_definitions.specs.Text.{max_text};
ghost use Rattle.text_document_definitions.specs.Documents.{table_document};
ghost use Rattle.outcome_definitions.specs.Outcomes.{IsReadOutcome};
ghost use Rattle.outcome_definitions.specs.Covers.{IsCoverAnswered, IsCoverAnswer, large_cover_outcome};

use crate::sheets::cover_text;
use command_answers::{Outcome, answer_read, read_table_document};
use double_cover::{Cover, Failure};
use gluing_table::Table;
use out_of_memory::NoMemory;
use outcome_definitions::Status;
use skeleton::Skeleton;
use std::alloc::Global;
use text_io::append;

/// The outcome for `cover`.
fn outcome_of_cover(alloc: Global, cover: &Cover) -> Result<Outcome, NoMemory>
    ensures { IfOk result (IsCoverAnswered cover.now) }
{
    let connected = cover.table().is_connected(alloc)?;
    let text = cover_text(alloc, cover, connected)?;
    Ok(Outcome::with_text(Status::Done, text))
}

/// The outcome if the cover would have too many tetrahedra.
#[tactic(auto, unfolding(outcome_definitions::specs::Covers::large_cover_line))]
fn too_many(alloc: Global) -> Result<Outcome, NoMemory>
    ensures { IfOk result (λ o. o ≡ large_cover_outcome) }
{
    let mut text = Vec::new(alloc);
    append(&mut text, b"refused: cover too-many\n")?;
    Ok(Outcome::with_text(Status::Refused, text))
}

/// The outcome for the table of `skeleton`.
fn run_cover_on_skeleton(alloc: Global, skeleton: &Skeleton) -> Result<Outcome, NoMemory>
    ensures { IfOk result (IsCoverAnswer skeleton.now.rows) }
{
    match Cover::of(alloc, skeleton) {
        Ok(cover) => outcome_of_cover(alloc, &cover),
        Err(Failure::Fault(_)) => too_many(alloc),
        Err(Failure::NoMemory) => Err(NoMemory),
    }
}

/// The outcome for `table`.
fn run_cover(alloc: Global, table: Table) -> Result<Outcome, NoMemory>
    ensures { IfOk result (IsCoverAnswer table) }
{
    let skeleton = Skeleton::of_owned(alloc, table)?;
    run_cover_on_skeleton(alloc, &skeleton)
}

/// The outcome of `cover` for the input `bytes`, a table: its orientable double cover, or a refusal.
pub fn cover(alloc: Global, bytes: &[u8]) -> Result<Outcome, NoMemory>
    requires { length bytes.now ≤ max_text }
    ensures { IfOk result (IsReadOutcome (table_document bytes.now) IsCoverAnswer) }
{
    answer_read(
        alloc,
        read_table_document(alloc, bytes),
        |table| run_cover(alloc, table),
    )
}
