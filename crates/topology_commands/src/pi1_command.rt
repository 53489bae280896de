//! The command `pi1`: the generators and relators of a table.

ghost use Rattle.std.specs.Prelude.{◌≡◌, ◌≤◌, length, IfOk};
ghost use Rattle.text_definitions.specs.Text.{max_text};
ghost use Rattle.skeleton_definitions.specs.Skeleton.{IsSkeleton};
ghost use Rattle.text_document_definitions.specs.Documents.{table_document};
ghost use Rattle.outcome_definitions.specs.Outcomes.{IsReadOutcome};
ghost use Rattle.outcome_definitions.specs.Canonical.{done};
ghost use Rattle.outcome_definitions.specs.Presented as presented;
ghost use Rattle.outcome_definitions.specs.Presented.{IsPresentationAnswer};

use crate::presentation::presentation_text;
use command_answers::{
    Outcome, answer_read, invalid_edge_outcome, not_connected_outcome, read_table_document,
};
use edge_group::{Failure, Group, GroupFault};
use out_of_memory::NoMemory;
use outcome_definitions::Status;
use skeleton::Skeleton;
use std::alloc::Global;

/// The outcome for the presentation `group`.
fn outcome_of_group(alloc: Global, group: &Group) -> Result<Outcome, NoMemory>
    ensures { IfOk result (λ o. o ≡ done (presented.presentation_text group.now.presentation)) }
{
    let text = presentation_text(alloc, group)?;
    Ok(Outcome::with_text(Status::Done, text))
}

/// The outcome for the table of `skeleton`.
fn run_pi1(alloc: Global, skeleton: &Skeleton) -> Result<Outcome, NoMemory>
    requires { IsSkeleton skeleton.now }
    ensures { IfOk result (IsPresentationAnswer skeleton.now.rows) }
{
    match Group::of(alloc, skeleton) {
        Ok(group) => outcome_of_group(alloc, &group),
        Err(Failure::Fault(GroupFault::NotConnected { tet })) => {
            not_connected_outcome(alloc, 0, tet)
        }
        Err(Failure::Fault(GroupFault::InvalidEdge { class })) => {
            invalid_edge_outcome(alloc, class)
        }
        Err(Failure::NoMemory) => Err(NoMemory),
    }
}

/// The outcome of `pi1` for the input `bytes`, a table: generators and relators of its group, or a refusal.
pub fn pi1(alloc: Global, bytes: &[u8]) -> Result<Outcome, NoMemory>
    requires { length bytes.now ≤ max_text }
    ensures { IfOk result (IsReadOutcome (table_document bytes.now) IsPresentationAnswer) }
{
    answer_read(alloc, read_table_document(alloc, bytes), |table| {
        let skeleton = Skeleton::of_owned(alloc, table)?;
        run_pi1(alloc, &skeleton)
    })
}
