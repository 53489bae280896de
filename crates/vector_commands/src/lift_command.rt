//! The command `lift`: the lift of each quad vector to standard coordinates.
ghost use Rattle.std.specs.Prelude.{◌≡◌, ◌≤◌, length, IfOk};
ghost use Rattle.text_definitions.specs.Text.{max_text};
ghost use Rattle.cone_text_definitions.specs.VectorText.{vector_text};
ghost use Rattle.surface_definitions.specs.Coordinates.{columns};
ghost use Rattle.surface_definitions.specs.declared.Coords.TheVariants as coordinates;
ghost use Rattle.surface_definitions.specs.Verdict.{solution};
ghost use Rattle.text_document_definitions.specs.Documents.{vectors_document};
ghost use Rattle.command_answers.specs.Reads.{all_entries};
ghost use Rattle.outcome_definitions.specs.Outcomes.{IsReadOutcome};
ghost use Rattle.outcome_definitions.specs.Vectors.{IsLiftsAnswer};
ghost use Rattle.surface_vector_definitions.specs.Answers.{verdict_in, IsLifted};
ghost use Rattle.vector_commands.specs.Telling.{AppendsAnswer, WritesAnswers, IsLiftResult};

use crate::refusals::{FirstRefusal, refusal_outcome};
use command_answers::{Outcome, answer_read, read_table_and_vectors};
use cone_arithmetic::System;
use gluing_table::Table;
use matching_equations::{Coords, quad_equations};
use out_of_memory::{Failure, NoMemory};
use outcome_definitions::Status;
use quad_lift::lift as lift_of;
use skeleton::Skeleton;
use std::alloc::Global;
use surface_refusals::check;
use surface_vector_definitions::{LiftFault, Refusal};
use vector_text::write_vector;

/// A table with its quad equations. Invariant: `system` has one column for each quad of the table of `skeleton`.
#[derive(Clone, Copy)]
pub struct QuadMatching<'a> {
    pub skeleton: &'a Skeleton,
    pub system: &'a System,
    pub ghost width: { system.now.columns ≡ columns coordinates.Quad (length skeleton.now.rows) },
}

impl<'a> QuadMatching<'a> {
    /// The lift of the admissible solution `x`, or why it is refused.
    fn lift_solution(&self, alloc: Global, x: &[u128]) -> Result<Vec<u128>, Failure<Refusal>>
        requires { verdict_in coordinates.Quad self.now.skeleton.now.rows self.now.system.now.rows x.now ≡ solution }
        ensures { IsLiftResult self.now.skeleton.now self.now.system.now.rows x.now result }
    {
        match lift_of(alloc, self.skeleton, x) {
            Ok(lifted) => Ok(lifted),
            Err(Failure::Fault(LiftFault::Large)) => Err(Failure::Fault(Refusal::LargeLift)),
            Err(Failure::Fault(LiftFault::NoLift { class })) => {
                Err(Failure::Fault(Refusal::NoLift { class }))
            }
            Err(Failure::NoMemory) => Err(Failure::NoMemory),
        }
    }

    /// The lift of the vector `x`, or why it is refused.
    fn lift_vector(&self, alloc: Global, x: &[u128]) -> Result<Vec<u128>, Failure<Refusal>>
        ensures { IsLiftResult self.now.skeleton.now self.now.system.now.rows x.now result }
    {
        match check(Coords::Quad, self.skeleton.table(), self.system, x) {
            Ok(()) => self.lift_solution(alloc, x),
            Err(fault) => Err(Failure::Fault(Refusal::Unfit { fault })),
        }
    }

    /// Appends the line of the lift of `x` to `text`. Fails if it is refused.
    fn append_lift(
        &self,
        alloc: Global,
        x: &[u128],
        text: &mut Vec<u8>,
    ) -> Result<(), Failure<Refusal>>
        ensures { AppendsAnswer (IsLifted self.now.skeleton.now self.now.system.now.rows) vector_text x.now
            text.old.items text.new.items result }
    {
        let lifted = self.lift_vector(alloc, x)?;
        write_vector(alloc, &lifted, text)?;
        Ok(())
    }

    /// The lines of the lifts of `vectors`. Fails at the first vector that is refused.
    fn lifts(&self, alloc: Global, vectors: &[Vec<u128>]) -> Result<Vec<u8>, Failure<FirstRefusal>>
        ensures { WritesAnswers (IsLifted self.now.skeleton.now self.now.system.now.rows) vector_text
            (all_entries vectors.now) result }
    {
        let mut text = Vec::new(alloc);
        for v in 0..vectors.len() {
            match self.append_lift(alloc, &vectors[v], &mut text) {
                Ok(()) => {}
                Err(Failure::Fault(refusal)) => {
                    return Err(Failure::Fault(FirstRefusal { vector: v, refusal }));
                }
                Err(Failure::NoMemory) => return Err(Failure::NoMemory),
            }
        }
        Ok(text)
    }
}

/// The outcome for `table` and quad vectors `vectors`.
fn run_lift(alloc: Global, table: Table, vectors: &[Vec<u128>]) -> Result<Outcome, NoMemory>
    ensures { IfOk result (IsLiftsAnswer (table, all_entries vectors.now)) }
{
    let skeleton = Skeleton::of_owned(alloc, table)?;
    let system = quad_equations(alloc, &skeleton)?;
    let matching = QuadMatching {
        skeleton: &skeleton,
        system: &system,
    };
    match matching.lifts(alloc, vectors) {
        Ok(text) => Ok(Outcome::with_text(Status::Done, text)),
        Err(Failure::Fault(first)) => refusal_outcome(alloc, first.vector, first.refusal),
        Err(Failure::NoMemory) => Err(NoMemory),
    }
}

/// The outcome of `lift` for the input `bytes`, a table and quad vectors: the standard vector of each; or a refusal,
/// also if a vector is no admissible solution or has no lift.
pub fn lift(alloc: Global, bytes: &[u8]) -> Result<Outcome, NoMemory>
    requires { length bytes.now ≤ max_text }
    ensures { IfOk result (IsReadOutcome (vectors_document bytes.now) IsLiftsAnswer) }
{
    answer_read(alloc, read_table_and_vectors(alloc, bytes), |document| {
        run_lift(alloc, document.table, &document.vectors)
    })
}
