//! The command `describe`: the properties of each vector, and its components.
ghost use Rattle.std.specs.Prelude.{◌≡◌, ◌≢◌, ◌≤◌, length, IfOk};
ghost use Rattle.std.proofs.Props.{props};
ghost use Rattle.text_definitions.specs.Text.{max_text};
ghost use Rattle.surface_definitions.specs.Coordinates.{columns};
ghost use Rattle.surface_definitions.specs.Equations.{matching_rows};
ghost use Rattle.surface_definitions.specs.Verdict.{solution};
ghost use Rattle.skeleton_definitions.specs.Skeleton.{IsSkeleton};
ghost use Rattle.table_definitions.specs.Table.{IsTable};
ghost use Rattle.text_document_definitions.specs.Documents.{vectors_document};
ghost use Rattle.command_answers.specs.Reads.{all_entries};
ghost use Rattle.outcome_definitions.specs.Outcomes.{IsReadOutcome};
ghost use Rattle.outcome_definitions.specs.Vectors.{AreDescribed, IsDescribeAnswer};
ghost use Rattle.surface_vector_definitions.specs.Answers.{verdict_in, IsDescription};
ghost use Rattle.surface_vector_definitions.specs.Texts.{description_text};
ghost use Rattle.vector_commands.specs.Telling.{AppendsAnswer, WritesAnswers};
ghost use Rattle.vector_commands.specs.Describing.{IsDescriptionResult};

use crate::descriptions::Described;
use crate::refusals::{FirstRefusal, refusal_outcome};
use command_answers::{Outcome, answer_read, invalid_edge_outcome, read_table_and_vectors};
use cone_arithmetic::System;
use gluing_table::Table;
use matching_equations::{Coords, DiscCoords, equations};
use out_of_memory::{Failure, NoMemory};
use outcome_definitions::Status;
use skeleton::Skeleton;
use std::alloc::Global;
use surface_pieces::{Pieces, TooManyPieces};
use surface_properties::{Properties, PropertyFault, properties_of};
use surface_refusals::check;
use surface_vector_definitions::Refusal;

/// The properties of a vector, and the components of its surface.
#[derive(Drop)]
pub struct Description {
    properties: Properties,
    pieces: Pieces,
}

/// A table with its matching equations, in coordinates that count every normal disc. Invariant: `system` is that of the
/// table of `skeleton` in `coords`.
#[derive(Clone, Copy)]
pub struct Matching<'a> {
    pub skeleton: &'a Skeleton,
    pub coords: DiscCoords,
    pub system: &'a System,
    pub ghost table: { IsTable skeleton.now.rows } by { Prim.hlevel props },
    pub ghost equations: { system.now.rows ≡ matching_rows coords.system skeleton.now.rows },
    pub ghost width: { system.now.columns ≡ columns coords.system (length skeleton.now.rows) },
}

impl<'a> Matching<'a> {
    /// The description of the admissible solution `x`, or why it is refused.
    fn describe_solution(&self, alloc: Global, x: &[u128]) -> Result<Description, Failure<Refusal>>
        requires { verdict_in self.now.coords.system self.now.skeleton.now.rows self.now.system.now.rows x.now
            ≡ solution }
        ensures { IsDescriptionResult self.now.skeleton.now self.now.coords.system self.now.system.now.rows x.now
            result }
    {
        let properties = match properties_of(self.skeleton, self.coords.system, x) {
            Ok(properties) => properties,
            Err(PropertyFault::Large { sum }) => {
                return Err(Failure::Fault(Refusal::LargeSum { sum }));
            }
        };
        match Pieces::build(alloc, self.skeleton, self.coords.system, x) {
            Ok(pieces) => Ok(Description { properties, pieces }),
            Err(Failure::Fault(TooManyPieces { count })) => {
                Err(Failure::Fault(Refusal::TooManyPieces { count }))
            }
            Err(Failure::NoMemory) => Err(Failure::NoMemory),
        }
    }

    /// The description of the vector `x`, or why it is refused.
    fn describe_vector(&self, alloc: Global, x: &[u128]) -> Result<Description, Failure<Refusal>>
        ensures { IsDescriptionResult self.now.skeleton.now self.now.coords.system self.now.system.now.rows x.now
            result }
    {
        match check(self.coords.system, self.skeleton.table(), self.system, x) {
            Ok(()) => self.describe_solution(alloc, x),
            Err(fault) => Err(Failure::Fault(Refusal::Unfit { fault })),
        }
    }

    /// Appends the lines of the vector `x` to `text`. Fails if it is refused.
    fn append_vector_with_description(
        &self,
        alloc: Global,
        x: &[u128],
        text: &mut Vec<u8>,
    ) -> Result<(), Failure<Refusal>>
        ensures { AppendsAnswer (IsDescription self.now.skeleton.now self.now.coords.system self.now.system.now.rows)
            (description_text self.now.skeleton.now self.now.coords.system) x.now text.old.items text.new.items result }
    {
        let description = self.describe_vector(alloc, x)?;
        let described = Described {
            skeleton: self.skeleton,
            coords: self.coords,
            vector: x,
            properties: &description.properties,
            pieces: &description.pieces,
        };
        described.append(alloc, text)?;
        Ok(())
    }

    /// The lines of all `vectors`. Fails at the first vector that is refused.
    fn descriptions(
        &self,
        alloc: Global,
        vectors: &[Vec<u128>],
    ) -> Result<Vec<u8>, Failure<FirstRefusal>>
        ensures { WritesAnswers (IsDescription self.now.skeleton.now self.now.coords.system self.now.system.now.rows)
            (description_text self.now.skeleton.now self.now.coords.system) (all_entries vectors.now) result }
    {
        let mut text = Vec::new(alloc);
        for v in 0..vectors.len() {
            match self.append_vector_with_description(alloc, &vectors[v], &mut text) {
                Ok(()) => {}
                Err(Failure::Fault(refusal)) => {
                    return Err(Failure::Fault(FirstRefusal { vector: v, refusal }));
                }
                Err(Failure::NoMemory) => return Err(Failure::NoMemory),
            }
        }
        Ok(text)
    }

    /// The outcome for `vectors`.
    fn outcome_of(&self, alloc: Global, vectors: &[Vec<u128>]) -> Result<Outcome, NoMemory>
        ensures { IfOk result (AreDescribed self.now.skeleton.now self.now.coords.system (all_entries vectors.now)) }
    {
        match self.descriptions(alloc, vectors) {
            Ok(text) => Ok(Outcome::with_text(Status::Done, text)),
            Err(Failure::Fault(first)) => refusal_outcome(alloc, first.vector, first.refusal),
            Err(Failure::NoMemory) => Err(NoMemory),
        }
    }
}

/// The outcome for `vectors`, by the skeleton of a table without invalid edges.
fn describe_where_valid(
    alloc: Global,
    skeleton: &Skeleton,
    coords: DiscCoords,
    vectors: &[Vec<u128>],
) -> Result<Outcome, NoMemory>
    requires { IsSkeleton skeleton.now }
    ensures { IfOk result (AreDescribed skeleton.now coords.system (all_entries vectors.now)) }
{
    let system = equations(alloc, skeleton, coords.system)?;
    let matching = Matching {
        skeleton,
        coords,
        system: &system,
    };
    matching.outcome_of(alloc, vectors)
}

/// The outcome for `table` and `vectors`.
fn run_describe(
    alloc: Global,
    table: Table,
    coords: DiscCoords,
    vectors: &[Vec<u128>],
) -> Result<Outcome, NoMemory>
    ensures { IfOk result (IsDescribeAnswer coords.system (table, all_entries vectors.now)) }
{
    let skeleton = Skeleton::of_owned(alloc, table)?;
    match skeleton.first_invalid() {
        Some(class) => invalid_edge_outcome(alloc, class),
        None => describe_where_valid(alloc, &skeleton, coords, vectors),
    }
}

/// The outcome of `describe` for the input `bytes`, a table and vectors: the properties of each surface and of its
/// components, in the coordinates `coords`, which are not quad coordinates; or a refusal, also if an edge is invalid or
/// a vector is refused.
pub fn describe(alloc: Global, coords: Coords, bytes: &[u8]) -> Result<Outcome, NoMemory>
    requires coords { coords ≢ Coords.Quad }
    requires limited { length bytes.now ≤ max_text }
    ensures { IfOk result (IsReadOutcome (vectors_document bytes.now) (IsDescribeAnswer coords)) }
{
    let coords = DiscCoords { system: coords };
    answer_read(alloc, read_table_and_vectors(alloc, bytes), |document| {
        run_describe(alloc, document.table, coords, &document.vectors)
    })
}
