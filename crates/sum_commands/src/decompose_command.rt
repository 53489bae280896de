//! The command `decompose`: vectors as sums of the vertex surfaces of their table.
ghost use Rattle.std.specs.Prelude.{ℕ, ◌≤◌, length, IfOk, slice_index};
ghost use Rattle.text_definitions.specs.Text.{max_text};
ghost use Rattle.cone_arithmetic.specs.declared.numbers.TheConstants.{MAX_ENTRY};
ghost use Rattle.surface_definitions.specs.QuadEquations.{AreEquations};
ghost use Rattle.text_document_definitions.specs.Documents.{vectors_document};
ghost use Rattle.sum_definitions.specs.Sums.{HasRays};
ghost use Rattle.command_answers.specs.Reads.{all_entries};
ghost use Rattle.outcome_definitions.specs.Outcomes.{IsReadOutcome};
ghost use Rattle.outcome_definitions.specs.Sums.{IsDecomposeAnswer};
ghost use Rattle.sum_commands.specs.Telling.{AppendsBlock, WritesBlocks, IsBlocksOutcome, AreInRange, HaveRays};

use crate::checks::{FirstFault, check_vectors};
use crate::equations::TableEquations;
use crate::refusals::refusal_outcome;
use crate::writing::append_block;
use command_answers::{Outcome, fault_outcome, read_table_and_vectors};
use cone_arithmetic::{Limit, MAX_ENTRY, Ray, System};
use double_description::NamedOrder;
use gluing_table::{Table, write_table};
use matching_equations::{Coords, equations_of_table};
use out_of_memory::{Failure, NoMemory};
use outcome_definitions::{Status, SumRefusal};
use ray_decompose::{Large, SumFault};
use std::alloc::Global;
use surface_list::surfaces_by;
use surface_refusals::large_outcome;

/// Appends the block of the vector `x`. Fails at the first step of its sum at which a number exceeds `limit`.
fn append_sum(
    alloc: Global,
    system: &System,
    list: &[Ray],
    x: &[u128],
    limit: Limit,
    out: &mut Vec<u8>,
) -> Result<(), SumFault>
    requires rays { HasRays system.now.columns system.now.rows list.now x.now }
    requires entries { (column : ℕ) → slice_index x.now column ≤ MAX_ENTRY }
    ensures { AppendsBlock limit.number list.now x.now out.old.items out.new.items result }
{
    let sum = ray_decompose::decompose(alloc, system, list, x, limit.number)?;
    append_block(alloc, out, x, &sum)?;
    Ok(())
}

/// The text of `table` and the blocks of `vectors`. Fails at the first vector whose sum exceeds `limit`.
fn sums(
    alloc: Global,
    table: &Table,
    system: &System,
    list: &[Ray],
    vectors: &[Vec<u128>],
    limit: Limit,
) -> Result<Vec<u8>, Failure<FirstFault<Large>>>
    requires rays { HaveRays system.now list.now (all_entries vectors.now) }
    requires entries { AreInRange (all_entries vectors.now) }
    ensures { WritesBlocks limit.number list.now table.now (all_entries vectors.now) result }
{
    let mut text = Vec::new(alloc);
    write_table(alloc, table, &mut text)?;
    for vector in 0..vectors.len() {
        match append_sum(alloc, system, list, &vectors[vector], limit, &mut text) {
            Ok(()) => {}
            Err(Failure::NoMemory) => return Err(Failure::NoMemory),
            Err(Failure::Fault(fault)) => return Err(Failure::Fault(FirstFault {
                number: vector,
                fault,
            })),
        }
    }
    Ok(text)
}

/// The outcome for `table` and admissible solutions `vectors`, by the list of its vertex surfaces.
fn outcome_of_list(
    alloc: Global,
    table: &Table,
    system: &System,
    list: &[Ray],
    vectors: &[Vec<u128>],
    limit: Limit,
) -> Result<Outcome, NoMemory>
    requires rays { HaveRays system.now list.now (all_entries vectors.now) }
    requires entries { AreInRange (all_entries vectors.now) }
    ensures { IfOk result (IsBlocksOutcome limit.number list.now table.now (all_entries vectors.now)) }
{
    match sums(alloc, table, system, list, vectors, limit) {
        Ok(text) => Ok(Outcome::with_text(Status::Done, text)),
        Err(Failure::Fault(first)) => {
            let Large { turn, column } = first.fault;
            refusal_outcome(alloc, first.number, SumRefusal::LargeTimes { turn, column })
        }
        Err(Failure::NoMemory) => Err(NoMemory),
    }
}

/// The outcome for `vectors`, by the `equations` of their table.
fn run_decompose_with_system(
    alloc: Global,
    limit: Limit,
    equations: TableEquations<'_>,
    vectors: &[Vec<u128>],
) -> Result<Outcome, NoMemory>
    requires equations { AreEquations equations.coords equations.table.now equations.system.now.rows }
    requires entries { AreInRange (all_entries vectors.now) }
    ensures { IfOk result (IsDecomposeAnswer equations.entry.coords limit.number
        (equations.entry.table.now, all_entries vectors.now)) }
{
    let TableEquations {
        coords,
        table,
        system,
    } = equations;
    if let Err(first) = check_vectors(equations, vectors) {
        return refusal_outcome(
            alloc,
            first.number,
            SumRefusal::Unfit { fault: first.fault },
        );
    }
    match surfaces_by(
        alloc,
        table,
        system,
        coords,
        NamedOrder::GIVEN,
        limit.number,
    ) {
        Ok(list) => outcome_of_list(alloc, table, system, &list, vectors, limit),
        Err(Failure::Fault(large)) => large_outcome(alloc, &large.order, &large.kind),
        Err(Failure::NoMemory) => Err(NoMemory),
    }
}

/// The outcome for `table` and `vectors`.
fn run_decompose(
    alloc: Global,
    coords: Coords,
    limit: Limit,
    table: &Table,
    vectors: &[Vec<u128>],
) -> Result<Outcome, NoMemory>
    requires entries { AreInRange (all_entries vectors.now) }
    ensures { IfOk result (IsDecomposeAnswer coords limit.number (table.now, all_entries vectors.now)) }
{
    let system = equations_of_table(alloc, table, coords)?;
    let equations = TableEquations {
        coords,
        table,
        system: &system,
    };
    run_decompose_with_system(alloc, limit, equations, vectors)
}

/// The outcome of `decompose` for the input `bytes`, a table and vectors: each vector as a sum of vertex surfaces in
/// the coordinates `coords`; or a refusal, also if a vector is no admissible solution or a number exceeds `limit`,
/// which is 1 to 2^127 - 1.
pub fn decompose(
    alloc: Global,
    coords: Coords,
    limit: u128,
    bytes: &[u8],
) -> Result<Outcome, NoMemory>
    requires size { length bytes.now ≤ max_text }
    requires most_limit { limit ≤ MAX_ENTRY }
    ensures answer { IfOk result (IsReadOutcome (vectors_document bytes.now) (IsDecomposeAnswer coords limit)) }
{
    match read_table_and_vectors(alloc, bytes) {
        Ok(document) => run_decompose(
            alloc,
            coords,
            Limit { number: limit },
            &document.table,
            &document.vectors,
        ),
        Err(fault) => fault_outcome(alloc, fault),
    }
}
