//! The command `addup`: whether terms add up to their vectors.
ghost use Rattle.std.specs.Prelude.{◌≤◌, length, IfOk};
ghost use Rattle.text_definitions.specs.Text.{max_text};
ghost use Rattle.surface_definitions.specs.QuadEquations.{AreEquations};
ghost use Rattle.text_document_definitions.specs.Blocks.{blocks_document};
ghost use Rattle.outcome_definitions.specs.Outcomes.{IsReadOutcome};
ghost use Rattle.outcome_definitions.specs.Sums.{IsAddedUp, IsAddupAnswer};
ghost use Rattle.sum_commands.specs.Blocks.{block_of, all_blocks};
ghost use Rattle.sum_commands.specs.Firsts.{AreAllAnswered};

use crate::blocks::{Block, read_table_and_blocks};
use crate::checks::{FirstFault, check_terms};
use crate::equations::TableEquations;
use crate::refusals::refusal_outcome;
use command_answers::{Outcome, accepted_outcome, fault_outcome};
use gluing_table::Table;
use matching_equations::{Coords, equations_of_table};
use out_of_memory::NoMemory;
use outcome_definitions::SumRefusal;
use ray_decompose::add_up;
use std::alloc::Global;
use surface_refusals::check;

/// Checks `block`. Fails with what is wrong first: its vector or a term is no admissible solution, or the terms do not
/// add up.
fn check_block(equations: TableEquations<'_>, block: &Block) -> Result<(), SumRefusal>
    ensures { IsAddedUp equations.entry.coords equations.entry.table.now equations.entry.system.now.rows
        (block_of block.now) result }
{
    if let Err(fault) = check(
        equations.coords,
        equations.table,
        equations.system,
        &block.vector,
    ) {
        return Err(SumRefusal::Unfit { fault });
    }
    if let Err(first) = check_terms(equations, &block.terms) {
        return Err(SumRefusal::UnfitTerm {
            term: first.number,
            fault: first.fault,
        });
    }
    match add_up(&block.vector, block.times, &block.terms) {
        Ok(()) => Ok(()),
        Err(fault) => Err(SumRefusal::NoSum { fault }),
    }
}

/// Fails at the first of `blocks` that is not accepted.
fn check_blocks(
    equations: TableEquations<'_>,
    blocks: &[Block],
) -> Result<(), FirstFault<SumRefusal>>
    ensures { AreAllAnswered (IsAddedUp equations.entry.coords equations.entry.table.now
        equations.entry.system.now.rows) (all_blocks blocks.now) result }
{
    for (number, block) in blocks.iter().enumerate() {
        match check_block(equations, block) {
            Ok(()) => {}
            Err(fault) => return Err(FirstFault { number, fault }),
        }
    }
    Ok(())
}

/// The outcome for `blocks`, by the `equations` of their table.
fn run_addup_with_system(
    alloc: Global,
    equations: TableEquations<'_>,
    blocks: &[Block],
) -> Result<Outcome, NoMemory>
    requires equations { AreEquations equations.coords equations.table.now equations.system.now.rows }
    ensures { IfOk result (IsAddupAnswer equations.entry.coords (equations.entry.table.now, all_blocks blocks.now)) }
{
    match check_blocks(equations, blocks) {
        Ok(()) => accepted_outcome(alloc),
        Err(first) => refusal_outcome(alloc, first.number, first.fault),
    }
}

/// The outcome for `table` and `blocks`.
fn run_addup(
    alloc: Global,
    coords: Coords,
    table: &Table,
    blocks: &[Block],
) -> Result<Outcome, NoMemory>
    ensures { IfOk result (IsAddupAnswer coords (table.now, all_blocks blocks.now)) }
{
    let system = equations_of_table(alloc, table, coords)?;
    let equations = TableEquations {
        coords,
        table,
        system: &system,
    };
    run_addup_with_system(alloc, equations, blocks)
}

/// The outcome of `addup` for the input `bytes`, a table and blocks: `accepted` if in each block the vector and its
/// terms are admissible solutions in the coordinates `coords` and the terms add up; otherwise a refusal.
pub fn addup(alloc: Global, coords: Coords, bytes: &[u8]) -> Result<Outcome, NoMemory>
    requires { length bytes.now ≤ max_text }
    ensures answer { IfOk result (IsReadOutcome (blocks_document bytes.now) (IsAddupAnswer coords)) }
{
    match read_table_and_blocks(alloc, bytes) {
        Ok(document) => run_addup(alloc, coords, &document.table, &document.blocks),
        Err(fault) => fault_outcome(alloc, fault),
    }
}
