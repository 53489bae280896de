//! Checks vectors and terms by the equations of their table.
ghost use Rattle.outcome_definitions.specs.Sums.{IsVerdict, IsTermVerdict};
ghost use Rattle.command_answers.specs.Reads.{all_entries};
ghost use Rattle.ray_decompose.specs.Sums.{terms_of};
ghost use Rattle.sum_commands.specs.Firsts.{AreAllAnswered};

use crate::equations::TableEquations;
use ray_decompose::Given;
use surface_definitions::VectorFault;
use surface_refusals::check;

/// The first item of a list that is refused, by its index, and the error.
#[derive(Clone, Copy)]
pub struct FirstFault<F> {
    pub number: usize,
    pub fault: F,
}

/// Fails at the first of `vectors` that is no admissible solution of `equations`, with its index and what is wrong
/// first.
pub fn check_vectors(
    equations: TableEquations<'_>,
    vectors: &[Vec<u128>],
) -> Result<(), FirstFault<VectorFault>>
    ensures { AreAllAnswered (IsVerdict equations.entry.coords equations.entry.table.now
        equations.entry.system.now.rows) (all_entries vectors.now) result }
{
    let TableEquations {
        coords,
        table,
        system,
    } = equations;
    for (number, vector) in vectors.iter().enumerate() {
        match check(coords, table, system, vector) {
            Ok(()) => {}
            Err(fault) => return Err(FirstFault { number, fault }),
        }
    }
    Ok(())
}

/// Fails at the first of `terms` whose vector is no admissible solution of `equations`, with its index and what is
/// wrong first.
pub fn check_terms(
    equations: TableEquations<'_>,
    terms: &[Given],
) -> Result<(), FirstFault<VectorFault>>
    ensures { AreAllAnswered (IsTermVerdict equations.entry.coords equations.entry.table.now
        equations.entry.system.now.rows) (terms_of terms.now) result }
{
    let TableEquations {
        coords,
        table,
        system,
    } = equations;
    for (number, term) in terms.iter().enumerate() {
        match check(coords, table, system, &term.entries) {
            Ok(()) => {}
            Err(fault) => return Err(FirstFault { number, fault }),
        }
    }
    Ok(())
}
