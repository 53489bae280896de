//! The command `bulk`: makes a table, checks its certificate, and counts its surfaces.
ghost use Rattle.std.specs.Prelude.{◌-◌, ◌<◌, ◌≤◌, ◌^◌, length, IfOk};
ghost use Rattle.command_definitions.specs.Requests.{most_moves};
ghost use Rattle.move_definitions.specs.Certificates.{IsCertificate};
ghost use Rattle.outcome_definitions.specs.Makings.{IsSummary, IsBulkAnswer};

use crate::summaries::{MadeNumbers, summary_outcome};
use command_answers::Outcome;
use cone_arithmetic::MAX_ENTRY;
use double_description::NamedOrder;
use gluing_table::Table;
use matching_equations::Coords;
use out_of_memory::{Failure, NoMemory};
use sphere_certificate::check;
use std::alloc::Global;
use surface_refusals::large_outcome;
use tri_build::Made;

/// Checks the certificate of `made`, which is one.
fn accept(alloc: Global, made: &Made) -> Result<(), NoMemory>
    requires limited { length made.now.certificate.items < 2 ^ 32 - 1 }
    requires certified { IsCertificate made.now.table made.now.certificate.items }
{
    match check(alloc, &made.table, &made.certificate) {
        Ok(()) => Ok(()),
        Err(Failure::NoMemory) => Err(NoMemory),
        Err(Failure::Fault(_)) => unreachable!(),
    }
}

/// The outcome for `table`, which was made with the numbers `numbers`.
fn outcome_of_making(
    alloc: Global,
    numbers: MadeNumbers,
    table: &Table,
) -> Result<Outcome, NoMemory>
    ensures { IfOk result (IsSummary numbers table.now) }
{
    match surface_list::surfaces_of_table(
        alloc,
        table,
        Coords::Standard,
        NamedOrder::GIVEN,
        MAX_ENTRY,
    ) {
        Ok(surfaces) => summary_outcome(alloc, numbers, &surfaces),
        Err(Failure::Fault(large)) => large_outcome(alloc, &large.order, &large.kind),
        Err(Failure::NoMemory) => Err(NoMemory),
    }
}

/// The outcome of `bulk`: a table is made from `seed` by up to `moves` moves, its certificate is checked, and its
/// vertex surfaces in standard coordinates are counted. It is `large` if a number of their enumeration exceeds 2^127 -
/// 1.
pub fn bulk(alloc: Global, seed: u64, moves: u32) -> Result<Outcome, NoMemory>
    requires { moves ≤ most_moves }
    ensures { IfOk result (IsBulkAnswer seed moves) }
{
    let made = tri_build::make(alloc, seed, moves)?;
    accept(alloc, &made)?;
    let numbers = MadeNumbers {
        seed,
        moves: made.certificate.len() as u32,
        tetrahedra: made.table.len(),
    };
    outcome_of_making(alloc, numbers, &made.table)
}
