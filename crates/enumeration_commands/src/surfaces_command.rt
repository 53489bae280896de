//! The command `surfaces`: all vertex surfaces of a table.
ghost use Rattle.std.specs.Prelude.{◌≢◌, ◌≤◌, length, IfOk};
ghost use Rattle.text_definitions.specs.Text.{max_text};
ghost use Rattle.text_document_definitions.specs.Documents.{table_document};
ghost use Rattle.outcome_definitions.specs.Outcomes.{IsReadOutcome};
ghost use Rattle.outcome_definitions.specs.Enumerations.{IsSurfacesAnswer};

use crate::enumerations::list_outcome;
use command_answers::{Outcome, fault_outcome, read_table_document};
use cone_arithmetic::{Limit, MAX_ENTRY};
use double_description::{NamedOrder, Order};
use gluing_table::Table;
use matching_equations::Coords;
use out_of_memory::{Failure, NoMemory};
use std::alloc::Global;
use surface_refusals::large_outcome;

/// The outcome for `table` in the coordinates `coords`.
fn run_surfaces(
    alloc: Global,
    table: &Table,
    coords: Coords,
    order: NamedOrder,
    limit: Limit,
) -> Result<Outcome, NoMemory>
    ensures { IfOk result (IsSurfacesAnswer coords order.rule limit.number table.now) }
{
    match surface_list::packed_surfaces_of_table(alloc, table, coords, order, limit) {
        Ok(surfaces) => list_outcome(alloc, b"surfaces", &surfaces),
        Err(Failure::Fault(large)) => large_outcome(alloc, &large.order, &large.kind),
        Err(Failure::NoMemory) => Err(NoMemory),
    }
}

/// The outcome of `surfaces` for the input `bytes`, a table: all its vertex surfaces in the coordinates `coords`, its
/// equations processed in the order `order`; or a refusal, `large` if a number of a step exceeds `limit`. `order` is
/// not `Free`, and `limit` is 1 to 2^127 - 1.
pub fn surfaces(
    alloc: Global,
    coords: Coords,
    order: Order,
    limit: u128,
    bytes: &[u8],
) -> Result<Outcome, NoMemory>
    requires size { length bytes.now ≤ max_text }
    requires named { order ≢ Order.Free }
    requires most_limit { limit ≤ MAX_ENTRY }
    ensures { IfOk result (IsReadOutcome (table_document bytes.now) (IsSurfacesAnswer coords order limit)) }
{
    match read_table_document(alloc, bytes) {
        Ok(table) => {
            let order = NamedOrder { rule: order };
            run_surfaces(alloc, &table, coords, order, Limit { number: limit })
        }
        Err(fault) => fault_outcome(alloc, fault),
    }
}
