//! Lists all rays of a cone, without clashing columns.

ghost use Rattle.std.specs.Prelude.{IfOk, IfErr};
ghost use Rattle.cone_definitions.specs.Listings.{without_pairs};
ghost use Rattle.vertex_enumeration.specs.Lists.{IsOnlyListing, AreRefused};

use crate::{Terms, vertex_list};
use cone_arithmetic::{Limit, PackedRay, System};
use double_description::{LargeStep, NamedOrder};
use number_bounds::columns_fit;
use out_of_memory::Failure;
use ray_steps::NoClash;
use std::alloc::Global;

/// All primitive extreme rays of the cone of `system`, in strictly ascending order, with its rows processed in the
/// order `order`. Fails with `LargeStep` at the first step at which a number exceeds `limit`.
pub fn rays(
    alloc: Global,
    system: &System,
    order: NamedOrder,
    limit: Limit,
) -> Result<Vec<PackedRay>, Failure<LargeStep>>
    ensures ok { IfOk result (λ list. IsOnlyListing (without_pairs system.now order.rule limit.number) list.items) }
    ensures err { IfErr result (AreRefused (without_pairs system.now order.rule limit.number)) }
{
    let columns = system.columns();
    let is_bounded = columns_fit(alloc, system, limit.number)?;
    let terms = Terms {
        order,
        limit,
        is_bounded,
    };
    vertex_list(alloc, system, NoClash { columns }, 1, &[], terms)
}
