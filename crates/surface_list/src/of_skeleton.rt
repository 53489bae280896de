//! Lists the vertex surfaces of a table from its skeleton.

ghost use Rattle.std.specs.Prelude.{◌≢◌, ◌≤◌, IfOk, IfErr};
ghost use Rattle.surface_list.specs.Surfaces.{AreTableSurfaces, IsTableRefused};

use crate::listed::surfaces_by;
use cone_arithmetic::{MAX_ENTRY, Ray};
use double_description::{EnumFault, NamedOrder, Order};
use matching_equations::{Coords, equations};
use skeleton::Skeleton;
use std::alloc::Global;

/// The vertex surfaces of the table of `skeleton` in the coordinates `coords`, in strictly ascending order (Haken 1961;
/// Tollefson 1998; Burton 2010a). Its equations are processed in the order `order`, which is not `Free`. Fails with
/// `LargeStep` at the first step at which a number exceeds `limit`.
pub fn surfaces(
    alloc: Global,
    skeleton: &Skeleton,
    coords: Coords,
    order: Order,
    limit: u128,
) -> Result<Vec<Ray>, EnumFault>
    requires named { order ≢ Order.Free }
    requires most_limit { limit ≤ MAX_ENTRY }
    ensures ok { IfOk result (λ rays. AreTableSurfaces limit coords skeleton.now.rows order rays.items) }
    ensures err { IfErr result (IsTableRefused limit coords skeleton.now.rows order) }
{
    let system = equations(alloc, skeleton, coords)?;
    let order = NamedOrder { rule: order };
    surfaces_by(alloc, skeleton.table(), &system, coords, order, limit)
}
