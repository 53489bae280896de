//! Decides beforehand whether all numbers of an enumeration of vertex surfaces are within a limit.

ghost use Rattle.std.specs.Prelude.{◌≡◌, IsTrue, IsFalse, IfOk};
ghost use Rattle.surface_definitions.specs.Coordinates as coordinates;
ghost use Rattle.surface_list.specs.Bounded.{AreNumbersBounded, BothExceed};

use crate::bounds::numbers_fit;
use cone_arithmetic::System;
use matching_equations::Coords;
use number_bounds::triples_fit;
use out_of_memory::NoMemory;
use std::alloc::Global;

/// Whether no number of an enumeration of the vertex surfaces of `tets` tetrahedra can exceed `limit`. Decided by the
/// bound for `tets`, or in quad coordinates also by the sums of squares of the equations `system`; false if neither
/// shows it.
pub fn are_numbers_bounded(
    alloc: Global,
    system: &System,
    coords: Coords,
    tets: u32,
    limit: u128,
) -> Result<bool, NoMemory>
    requires { system.now.columns ≡ coordinates.columns coords tets }
    ensures bounded { IfOk result (λ fit. IsTrue fit → AreNumbersBounded coords tets system.now limit) }
    ensures exceeded { IfOk result (λ fit. IsFalse fit → BothExceed coords tets system.now limit) }
{
    if numbers_fit(coords, tets, limit) {
        return Ok(true);
    }
    match coords {
        Coords::Quad => triples_fit(alloc, system, limit),
        _ => Ok(false),
    }
}
