//! The equations of a table in any coordinates, from its skeleton or from the table alone.

ghost use Rattle.std.specs.Prelude.{◌≡◌, length, IfOk};
ghost use Rattle.surface_definitions.specs.Coordinates as coordinates;
ghost use Rattle.surface_definitions.specs.QuadEquations.{AreEquations};

use crate::matching::matching_system;
use crate::quads::quad_system;
use cone_arithmetic::System;
use gluing_table::Table;
use normal_discs::DiscCoords;
use out_of_memory::NoMemory;
use skeleton::Skeleton;
use std::alloc::Global;
use surface_definitions::Coords;

/// The equations of the table of `skeleton` in quad coordinates, one for each internal edge class (Tollefson 1998).
pub fn quad_equations(alloc: Global, skeleton: &Skeleton) -> Result<System, NoMemory>
    ensures columns { IfOk result (λ s. s.columns ≡ coordinates.columns Coords.Quad (length skeleton.now.rows)) }
    ensures equations { IfOk result (λ s. AreEquations Coords.Quad skeleton.now.rows s.rows) }
{
    quad_system(alloc, skeleton)
}

/// The equations of the table of `skeleton` in the coordinates `coords` (Haken 1961; Tollefson 1998). In standard and
/// octagon coordinates they are the matching equations; in quad coordinates there is one for each internal edge class.
pub fn equations(alloc: Global, skeleton: &Skeleton, coords: Coords) -> Result<System, NoMemory>
    ensures columns { IfOk result (λ s. s.columns ≡ coordinates.columns coords (length skeleton.now.rows)) }
    ensures equations { IfOk result (λ s. AreEquations coords skeleton.now.rows s.rows) }
{
    match coords {
        Coords::Standard => matching_system(alloc, DiscCoords::STANDARD, skeleton.table()),
        Coords::Quad => quad_equations(alloc, skeleton),
        Coords::Octagon => matching_system(alloc, DiscCoords::OCTAGON, skeleton.table()),
    }
}

/// The equations of `table` in quad coordinates; builds its skeleton.
fn edge_equations(alloc: Global, table: &Table) -> Result<System, NoMemory>
    ensures columns { IfOk result (λ s. s.columns ≡ coordinates.columns Coords.Quad (length table.now)) }
    ensures equations { IfOk result (λ s. AreEquations Coords.Quad table.now s.rows) }
{
    let skeleton = Skeleton::of(alloc, table)?;
    quad_equations(alloc, &skeleton)
}

/// The equations of `table` in the coordinates `coords`; builds a skeleton only for quad coordinates.
pub fn equations_of_table(alloc: Global, table: &Table, coords: Coords) -> Result<System, NoMemory>
    ensures columns { IfOk result (λ s. s.columns ≡ coordinates.columns coords (length table.now)) }
    ensures equations { IfOk result (λ s. AreEquations coords table.now s.rows) }
{
    match coords {
        Coords::Standard => matching_system(alloc, DiscCoords::STANDARD, table),
        Coords::Quad => edge_equations(alloc, table),
        Coords::Octagon => matching_system(alloc, DiscCoords::OCTAGON, table),
    }
}
