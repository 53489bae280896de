//! The vectors of a number of tetrahedra in a coordinate system.

ghost use Rattle.std.specs.Prelude.{◌≤◌};
ghost use Rattle.table_definitions.specs.Table.{max_tets};

use surface_definitions::Coords;

/// The space of the vectors for `tets` tetrahedra in the coordinates `coords`. Invariant: `tets` is at most 1,000.
#[derive(Clone, Copy)]
pub struct Space {
    pub coords: Coords,
    pub tets: u32,
    pub ghost within: { tets ≤ max_tets },
}
