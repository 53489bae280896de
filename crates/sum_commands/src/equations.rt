//! A table with its equations.

ghost use Rattle.std.specs.Prelude.{◌≡◌, length};
ghost use Rattle.surface_definitions.specs.Coordinates as coordinates;

use cone_arithmetic::System;
use gluing_table::Table;
use surface_definitions::Coords;

/// A table with its equations `system` in the coordinates `coords`. Invariant: `system` has the columns of the vectors
/// of `table`.
#[derive(Clone, Copy)]
pub struct TableEquations<'a> {
    pub coords: Coords,
    pub table: &'a Table,
    pub system: &'a System,
    pub ghost columns: { system.now.columns ≡ coordinates.columns coords (length table.now) },
}
