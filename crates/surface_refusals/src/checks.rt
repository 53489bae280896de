//! Checks a vector by the equations of its table.
ghost use Rattle.std.specs.Prelude.{◌≡◌, ◌<◌, ◌^◌, length, IsOk};
ghost use Rattle.surface_definitions.specs.Coordinates.{columns};
ghost use Rattle.surface_vector_definitions.specs.Answers.{verdict_in};

use cone_arithmetic::System;
use gluing_table::Table;
use quad_condition::check_vector;
use surface_definitions::{Coords, VectorFault};

/// Checks that `x` is an admissible solution of `system`, the equations of `table` in the coordinates `coords`. Fails
/// with `Length`; then at the first equation of which a part exceeds 2^127 - 1 (`Large`), or which does not hold
/// (`NotSolution`); then at the first clashing pair (`Clash`).
pub fn check(coords: Coords, table: &Table, system: &System, x: &[u128]) -> Result<(), VectorFault>
    requires { system.now.columns ≡ columns coords (length table.now) }
    ensures verdict { result ≡ verdict_in coords table.now system.now.rows x.now }
    ensures width { IsOk result → length x.now ≡ columns coords (length table.now) }
    ensures limited { IsOk result → length x.now < 2 ^ 32 }
{
    check_vector(coords, table.len(), system, x)
}
