//! Checks whether a vector is an admissible solution.

ghost use Rattle.std.specs.Prelude.{◌≡◌, ◌↔◌, ◌≤◌, IsOk};
ghost use Rattle.table_definitions.specs.Table.{max_tets};
ghost use Rattle.surface_definitions.specs.Coordinates as coordinates;
ghost use Rattle.surface_definitions.specs.Verdict.{verdict};
ghost use Rattle.surface_definitions.specs.Laws.{IsAcceptedVector};
ghost use Rattle.quad_condition.specs.Faults.{fault_of};

use crate::clashes::first_clash;
use cone_arithmetic::{MAX_ENTRY, SolutionFault, System, is_solution};
use surface_definitions::{Coords, VectorFault};

/// `fault` as an error of `check_vector`.
fn fault_of(fault: SolutionFault) -> VectorFault
    ensures { result ≡ fault_of fault }
{
    match fault {
        SolutionFault::Passed { row } => VectorFault::Large { row },
        SolutionFault::NotZero { row } => VectorFault::NotSolution { row },
    }
}

/// Checks that `x` is an admissible solution of `system` for `tets` tetrahedra. Fails with `Length` if `x` has not one
/// entry for each column; then at the first row of which a part exceeds `MAX_ENTRY` (`Large`), or which is not 0 at `x`
/// (`NotSolution`); then at the first clashing pair of nonzero entries (`Clash`).
pub fn check_vector(
    coords: Coords,
    tets: u32,
    system: &System,
    x: &[u128],
) -> Result<(), VectorFault>
    requires tets { tets ≤ max_tets }
    requires columns { system.now.columns ≡ coordinates.columns coords tets }
    ensures verdict { result ≡ verdict MAX_ENTRY system.now.columns system.now.rows (coordinates.clash_list coords tets)
        x.now }
    ensures accepts { IsOk result ↔ IsAcceptedVector MAX_ENTRY system.now.columns system.now.rows
        (coordinates.clash_list coords tets) x.now }
{
    if x.len() != system.columns() as usize {
        return Err(VectorFault::Length { got: x.len() });
    }
    match is_solution(system, x) {
        Ok(()) => match first_clash(coords, tets, x) {
            Some((first, second)) => Err(VectorFault::Clash { first, second }),
            None => Ok(()),
        },
        Err(fault) => Err(fault_of(fault)),
    }
}
