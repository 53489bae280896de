//! Lists all admissible vertex surfaces, by elimination of the equations.

ghost use Rattle.std.specs.Prelude.{◌≡◌, ◌≤◌, length, IfOk, IfErr};
ghost use Rattle.surface_definitions.specs.Coordinates as coordinates;
ghost use Rattle.surface_definitions.specs.QuadEquations.{AreEquations};
ghost use Rattle.surface_equation_laws.specs.OneForm.{is_triangle};
ghost use Rattle.surface_list.specs.Surfaces.{AreTableSurfaces, IsTableRefused};

use crate::bounded::are_numbers_bounded;
use cone_arithmetic::{Limit, MAX_ENTRY, PackedRay, Ray, System};
use double_description::{EnumFault, NamedOrder};
use gluing_table::Table;
use matching_equations::{Coords, equations_of_table};
use normal_discs::{columns_each, is_quad_or_octagon};
use out_of_memory::NoMemory;
use quad_condition::MaskedClashes;
use ray_steps::wide_rays;
use std::alloc::Global;
use vertex_enumeration::{Terms, vertex_list};

/// Whether `column` counts triangles.
fn is_triangle(coords: Coords, column: u32) -> bool
    ensures { result ≡ is_triangle coords column }
{
    !is_quad_or_octagon(coords, column)
}

/// The triangle columns of `system`, by tetrahedron.
fn triangles(alloc: Global, coords: Coords, system: &System) -> Result<Vec<u32>, NoMemory> {
    let mut pivots = Vec::new(alloc);
    for column in 0..system.columns() {
        if is_triangle(coords, column) {
            pivots.push(column)?;
        }
    }
    Ok(pivots)
}

/// The vertex surfaces of `table` by its equations `system` in the coordinates `coords`, as packed rays in strictly
/// ascending order (Haken 1961; Tollefson 1998; Burton 2010a). The equations are processed in the order `order`. Fails
/// with `LargeStep` at the first step at which a number exceeds `limit`.
pub fn packed_surfaces_by(
    alloc: Global,
    table: &Table,
    system: &System,
    coords: Coords,
    order: NamedOrder,
    limit: Limit,
) -> Result<Vec<PackedRay>, EnumFault>
    requires columns { system.now.columns ≡ coordinates.columns coords (length table.now) }
    requires equations { AreEquations coords table.now system.now.rows }
    ensures ok { IfOk result (λ rays. AreTableSurfaces limit.number coords table.now order.rule rays.items) }
    ensures err { IfErr result (IsTableRefused limit.number coords table.now order.rule) }
{
    let tets = table.len();
    let test = MaskedClashes::new(alloc, coords, tets, system.columns())?;
    let pivots = triangles(alloc, coords, system)?;
    let terms = Terms {
        order,
        limit,
        is_bounded: are_numbers_bounded(alloc, system, coords, tets, limit.number)?,
    };
    vertex_list(alloc, system, test, columns_each(coords), &pivots, terms)
}

/// As `packed_surfaces_by`, with the same error, but computes the equations of `table` itself.
pub fn packed_surfaces_of_table(
    alloc: Global,
    table: &Table,
    coords: Coords,
    order: NamedOrder,
    limit: Limit,
) -> Result<Vec<PackedRay>, EnumFault>
    ensures ok { IfOk result (λ rays. AreTableSurfaces limit.number coords table.now order.rule rays.items) }
    ensures err { IfErr result (IsTableRefused limit.number coords table.now order.rule) }
{
    let system = equations_of_table(alloc, table, coords)?;
    packed_surfaces_by(alloc, table, &system, coords, order, limit)
}

/// The vertex surfaces of `table` as `packed_surfaces_by` lists them, with the same error, but with 128 bits for each
/// entry.
pub fn surfaces_by(
    alloc: Global,
    table: &Table,
    system: &System,
    coords: Coords,
    order: NamedOrder,
    limit: u128,
) -> Result<Vec<Ray>, EnumFault>
    requires columns { system.now.columns ≡ coordinates.columns coords (length table.now) }
    requires equations { AreEquations coords table.now system.now.rows }
    requires most_limit { limit ≤ MAX_ENTRY }
    ensures ok { IfOk result (λ rays. AreTableSurfaces limit coords table.now order.rule rays.items) }
    ensures err { IfErr result (IsTableRefused limit coords table.now order.rule) }
{
    let bound = Limit { number: limit };
    let packed = packed_surfaces_by(alloc, table, system, coords, order, bound)?;
    let list = wide_rays(alloc, packed)?;
    Ok(list)
}

/// As `surfaces_by`, with the same error, but computes the equations of `table` itself.
pub fn surfaces_of_table(
    alloc: Global,
    table: &Table,
    coords: Coords,
    order: NamedOrder,
    limit: u128,
) -> Result<Vec<Ray>, EnumFault>
    requires most_limit { limit ≤ MAX_ENTRY }
    ensures ok { IfOk result (λ rays. AreTableSurfaces limit coords table.now order.rule rays.items) }
    ensures err { IfErr result (IsTableRefused limit coords table.now order.rule) }
{
    let system = equations_of_table(alloc, table, coords)?;
    surfaces_by(alloc, table, &system, coords, order, limit)
}
