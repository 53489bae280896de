//! The equations in quad coordinates.

ghost use Rattle.std.specs.Prelude.{◌≡◌, ◌≢◌, ◌+◌, ◌<◌, ◌≤◌, ◌^◌, [], ◌∷◌, ◌++◌, length, IfOk, OnOk};
ghost use Rattle.table_definitions.specs.Table.{max_tets};
ghost use Rattle.surface_definitions.specs.Coordinates as coordinates;
ghost use Rattle.surface_definitions.specs.Equations as equations;
ghost use Rattle.surface_definitions.specs.QuadEquations.{AreQuadRows, quad_equation};
ghost use Rattle.skeleton_definitions.specs.Skeleton.{IsSkeleton};
ghost use Rattle.skeleton_class_laws.specs.CornersIn.{AreCornersIn};
ghost use Rattle.matching_equations.specs.Quads.{IsRowAppended};

use crate::equation::{Sides, row_of};
use cone_arithmetic::System;
use normal_discs::{columns, keeping, quad_column};
use out_of_memory::NoMemory;
use skeleton::{Corner, Skeleton};
use std::alloc::Global;
use surface_definitions::Coords;

/// The column of the quads that have `vertex` and `other` on one side.
fn quad_along(tet: u32, vertex: u8, other: u8) -> u32
    requires tet { tet ≤ max_tets }
    requires a_vertex { vertex < 4 }
    requires another { other < 4 }
    requires separate { vertex ≢ other }
    ensures { result ≡ coordinates.quad_column Coords.Quad tet (coordinates.keeping vertex other) }
{
    quad_column(Coords::Quad, tet, keeping(vertex, other))
}

/// For each of `corners` the column of the quads that have its vertices a and c on one side.
fn first_columns(alloc: Global, corners: &[Corner]) -> Result<Vec<u32>, NoMemory>
    requires { AreCornersIn max_tets corners.now }
    ensures { IfOk result (λ columns. columns.items ≡ (quad_equation corners.now).left) }
{
    let mut columns = Vec::with_capacity(alloc, corners.len())?;
    for corner in corners {
        columns.push(quad_along(corner.tet, corner.a, corner.c))?;
    }
    Ok(columns)
}

/// For each of `corners` the column of the quads that have its vertices a and d on one side.
fn second_columns(alloc: Global, corners: &[Corner]) -> Result<Vec<u32>, NoMemory>
    requires { AreCornersIn max_tets corners.now }
    ensures { IfOk result (λ columns. columns.items ≡ (quad_equation corners.now).right) }
{
    let mut columns = Vec::with_capacity(alloc, corners.len())?;
    for corner in corners {
        columns.push(quad_along(corner.tet, corner.a, corner.d))?;
    }
    Ok(columns)
}

/// Appends the equation of the `corners` around an edge.
fn push_around(alloc: Global, corners: &[Corner], system: &mut System) -> Result<(), NoMemory>
    requires corners { AreCornersIn max_tets corners.now }
    requires limited { length corners.now ≤ 1000000 }
    requires room { length system.old.rows + 1 < 2 ^ 32 }
    ensures columns { OnOk result (system.new.columns ≡ system.old.columns) }
    ensures rows { OnOk result (system.new.rows
        ≡ system.old.rows ++ equations.row_of system.old.columns (quad_equation corners.now) ∷ []) }
{
    let left = first_columns(alloc, corners)?;
    let right = second_columns(alloc, corners)?;
    let sides = Sides {
        left: &left,
        right: &right,
    };
    let row = row_of(alloc, system.columns(), sides)?;
    system.push_row(row)?;
    Ok(())
}

/// Appends the equation of edge class `class`, if it is internal.
fn push_edge(
    alloc: Global,
    skeleton: &Skeleton,
    class: u32,
    system: &mut System,
) -> Result<(), NoMemory>
    requires skeleton { IsSkeleton skeleton.now }
    requires class { class < skeleton.now.edges.count }
    requires columns { system.old.columns ≡ coordinates.columns Coords.Quad (length skeleton.now.rows) }
    requires room { length system.old.rows + 1 < 2 ^ 32 }
    ensures columns { OnOk result (system.new.columns ≡ system.old.columns) }
    ensures rows { OnOk result (IsRowAppended skeleton.now.rows skeleton.now.edges.classes class system.old.rows
        system.new.rows) }
{
    if skeleton.is_boundary_edge(class) {
        return Ok(());
    }
    push_around(alloc, skeleton.around(class), system)?;
    Ok(())
}

/// The equations of the table of `skeleton` in quad coordinates: around each internal edge class, as many quads rise
/// along the edge as fall (Tollefson 1998).
pub fn quad_system(alloc: Global, skeleton: &Skeleton) -> Result<System, NoMemory>
    ensures columns { IfOk result (λ s. s.columns ≡ coordinates.columns Coords.Quad (length skeleton.now.rows)) }
    ensures rows { IfOk result (λ s.
        AreQuadRows skeleton.now.rows skeleton.now.edges.classes skeleton.now.edges.count s.rows) }
    ensures skeleton { IsSkeleton skeleton.now }
{
    let tets = skeleton.table().rows().len() as u32;
    let mut system = System::new(alloc, columns(Coords::Quad, tets));
    for class in 0..skeleton.edges() {
        push_edge(alloc, skeleton, class, &mut system)?;
    }
    Ok(system)
}
