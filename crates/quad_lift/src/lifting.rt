//! The lift of a quad vector, and the quads of a standard vector.

ghost use Rattle.std.specs.Prelude.{◌≡◌, ◌+◌, ◌*◌, ◌<◌, length, slice_index, Result, Ok, Err, ℕ, IfOk, IfErr};
ghost use Rattle.out_of_memory.specs.Failures.{IfFault};
ghost use Rattle.text_definitions.specs.Written.{limit};
ghost use Rattle.surface_definitions.specs.declared.Coords.TheVariants.{Standard, Quad as QuadCoords};
ghost use Rattle.surface_definitions.specs.Coordinates as coordinates;
ghost use Rattle.surface_definitions.specs.Lift.{projected};
ghost use Rattle.surface_vector_definitions.specs.Lifting.{IsLiftAnswer};
ghost use Rattle.surface_laws.specs.LiftLaws.{IsSurfaceOver};
ghost use Rattle.quad_lift.specs.Agreements.{AreLeastHeights, lifted_entry};

use crate::quad_vector::{Heights, QuadVector};
use crate::sums::four_times;
use normal_discs::{
    DiscCoords, columns, columns_each, place_of, quad_column, tet_of, triangles_each, type_of,
};
use out_of_memory::{Failure, NoMemory};
use skeleton::Skeleton;
use std::alloc::{AllocError, Global};
use surface_definitions::Coords;
use surface_vector_definitions::LiftFault;

impl Heights<'_> {
    /// The entry of the lift in `column`: a height less the least of its vertex class, or a number of quads.
    fn entry(&self, lows: &[u128], column: u32) -> u128
        requires lows { AreLeastHeights self.now.vector.skeleton.now self.now.values.now lows.now }
        requires in_range { column < 7 * length self.now.vector.skeleton.now.rows }
        ensures { result ≡ lifted_entry self.now.vector.skeleton.now self.now.vector.entries.now self.now.values.now
            lows.now column }
    {
        let tet = tet_of(Coords::Standard, column);
        let place = place_of(Coords::Standard, column);
        if place < triangles_each(Coords::Standard) {
            let class = self.vector.skeleton.vertex_class(tet, place as u8);
            self.values[4 * tet as usize + place as usize] - lows[class as usize]
        } else {
            let kind = type_of(DiscCoords::STANDARD, column);
            self.vector.entries[quad_column(Coords::Quad, tet, kind) as usize]
        }
    }

    /// All entries of the lift; `lows` are the least heights of the vertex classes.
    fn entries(&self, alloc: Global, lows: &[u128]) -> Result<Vec<u128>, AllocError>
        requires { AreLeastHeights self.now.vector.skeleton.now self.now.values.now lows.now }
        ensures length { IfOk result (λ ys. length ys.items ≡ 7 * length self.now.vector.skeleton.now.rows) }
        ensures entries { IfOk result (λ ys.
            (i : ℕ) → i < 7 * length self.now.vector.skeleton.now.rows
            → slice_index ys.items i ≡ lifted_entry self.now.vector.skeleton.now self.now.vector.entries.now
            self.now.values.now lows.now i) }
    {
        let columns = columns(Coords::Standard, self.vector.skeleton.table().len());
        let mut entries = Vec::with_capacity(alloc, columns as usize)?;
        for column in 0..columns {
            entries.push(self.entry(lows, column))?;
        }
        Ok(entries)
    }
}

/// The lift of the quad vector `x`: the standard vector with its quads that solves the matching equations and has an
/// entry 0 among the triangles of each vertex class (Tollefson 1998). Fails with `Large` if four times the sum of `x`
/// exceeds 2^127 - 1; otherwise with `NoLift`, which names the least vertex class at which there is no lift.
pub fn lift(alloc: Global, skeleton: &Skeleton, x: &[u128]) -> Result<Vec<u128>, Failure<LiftFault>>
    requires { length x.now ≡ coordinates.columns QuadCoords (length skeleton.now.rows) }
    ensures lifted { IfOk result (λ ys. IsLiftAnswer limit skeleton.now x.now (Ok ys.items)) }
    ensures surface { IfOk result (λ ys. IsSurfaceOver skeleton.now x.now ys.items) }
    ensures fault { IfErr result (λ e. IfFault e (λ f. IsLiftAnswer limit skeleton.now x.now (Err f))) }
{
    let classes = skeleton.vertices();
    let Some(start) = four_times(x) else {
        return Err(Failure::Fault(LiftFault::Large));
    };
    let vector = QuadVector {
        skeleton,
        entries: x,
        start,
    };
    let values = vector.heights(alloc)?;
    let heights = Heights {
        vector,
        values: &values,
    };
    let class = heights.first_spinning_vertex();
    if class < classes {
        return Err(Failure::Fault(LiftFault::NoLift { class }));
    }
    let lows = heights.lows(alloc)?;
    let lifted = heights.entries(alloc, &lows)?;
    Ok(lifted)
}

/// The quad entries of the standard vector `x` of `tets` tetrahedra.
pub fn project(alloc: Global, tets: u32, x: &[u128]) -> Result<Vec<u128>, NoMemory>
    requires { length x.now ≡ coordinates.columns Standard tets }
    ensures { IfOk result (λ quads. quads.items ≡ projected tets x.now) }
{
    let mut quads = Vec::with_capacity(alloc, columns_each(Coords::Quad) as usize * tets as usize)?;
    for tet in 0..tets as usize {
        let first = columns_each(Coords::Standard) as usize * tet;
        let first = first + triangles_each(Coords::Standard) as usize;
        quads.push(x[first])?;
        quads.push(x[first + 1])?;
        quads.push(x[first + 2])?;
    }
    Ok(quads)
}
