//! Makes the crushed table.

ghost use Rattle.std.specs.Prelude.{◌≡◌, ◌<◌, length, false, Option, option_map, IfOk};
ghost use Rattle.table_definitions.specs.Table.{Gluing, IsTable};
ghost use Rattle.surface_definitions.specs.Coordinates.{columns};
ghost use Rattle.surface_definitions.specs.declared.Coords.TheVariants.{Standard};
ghost use Rattle.surface_definitions.specs.Crushing.{is_removed as is_taken, renumbered, CrushesTo, IsCrushed};
ghost use Rattle.crushing.specs.Rows.{IsCrushedRow, AreCrushedBefore, AreNewNumbers};

use crate::surface::{NumberedSurface, StandardSurface};
use gluing_table::{Face, Glue, Row, Table};
use out_of_memory::NoMemory;
use skeleton::Skeleton;
use std::alloc::{AllocError, Global};

impl StandardSurface<'_> {
    /// For each tetrahedron the number of retained ones before it, which is its number in the crushed table if it is
    /// retained.
    fn new_numbers(&self, alloc: Global) -> Result<Vec<u32>, AllocError>
        ensures { IfOk result (λ numbers.
            AreNewNumbers self.now.entries.now numbers.items (length self.now.table.now)) }
    {
        let mut numbers = Vec::with_capacity(alloc, self.table.len() as usize)?;
        let mut kept = 0;
        for tet in 0..self.table.len() {
            numbers.push(kept)?;
            if !self.is_removed(tet) {
                kept += 1;
            }
        }
        Ok(numbers)
    }
}

impl NumberedSurface<'_> {
    /// The gluing in the crushed table of `face` of a retained tetrahedron.
    fn crushed_glue(&self, face: Face) -> Option<Glue>
        requires in_range { face.tet < length self.now.surface.table.now }
        requires kept { is_taken self.now.surface.entries.now face.tet ≡ false }
        ensures { (end : Option Gluing) → CrushesTo self.now.surface.table.now self.now.surface.entries.now face end
            → result ≡ option_map (renumbered self.now.surface.entries.now) end }
    {
        let end = self.surface.follow(face)?;
        Some(Glue {
            tet: self.numbers[end.tet as usize],
            perm: end.perm,
        })
    }

    /// The row in the crushed table of `tet`, a retained tetrahedron.
    fn crushed_row(&self, tet: u32) -> Row
        requires in_range { tet < length self.now.surface.table.now }
        requires kept { is_taken self.now.surface.entries.now tet ≡ false }
        ensures { IsCrushedRow self.now.surface.table.now self.now.surface.entries.now tet result }
    {
        [
            self.crushed_glue(Face { tet, face: 0 }),
            self.crushed_glue(Face { tet, face: 1 }),
            self.crushed_glue(Face { tet, face: 2 }),
            self.crushed_glue(Face { tet, face: 3 }),
        ]
    }

    /// The rows of the crushed table.
    fn crushed_rows(&self, alloc: Global) -> Result<Vec<Row>, AllocError>
        ensures rows { IfOk result (λ rows.
            AreCrushedBefore self.now.surface.table.now self.now.surface.entries.now (length self.now.surface.table.now)
            rows.items) }
        ensures is_table { IsTable self.now.surface.table.now }
    {
        let mut rows = Vec::with_capacity(alloc, self.surface.table.len() as usize)?;
        for tet in 0..self.surface.table.len() {
            if !self.surface.is_removed(tet) {
                rows.push(self.crushed_row(tet))?;
            }
        }
        Ok(rows)
    }
}

/// Crushes `table` along the standard vector `x`: removes the tetrahedra with quads, and renumbers the others in order
/// (Jaco and Rubinstein 2003; Burton 2014). Two retained faces are glued if a chain through removed tetrahedra joins
/// them, and a face whose chain ends at a boundary face becomes one.
pub fn crush_table(alloc: Global, table: &Table, x: &[u128]) -> Result<Table, NoMemory>
    requires { length x.now ≡ columns Standard (length table.now) }
    ensures crushed { IfOk result (λ new. IsCrushed table.now x.now new) }
    ensures is_table { IfOk result (λ new. IsTable new) }
{
    let surface = StandardSurface { table, entries: x };
    let numbers = surface.new_numbers(alloc)?;
    let numbered = NumberedSurface {
        surface,
        numbers: &numbers,
    };
    let rows = numbered.crushed_rows(alloc)?;
    let crushed = Table::from_sound_rows(alloc, rows)?;
    Ok(crushed)
}

/// As `crush_table`, for the table of `skeleton`.
pub fn crush(alloc: Global, skeleton: &Skeleton, x: &[u128]) -> Result<Table, NoMemory>
    requires { length x.now ≡ columns Standard (length skeleton.now.rows) }
    ensures crushed { IfOk result (λ new. IsCrushed skeleton.now.rows x.now new) }
    ensures is_table { IfOk result (λ new. IsTable new) }
{
    crush_table(alloc, skeleton.table(), x)
}
