//! A surface in a table, with its discs in order.

ghost use Rattle.std.specs.Prelude.{◌≡◌, ◌<◌, ◌≤◌, ℕ, length, slice_index, sum};
ghost use Rattle.table_definitions.specs.Table.{max_tets};
ghost use Rattle.surface_definitions.specs.Coordinates.{columns};
ghost use Rattle.surface_definitions.specs.Pieces.{discs_of};
ghost use Rattle.surface_vector_definitions.specs.Components.{most_pieces};
ghost use Rattle.surface_laws.specs.PieceLaws.{IsSurface, IsPieceOf};
ghost use Rattle.surface_pieces.specs.Starts.{AreStarts};

use crate::columns::SurfaceArc;
use crate::counts::NumberedDisc;
use crate::joined::Adjacent;
use gluing_table::Table;
use normal_discs::DiscCoords;

/// A surface in a table with at most 100,000 discs, by the entries of its vector.
#[derive(Clone, Copy)]
pub struct SmallSurface<'a> {
    pub table: &'a Table,
    pub coords: DiscCoords,
    pub entries: &'a [u32],
    pub ghost normal: { ∥ IsSurface table.now coords.system entries.now ∥₁ },
    pub ghost limited: { sum entries.now ≤ most_pieces },
    pub ghost bounded_tets: { length table.now ≤ max_tets },
    pub ghost width: { length entries.now ≡ columns coords.system (length table.now) },
}

/// The discs of a surface in order, and for each column the number of discs in the columns before it.
#[derive(Clone, Copy)]
pub struct NumberedDiscs<'a> {
    pub surface: SmallSurface<'a>,
    pub listed: &'a [NumberedDisc],
    pub starts: &'a [u32],
    pub ghost all: { listed.now ≡ discs_of surface.entries.now },
    pub ghost counted: { AreStarts surface.entries.now starts.now },
}

/// A normal arc in the table of a surface. Invariant: its tetrahedron is one of the table.
#[derive(Clone, Copy)]
pub struct ArcInSurface<'a> {
    pub surface: SmallSurface<'a>,
    pub arc: SurfaceArc,
    pub ghost in_range: { arc.tet < length surface.table.now },
}

/// A disc of a surface, with all discs of that surface. Invariant: it is one of them.
#[derive(Clone, Copy)]
pub struct ListedDisc<'a> {
    pub pieces: NumberedDiscs<'a>,
    pub piece: NumberedDisc,
    pub ghost there: { IsPieceOf pieces.surface.entries.now piece },
}

/// The discs of a surface, with the component of each. Invariant: each disc has a component, less than `count`.
#[derive(Clone, Copy)]
pub struct DiscComponents<'a> {
    pub pieces: NumberedDiscs<'a>,
    pub components: &'a [u32],
    pub count: u32,
    pub ghost size: { length components.now ≡ length pieces.listed.now },
    pub ghost in_range: { (p : ℕ) → p < length components.now → slice_index components.now p < count },
}

/// The neighbours of each disc of a surface, by the slots of its arcs.
#[derive(Clone, Copy)]
pub struct AdjacentDiscs<'a, const N: usize> {
    pub surface: SmallSurface<'a>,
    pub rows: &'a [[Option<Adjacent>; N]],
    pub ghost limited: { length rows.now ≤ most_pieces },
    pub ghost bounded_slots: { N ≤ 8 },
}
