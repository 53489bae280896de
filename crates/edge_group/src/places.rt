//! Faces, tetrahedra and levels of a search, each with the table to which it belongs.

ghost use Rattle.std.specs.Prelude.{◌<◌, length, All, IsSome};
ghost use Rattle.table_definitions.specs.Table as gluings;

use gluing_table::{Face, Table};

/// A face of a tetrahedron of `table`.
#[derive(Clone, Copy)]
pub struct FaceOfTable<'a> {
    pub table: &'a Table,
    pub face: Face,
    pub ghost in_range: { face.tet < length table.now },
}

/// A face of a tetrahedron of `table` that is glued.
#[derive(Clone, Copy)]
pub struct GluedFace<'a> {
    pub table: &'a Table,
    pub face: Face,
    pub ghost in_range: { face.tet < length table.now },
    pub ghost glued: { IsSome (gluings.glue table.now face) },
}

/// Tetrahedron `tet` of `table`.
#[derive(Clone, Copy)]
pub struct TetOfTable<'a> {
    pub table: &'a Table,
    pub tet: u32,
    pub ghost in_range: { tet < length table.now },
}

/// Tetrahedra of `table` at the same distance from tetrahedron 0.
#[derive(Clone, Copy)]
pub struct Level<'a> {
    pub table: &'a Table,
    pub tets: &'a [u32],
    pub ghost in_range: { All (λ t. t < length table.now) tets.now },
}
