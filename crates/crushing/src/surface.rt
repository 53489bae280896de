//! A surface in a table, and the numbers of the retained tetrahedra.

ghost use Rattle.std.specs.Prelude.{◌≡◌, ◌*◌, length};
ghost use Rattle.crushing.specs.Rows.{AreNewNumbers};

use gluing_table::Table;

/// A table with a vector in standard coordinates. Invariant: `entries` has seven entries for each tetrahedron.
#[derive(Clone, Copy)]
pub struct StandardSurface<'a> {
    pub table: &'a Table,
    pub entries: &'a [u128],
    pub ghost width: { length entries.now ≡ 7 * length table.now },
}

/// A surface with numbers of tetrahedra. Invariant: `numbers` has for each tetrahedron the number of retained ones
/// before it.
#[derive(Clone, Copy)]
pub struct NumberedSurface<'a> {
    pub surface: StandardSurface<'a>,
    pub numbers: &'a [u32],
    pub ghost numbered: { AreNewNumbers surface.entries.now numbers.now (length surface.table.now) },
}
