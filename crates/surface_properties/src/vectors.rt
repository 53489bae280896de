//! A vector of normal discs in a table.

ghost use Rattle.std.specs.Prelude.{◌≡◌, ◌<◌, ◌≤◌, length};
ghost use Rattle.table_definitions.specs.Table.{max_tets};
ghost use Rattle.surface_definitions.specs.Coordinates.{columns};

use gluing_table::{Face, Table};
use normal_discs::DiscCoords;

/// A vector in coordinates that count every normal disc (standard or octagon), with its table. Invariant: `entries` has
/// the length that the table and `coords` ask for.
#[derive(Clone, Copy)]
pub struct DiscVector<'a> {
    pub table: &'a Table,
    pub coords: DiscCoords,
    pub entries: &'a [u128],
    pub ghost limited: { length table.now ≤ max_tets },
    pub ghost width: { length entries.now ≡ columns coords.system (length table.now) },
}

/// A face of the table of a vector.
#[derive(Clone, Copy)]
pub struct VectorFace<'a> {
    pub vector: DiscVector<'a>,
    pub face: Face,
    pub ghost in_range: { face.tet < length vector.table.now },
}
