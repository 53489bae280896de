//! Counts that differ only between tables that are not isomorphic, compared before any traversal.

ghost use Rattle.std.specs.Prelude.{◌≡◌, ◌<◌, ◌*◌, length};
ghost use Rattle.table_definitions.specs.Places as places;
ghost use Rattle.table_definitions.specs.Places.{face_of};
ghost use Rattle.canonical_labelling.specs.Counts as counts;

use gluing_table::{Face, Table};

/// Whether the face with index `place` is a boundary face.
fn is_boundary(table: &Table, place: u32) -> bool
    requires { place < 4 * length table.now }
    ensures { result ≡ places.is_boundary table.now (face_of place) }
{
    let face = Face {
        tet: place / 4,
        face: (place % 4) as u8,
    };
    table.glue(face).is_none()
}

/// The number of boundary faces of `table`.
pub fn boundary_count(table: &Table) -> u32
    ensures { result ≡ counts.boundary_count table.now }
{
    let mut count = 0;
    for place in 0..4 * table.len() {
        count += u32::from(is_boundary(table, place));
    }
    count
}
