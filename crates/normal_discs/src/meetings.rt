//! The columns of the discs with an arc around a vertex in a face, or that meet an edge.

ghost use Rattle.std.specs.Prelude.{◌≡◌, ◌≢◌, ◌<◌, ◌≤◌};
ghost use Rattle.table_definitions.specs.Table.{max_tets};
ghost use Rattle.surface_definitions.specs.Coordinates as coordinates;
ghost use Rattle.surface_definitions.specs.Characteristic.{crossings};

use crate::coords::{has_octagons, octagon_column, quad_column, triangle_column};
use crate::disc_coords::DiscCoords;
use crate::types::{keeping, other_types};
use arrayvec::ArrayVec;
use surface_definitions::Coords;

/// The columns of the octagons of tetrahedron `tet` with an arc around `vertex` in `face`: two if the coordinates
/// `coords` count octagons, otherwise none. `vertex` is not `face`.
pub fn octagon_arcs(coords: Coords, tet: u32, face: u8, vertex: u8) -> ArrayVec<u32, 2>
    requires tet { tet ≤ max_tets }
    requires a_vertex { vertex < 4 }
    requires a_face { face < 4 }
    requires separate { vertex ≢ face }
    ensures { result.items ≡ coordinates.octagon_arcs coords tet face vertex }
{
    let mut columns = ArrayVec::new();
    if has_octagons(coords) {
        let (first, second) = other_types(keeping(vertex, face));
        columns.push(octagon_column(coords, tet, first));
        columns.push(octagon_column(coords, tet, second));
    }
    columns
}

/// The columns of the disc types of tetrahedron `tet` with an arc around `vertex` in `face`: one triangle, one quad,
/// and the octagons. `vertex` is not `face`.
pub fn arc_columns(coords: DiscCoords, tet: u32, face: u8, vertex: u8) -> ArrayVec<u32, 4>
    requires tet { tet ≤ max_tets }
    requires a_vertex { vertex < 4 }
    requires a_face { face < 4 }
    requires separate { vertex ≢ face }
    ensures { result.items ≡ coordinates.arc_columns coords.system tet face vertex }
{
    let mut columns = ArrayVec::new();
    columns.push(triangle_column(coords, tet, vertex));
    columns.push(quad_column(coords.system, tet, keeping(vertex, face)));
    let octagons = octagon_arcs(coords.system, tet, face, vertex);
    for column in octagons.as_slice() {
        columns.push(*column);
    }
    columns
}

/// The columns of the disc types of tetrahedron `tet` that meet its edge from `vertex` to `other`, once for each point
/// of intersection. Each octagon occurs once, but twice if it has both vertices on one side.
pub fn edge_columns(coords: DiscCoords, tet: u32, vertex: u8, other: u8) -> ArrayVec<u32, 8>
    requires tet { tet ≤ max_tets }
    requires a_vertex { vertex < 4 }
    requires another { other < 4 }
    requires separate { vertex ≢ other }
    ensures { result.items ≡ crossings coords.system tet vertex other }
{
    let kind = keeping(vertex, other);
    let (first, second) = other_types(kind);
    let mut columns = ArrayVec::new();
    columns.push(triangle_column(coords, tet, vertex));
    columns.push(triangle_column(coords, tet, other));
    columns.push(quad_column(coords.system, tet, first));
    columns.push(quad_column(coords.system, tet, second));
    if has_octagons(coords.system) {
        columns.push(octagon_column(coords.system, tet, kind));
        columns.push(octagon_column(coords.system, tet, 0));
        columns.push(octagon_column(coords.system, tet, 1));
        columns.push(octagon_column(coords.system, tet, 2));
    }
    columns
}
