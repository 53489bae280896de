//! The columns of disc types in each coordinate system.

ghost use Rattle.std.specs.Prelude.{◌≡◌, ◌+◌, ◌*◌, ◌/◌, ◌%◌, ◌<◌, ◌≤◌};
ghost use Rattle.table_definitions.specs.Table.{max_tets};
ghost use Rattle.surface_definitions.specs.Coordinates as coordinates;
ghost use Rattle.surface_definitions.specs.Pieces.{type_in};

use crate::disc_coords::DiscCoords;
use surface_definitions::Coords;

/// Whether the coordinates `coords` count triangles.
pub fn has_triangles(coords: Coords) -> bool
    ensures { result ≡ coordinates.has_triangles coords }
{
    match coords {
        Coords::Standard => true,
        Coords::Quad => false,
        Coords::Octagon => true,
    }
}

/// Whether the coordinates `coords` count octagons.
pub fn has_octagons(coords: Coords) -> bool
    ensures { result ≡ coordinates.has_octagons coords }
{
    match coords {
        Coords::Standard => false,
        Coords::Quad => false,
        Coords::Octagon => true,
    }
}

/// The number of triangle columns of a tetrahedron in the coordinates `coords`, which come before its quads.
pub fn triangles_each(coords: Coords) -> u32
    ensures value { result ≡ coordinates.triangles_each coords }
    ensures limited { result ≤ 4 }
{
    if has_triangles(coords) { 4 } else { 0 }
}

/// The number of columns of a tetrahedron in the coordinates `coords` before its octagons: those of its triangles and
/// quads.
pub fn before_octagons(coords: Coords) -> u32
    ensures value { result ≡ coordinates.before_octagons coords }
    ensures limited { result ≤ 7 }
{
    triangles_each(coords) + 3
}

/// The number of octagon columns of a tetrahedron in the coordinates `coords`.
pub fn octagons_each(coords: Coords) -> u32
    ensures value { result ≡ coordinates.octagons_each coords }
    ensures limited { result ≤ 3 }
{
    if has_octagons(coords) { 3 } else { 0 }
}

/// The number of columns of one tetrahedron in the coordinates `coords`.
pub fn columns_each(coords: Coords) -> u32
    ensures value { result ≡ coordinates.columns_each coords }
    ensures some { 1 ≤ result }
    ensures limited { result ≤ 10 }
{
    before_octagons(coords) + octagons_each(coords)
}

/// The number of columns of a vector for `tets` tetrahedra in the coordinates `coords`.
pub fn columns(coords: Coords, tets: u32) -> u32
    requires { tets ≤ max_tets }
    ensures value { result ≡ coordinates.columns coords tets }
    ensures limited { result ≤ 10000 }
{
    first_column(coords, tets)
}

/// The first column of tetrahedron `tet` in the coordinates `coords`.
pub fn first_column(coords: Coords, tet: u32) -> u32
    requires { tet ≤ max_tets }
    ensures value { result ≡ coordinates.columns_each coords * tet }
    ensures limited { result ≤ 10000 }
{
    columns_each(coords) * tet
}

/// The tetrahedron of `column` in the coordinates `coords`.
pub fn tet_of(coords: Coords, column: u32) -> u32
    ensures { result ≡ column / coordinates.columns_each coords }
{
    column / columns_each(coords)
}

/// The index of `column` among the columns of its tetrahedron in the coordinates `coords`.
pub fn place_of(coords: Coords, column: u32) -> u32
    ensures { result ≡ column % coordinates.columns_each coords }
{
    column % columns_each(coords)
}

/// The column of the triangles around `vertex` of tetrahedron `tet`.
pub fn triangle_column(coords: DiscCoords, tet: u32, vertex: u8) -> u32
    requires tet { tet ≤ max_tets }
    requires a_vertex { vertex < 4 }
    ensures { result ≡ coordinates.tri_column coords.system tet vertex }
{
    first_column(coords.system, tet) + u32::from(vertex)
}

/// The column of the quads of type `kind` of tetrahedron `tet`.
pub fn quad_column(coords: Coords, tet: u32, kind: u8) -> u32
    requires tet { tet ≤ max_tets }
    requires a_type { kind < 3 }
    ensures { result ≡ coordinates.quad_column coords tet kind }
{
    first_column(coords, tet) + triangles_each(coords) + u32::from(kind)
}

/// The column of the octagons of type `kind` of tetrahedron `tet`, if the coordinates `coords` count octagons.
pub fn octagon_column(coords: Coords, tet: u32, kind: u8) -> u32
    requires tet { tet ≤ max_tets }
    requires a_type { kind < 3 }
    ensures { result ≡ coordinates.oct_column coords tet kind }
{
    first_column(coords, tet) + before_octagons(coords) + u32::from(kind)
}

/// Whether `column` counts quads or octagons.
pub fn is_quad_or_octagon(coords: Coords, column: u32) -> bool
    ensures { result ≡ coordinates.is_quad_or_octagon coords column }
{
    place_of(coords, column) >= triangles_each(coords)
}

/// Whether `column` counts octagons.
pub fn is_octagon(coords: Coords, column: u32) -> bool
    ensures { result ≡ coordinates.is_octagon coords column }
{
    place_of(coords, column) >= before_octagons(coords)
}

/// The type of the quads or octagons that `column` counts; `column` counts no triangles.
pub fn type_of(coords: DiscCoords, column: u32) -> u8
    requires { 4 ≤ column % coordinates.columns_each coords.system }
    ensures value { result ≡ type_in coords.system column }
    ensures in_range { result < 3 }
{
    let place = place_of(coords.system, column);
    let before = before_octagons(coords.system);
    if place < before {
        (place - triangles_each(coords.system)) as u8
    } else {
        (place - before) as u8
    }
}
