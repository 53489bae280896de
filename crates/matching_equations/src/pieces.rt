//! The column of a disc type.

ghost use Rattle.std.specs.Prelude.{◌≡◌, ◌+◌, ◌<◌, ◌≤◌, ◌↔◌, nat_lt, IsSome, IfSome, if◌then◌else◌};
ghost use Rattle.table_definitions.specs.Table.{max_tets};
ghost use Rattle.surface_definitions.specs.Coordinates as coordinates;

use normal_discs::{before_octagons, first_column, octagons_each, triangles_each};
use surface_definitions::{Coords, Piece};

/// `before` + `number`, or `None` if `number` is not below `count`.
fn piece_offset(number: u8, count: u32, before: u32) -> Option<u32>
    requires { before ≤ 7 }
    ensures { result ≡ (if nat_lt number count then Some (before + number) else None) }
{
    let number = u32::from(number);
    if number < count {
        Some(before + number)
    } else {
        None
    }
}

/// The index of `piece` among the columns of its tetrahedron, or `None` if `coords` has no such disc type.
fn local_column(coords: Coords, piece: Piece) -> Option<u32>
    ensures value { result ≡ coordinates.local_column coords piece }
    ensures found { IsSome result ↔ coordinates.HasPiece coords piece }
    ensures in_range { IfSome result (λ place. place < coordinates.columns_each coords) }
{
    match piece {
        Piece::Tri(vertex) => piece_offset(vertex, triangles_each(coords), 0),
        Piece::Quad(kind) => piece_offset(kind, 3, triangles_each(coords)),
        Piece::Oct(kind) => piece_offset(kind, octagons_each(coords), before_octagons(coords)),
    }
}

/// The column of the disc type `piece` of tetrahedron `tet`, or `None` if and only if `coords` has no such disc type.
pub fn column(coords: Coords, tet: u32, piece: Piece) -> Option<u32>
    requires { tet ≤ max_tets }
    ensures value { result ≡ coordinates.column_of coords tet piece }
    ensures found { IsSome result ↔ coordinates.HasPiece coords piece }
    ensures in_range { IfSome result (λ column. column < coordinates.columns coords (tet + 1)) }
{
    let place = local_column(coords, piece)?;
    Some(first_column(coords, tet) + place)
}
