//! Edges of a tetrahedron, directed and undirected, and what they are glued to across its faces.

ghost use Rattle.std.specs.Prelude.{◌≡◌, ◌+◌, ◌*◌, ◌/◌, ◌%◌, ◌<◌, ◌≤◌, length, slice_index, [], ◌∷◌};
ghost use Rattle.table_definitions.specs.Places as places;
ghost use Rattle.table_definitions.specs.Permutation.{others};
ghost use Rattle.skeleton_class_laws.specs.Crossings.{crossed_edge, crossed_direction, pair_number};
ghost use Rattle.skeleton_class_laws.specs.Directions.{forward, backward, runs_against};

use crate::crossings::Exit;

const LOWER_ENDS: [u8; 6] = [0, 0, 0, 1, 1, 2];

const HIGHER_ENDS: [u8; 6] = [1, 2, 3, 2, 3, 3];

/// The number of the edge with the ends a and b, at index 4a + b; 6 if a = b.
const NUMBERS: [u8; 16] = [6, 0, 1, 2, 0, 6, 3, 4, 1, 3, 6, 5, 2, 4, 5, 6];

/// The ends of `edge` of a tetrahedron, ascending; `edge` is below 6.
pub fn edge_ends(edge: u8) -> (u8, u8)
    requires { edge < 6 }
    ensures ends { places.ends edge ≡ result.0 ∷ result.1 ∷ [] }
    ensures ascending { result.0 < result.1 }
    ensures in_range { result.1 < 4 }
{
    (LOWER_ENDS[edge as usize], HIGHER_ENDS[edge as usize])
}

fn number_of_edge(a: u8, b: u8) -> u8
    requires first { a < 4 }
    requires second { b < 4 }
    ensures { result ≡ places.edge_number a b }
{
    NUMBERS[(4 * a + b) as usize]
}

/// The first and the last vertex of directed edge `direction` of a tetrahedron; `direction` is below 12.
pub fn direction_ends(direction: u8) -> (u8, u8)
    requires { direction < 12 }
    ensures from { result.0 ≡ direction / 3 }
    ensures to { result.1 ≡ slice_index (others (direction / 3)) (direction % 3) }
    ensures from_in_range { result.0 < 4 }
    ensures to_in_range { result.1 < 4 }
{
    let from = direction / 3;
    let rank = direction % 3;
    if rank < from {
        (from, rank)
    } else {
        (from, rank + 1)
    }
}

/// The number, among the twelve directed edges of a tetrahedron, of the one from vertex `from` to vertex `to`.
pub fn direction_number(from: u8, to: u8) -> u32
    ensures value { result ≡ pair_number from to }
    ensures small { result ≤ 3 * from + to }
{
    let first = 3 * u32::from(from);
    if from < to {
        first + (u32::from(to) - 1)
    } else {
        first + u32::from(to)
    }
}

/// The edge, with index 6t + e, to which `edge` is glued across `exit.face`; `None` if it does not lie in that face, or
/// the face is a boundary face.
pub fn edge_across(exit: Exit<'_>, edge: u32) -> Option<u32>
    requires { edge < 6 * length exit.table.now }
    ensures { result ≡ crossed_edge exit.entry.table.now edge exit.entry.face }
{
    let (lower, higher) = edge_ends((edge % 6) as u8);
    if lower == exit.face {
        return None;
    }
    if higher == exit.face {
        return None;
    }
    let Some(glue) = exit.of(edge / 6) else {
        return None;
    };
    let number = number_of_edge(glue.perm.image(lower), glue.perm.image(higher));
    Some(6 * glue.tet + number as u32)
}

/// The directed edge, with index 12t + d, to which `place` is glued across `exit.face`; `None` if it does not lie in
/// that face, or the face is a boundary face.
pub fn direction_across(exit: Exit<'_>, place: u32) -> Option<u32>
    requires { place < 12 * length exit.table.now }
    ensures { result ≡ crossed_direction exit.entry.table.now place exit.entry.face }
{
    let (from, to) = direction_ends((place % 12) as u8);
    if from == exit.face {
        return None;
    }
    if to == exit.face {
        return None;
    }
    let Some(glue) = exit.of(place / 12) else {
        return None;
    };
    let number = direction_number(glue.perm.image(from), glue.perm.image(to));
    Some(12 * glue.tet + number)
}

/// The index of `edge` as a directed edge from its smaller end.
fn forward(edge: u32) -> usize
    ensures { result ≡ forward edge }
{
    let (lower, higher) = edge_ends((edge % 6) as u8);
    12 * (edge / 6) as usize + direction_number(lower, higher) as usize
}

/// The index of `edge` as a directed edge from its greater end.
fn backward(edge: u32) -> usize
    ensures { result ≡ backward edge }
{
    let (lower, higher) = edge_ends((edge % 6) as u8);
    12 * (edge / 6) as usize + direction_number(higher, lower) as usize
}

/// Whether edge `one`, from its smaller end, is identified with edge `other` from its greater end. `directions` has the
/// class of each directed edge.
pub fn runs_against(directions: &[u32], one: u32, other: u32) -> bool
    requires one_in_range { forward one < length directions.now }
    requires other_in_range { backward other < length directions.now }
    ensures { result ≡ runs_against directions.now one other }
{
    directions[forward(one)] == directions[backward(other)]
}
