//! Sides and corners of the triangles of links. A triangle has three of each, one for each directed edge from its
//! vertex.

ghost use Rattle.std.specs.Prelude.{◌≡◌, ◌+◌, ◌*◌, ◌/◌, ◌%◌, ◌<◌, ◌≤◌, ◌==◌, ℕ, length, slice_index, IfOk, false};
ghost use Rattle.std.specs.List.{slice_index_or};
ghost use Rattle.table_definitions.specs.Permutation.{others};
ghost use Rattle.table_definitions.specs.Table as gluings;
ghost use Rattle.table_definitions.specs.Places.{is_boundary};
ghost use Rattle.skeleton_definitions.specs.Links.{is_first_side};
ghost use Rattle.skeleton_class_laws.specs.Tallies.{side_at};

use gluing_table::{Face, Table};
use out_of_memory::NoMemory;
use skeleton::{Numbering, Skeleton};
use std::alloc::Global;

/// The vertex class of each of `each` things at every vertex of every tetrahedron, so that thing j belongs to vertex j
/// / `each`.
pub fn owners(alloc: Global, skeleton: &Skeleton, each: u32) -> Result<Vec<u32>, NoMemory>
    requires some { 0 < each }
    requires limited { each ≤ 3 }
    ensures size { IfOk result (λ owners. length owners.items ≡ 4 * each * length skeleton.now.rows) }
    ensures owners { IfOk result (λ owners.
        (j : ℕ) → j < 4 * each * length skeleton.now.rows
        → slice_index owners.items j ≡ slice_index skeleton.now.vertices.classes (j / each)) }
{
    let count = 4 * each * skeleton.table().len();
    let mut owners = Vec::with_capacity(alloc, count as usize)?;
    for thing in 0..count {
        let vertex = thing / each;
        owners.push(skeleton.vertex_class(vertex / 4, (vertex % 4) as u8))?;
    }
    Ok(owners)
}

/// The vertex of rank `rank` among those other than `vertex`, ascending.
fn other(vertex: u8, rank: u8) -> u8
    requires a_vertex { vertex < 4 }
    requires a_rank { rank < 3 }
    ensures value { result ≡ slice_index (others vertex) rank }
    ensures in_range { result < 4 }
{
    if rank < vertex { rank } else { rank + 1 }
}

/// The face that contains side `place`: the side of the triangle at v opposite its corner towards w lies in face w.
fn side(place: u32) -> Face
    requires { place < 12000 }
    ensures value { result ≡ side_at place }
    ensures a_face { result.face < 4 }
    ensures tet { result.tet ≡ place / 12 }
{
    let face = other((place / 3 % 4) as u8, (place % 3) as u8);
    Face {
        tet: place / 12,
        face,
    }
}

/// Whether `face` is a boundary face, or the first of two faces that are glued.
fn is_first(table: &Table, face: Face) -> bool
    requires { face.tet < length table.now }
    ensures { result ≡ is_first_side face (gluings.glue table.now face) }
{
    let Some(glue) = table.glue(face) else {
        return true;
    };
    let other = glue.other_side(face);
    face.tet < other.tet || (face.tet == other.tet && face.face < other.face)
}

/// For each of the 12n sides of link triangles of `table`, whether it lies in a boundary face or in the first of two
/// faces that are glued.
pub fn first_sides(alloc: Global, table: &Table) -> Result<Vec<bool>, NoMemory>
    ensures size { IfOk result (λ passes. length passes.items ≡ 12 * length table.now) }
    ensures passes { IfOk result (λ passes.
        (j : ℕ) → j < 12 * length table.now
        → slice_index_or passes.items j false ≡ is_first_side (side_at j) (gluings.glue table.now (side_at j))) }
{
    let count = 12 * table.len();
    let mut passes = Vec::with_capacity(alloc, count as usize)?;
    for place in 0..count {
        passes.push(is_first(table, side(place)))?;
    }
    Ok(passes)
}

/// For each of the 12n sides of link triangles, whether it lies in a boundary face of `table`.
pub fn boundary_sides(alloc: Global, table: &Table) -> Result<Vec<bool>, NoMemory>
    ensures size { IfOk result (λ passes. length passes.items ≡ 12 * length table.now) }
    ensures passes { IfOk result (λ passes.
        (j : ℕ) → j < 12 * length table.now → slice_index_or passes.items j false ≡ is_boundary table.now (side_at j)) }
{
    let count = 12 * table.len();
    let mut passes = Vec::with_capacity(alloc, count as usize)?;
    for place in 0..count {
        passes.push(table.glue(side(place)).is_none())?;
    }
    Ok(passes)
}

/// For each corner of a link triangle, whether its directed edge is the least of its class in `directions`.
pub fn least_corners(alloc: Global, directions: &Numbering) -> Result<Vec<bool>, NoMemory>
    ensures size { IfOk result (λ passes. length passes.items ≡ length directions.now.classes.items) }
    ensures passes { IfOk result (λ passes.
        (j : ℕ) → j < length directions.now.classes.items
        → slice_index_or passes.items j false
        ≡ (slice_index directions.now.firsts.items (slice_index directions.now.classes.items j) == j)) }
{
    let mut passes = Vec::with_capacity(alloc, directions.classes.len())?;
    for place in 0..directions.classes.len() as u32 {
        let class = directions.classes[place as usize];
        passes.push(directions.firsts[class as usize] == place)?;
    }
    Ok(passes)
}

/// For each of `count` vertices, whether its two signs have one class. `classes` has the class of each signed vertex.
pub fn reversed_vertices(alloc: Global, classes: &[u32], count: u32) -> Result<Vec<bool>, NoMemory>
    requires { 2 * count ≤ length classes.now }
    ensures size { IfOk result (λ passes. length passes.items ≡ count) }
    ensures passes { IfOk result (λ passes.
        (j : ℕ) → j < count → slice_index_or passes.items j false
        ≡ (slice_index classes.now (2 * j) == slice_index classes.now (2 * j + 1))) }
{
    let mut passes = Vec::with_capacity(alloc, count as usize)?;
    for vertex in 0..count {
        passes.push(classes[2 * vertex as usize] == classes[2 * vertex as usize + 1])?;
    }
    Ok(passes)
}
