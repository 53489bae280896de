//! Links and their kinds.

ghost use Rattle.std.specs.Prelude.{◌≡◌, ◌==◌, ◌↔◌, IsTrue, ◌*◌, ◌/◌, ◌<◌, ℕ, length, slice_index, IfOk};
ghost use Rattle.skeleton_definitions.specs.Links as definition;
ghost use Rattle.skeleton_definitions.specs.Skeleton.{AreLinks};
ghost use Rattle.skeleton_class_laws.specs.Numberings.{AreClassesOf};
ghost use Rattle.skeleton_class_laws.specs.Tallies.{CountsCorners};

use crate::sides::{boundary_sides, first_sides, least_corners, owners, reversed_vertices};
use crate::tally::tally;
use out_of_memory::NoMemory;
use skeleton::{Kind, Numbering, Skeleton, classes_of};
use skeleton_definitions::{Link, LinkKind};
use std::alloc::Global;

/// The kind of a link, from whether it is `closed`, its Euler characteristic `euler`, and whether it is `orientable`.
fn kind_of(closed: bool, euler: i64, orientable: bool) -> LinkKind
    ensures { result ≡ definition.kind_of closed euler orientable }
{
    match (closed, euler, orientable) {
        (true, 2, _) => LinkKind::Sphere,
        (true, 0, true) => LinkKind::Torus,
        (true, 0, false) => LinkKind::Klein,
        (false, 1, _) => LinkKind::Disc,
        _ => LinkKind::Other,
    }
}

/// A link with these numbers of `triangles`, `edges` and `vertices`, with its Euler characteristic and its kind.
fn link_of(triangles: u32, edges: u32, vertices: u32, closed: bool, orientable: bool) -> Link
    ensures triangles { result.triangles ≡ triangles }
    ensures edges { result.edges ≡ edges }
    ensures vertices { result.vertices ≡ vertices }
    ensures closed { result.closed ≡ closed }
    ensures orientable { result.orientable ≡ orientable }
    ensures euler { result.euler ≡ definition.euler_of result.vertices result.edges result.triangles }
    ensures kind { result.kind ≡ definition.kind_of result.closed result.euler result.orientable }
{
    let euler = (vertices as i64 + triangles as i64) - edges as i64;
    Link {
        triangles,
        edges,
        vertices,
        euler,
        closed,
        orientable,
        kind: kind_of(closed, euler, orientable),
    }
}

/// For each vertex class of `skeleton` the number of members that are identified with themselves with the other sign: 0
/// if and only if the link is orientable.
fn reversed_tally(alloc: Global, skeleton: &Skeleton) -> Result<Vec<u32>, NoMemory>
    ensures size { IfOk result (λ t. length t.items ≡ skeleton.now.vertices.count) }
    ensures orientable { IfOk result
        (λ t. (c : ℕ) → c < skeleton.now.vertices.count → IsTrue (slice_index t.items c == 0)
        ↔ definition.IsOrientableLink skeleton.now.rows skeleton.now.vertices.classes c) }
{
    let table = skeleton.table();
    let members = owners(alloc, skeleton, 1)?;
    let signs = classes_of(alloc, table, Kind::VertexSigns)?;
    let passes = reversed_vertices(alloc, &signs.classes, 4 * table.len())?;
    let tallies = tally(alloc, &passes, &members, skeleton.vertices() as usize)?;
    Ok(tallies)
}

/// Counts for each vertex class.
#[derive(Drop)]
struct Tallies {
    /// the sides of its link's triangles, two glued ones counted once
    sides: Vec<u32>,
    /// the classes of the corners of its link's triangles
    corners: Vec<u32>,
    /// the sides in boundary faces
    unglued: Vec<u32>,
    /// the members that are identified with themselves with the other sign
    backwards: Vec<u32>,
    directions: Numbering,
}

/// A skeleton, and the vertex classes of the corners of link triangles. Invariant: `owners` has an entry for each of
/// the 12n corners, by index 3(4t + v) + i, and it is the vertex class of v in t.
#[derive(Clone, Copy)]
struct Corners<'a> {
    skeleton: &'a Skeleton,
    owners: &'a [u32],
    ghost one_each: { length owners.now ≡ 12 * length skeleton.now.rows },
    ghost owned: { (j : ℕ) → j < 12 * length skeleton.now.rows → slice_index owners.now j ≡ slice_index skeleton.now.vertices.classes (j / 3) },
}

/// The number of edges of the link of each vertex class, by `corners`.
fn edge_tally(alloc: Global, corners: Corners<'_>) -> Result<Vec<u32>, NoMemory>
    ensures size { IfOk result (λ t. length t.items ≡ corners.entry.skeleton.now.vertices.count) }
    ensures edges { IfOk result (λ t.
        (c : ℕ) → c < corners.entry.skeleton.now.vertices.count
        → slice_index t.items c ≡ definition.link_edges corners.entry.skeleton.now.rows
        corners.entry.skeleton.now.vertices.classes c) }
{
    let skeleton = corners.skeleton;
    let passes = first_sides(alloc, skeleton.table())?;
    let tallies = tally(alloc, &passes, corners.owners, skeleton.vertices() as usize)?;
    Ok(tallies)
}

/// The number of sides of link triangles in boundary faces, for each vertex class, by `corners`.
fn open_tally(alloc: Global, corners: Corners<'_>) -> Result<Vec<u32>, NoMemory>
    ensures size { IfOk result (λ t. length t.items ≡ corners.entry.skeleton.now.vertices.count) }
    ensures closed { IfOk result (λ t.
        (c : ℕ) → c < corners.entry.skeleton.now.vertices.count
        → (slice_index t.items c == 0) ≡ definition.is_closed_link corners.entry.skeleton.now.rows
        corners.entry.skeleton.now.vertices.classes c) }
{
    let skeleton = corners.skeleton;
    let passes = boundary_sides(alloc, skeleton.table())?;
    let tallies = tally(alloc, &passes, corners.owners, skeleton.vertices() as usize)?;
    Ok(tallies)
}

/// The number of vertices of the link of each vertex class; `directions` are the classes of directed edges.
fn corner_tally(
    alloc: Global,
    corners: Corners<'_>,
    directions: &Numbering,
) -> Result<Vec<u32>, NoMemory>
    requires { AreClassesOf Kind.Directions corners.skeleton.now.rows directions.now.classes.items
        directions.now.firsts.items }
    ensures size { IfOk result (λ t. length t.items ≡ corners.entry.skeleton.now.vertices.count) }
    ensures vertices { IfOk result (λ t.
        CountsCorners corners.entry.skeleton.now directions.now.classes.items t.items) }
{
    let skeleton = corners.skeleton;
    let passes = least_corners(alloc, directions)?;
    let tallies = tally(alloc, &passes, corners.owners, skeleton.vertices() as usize)?;
    Ok(tallies)
}

fn tallies_of(alloc: Global, skeleton: &Skeleton) -> Result<Tallies, NoMemory>
    ensures sides { IfOk result (λ t. length t.sides.items ≡ skeleton.now.vertices.count) }
    ensures corners { IfOk result (λ t. length t.corners.items ≡ skeleton.now.vertices.count) }
    ensures unglued { IfOk result (λ t. length t.unglued.items ≡ skeleton.now.vertices.count) }
    ensures backwards { IfOk result (λ t. length t.backwards.items ≡ skeleton.now.vertices.count) }
    ensures edges { IfOk result (λ t.
        (c : ℕ) → c < skeleton.now.vertices.count
        → slice_index t.sides.items c ≡ definition.link_edges skeleton.now.rows skeleton.now.vertices.classes c) }
    ensures closed { IfOk result (λ t.
        (c : ℕ) → c < skeleton.now.vertices.count
        → (slice_index t.unglued.items c == 0)
        ≡ definition.is_closed_link skeleton.now.rows skeleton.now.vertices.classes c) }
    ensures directions { IfOk result
        (λ t. AreClassesOf Kind.Directions skeleton.now.rows t.directions.classes.items t.directions.firsts.items) }
    ensures vertices { IfOk result (λ t. CountsCorners skeleton.now t.directions.classes.items t.corners.items) }
    ensures orientable { IfOk result
        (λ t. (c : ℕ) → c < skeleton.now.vertices.count → IsTrue (slice_index t.backwards.items c == 0)
        ↔ definition.IsOrientableLink skeleton.now.rows skeleton.now.vertices.classes c) }
{
    let table = skeleton.table();
    let owners = owners(alloc, skeleton, 3)?;
    let all = Corners {
        skeleton,
        owners: &owners,
    };
    let sides = edge_tally(alloc, all)?;
    let unglued = open_tally(alloc, all)?;
    let directions = classes_of(alloc, table, Kind::Directions)?;
    let corners = corner_tally(alloc, all, &directions)?;
    let backwards = reversed_tally(alloc, skeleton)?;
    Ok(Tallies {
        sides,
        corners,
        unglued,
        backwards,
        directions,
    })
}

/// The links of the vertex classes of `skeleton`, by class.
pub fn links(alloc: Global, skeleton: &Skeleton) -> Result<Vec<Link>, NoMemory>
    ensures one_each { IfOk result (λ links. length links.items ≡ skeleton.now.vertices.count) }
    ensures links { IfOk result (λ links. AreLinks skeleton.now (length links.items) links.items) }
{
    let count = skeleton.vertices();
    let tallies = tallies_of(alloc, skeleton)?;
    let mut links = Vec::with_capacity(alloc, count as usize)?;
    for class in 0..count {
        let place = class as usize;
        links.push(link_of(
            skeleton.vertex_degree(class),
            tallies.sides[place],
            tallies.corners[place],
            tallies.unglued[place] == 0,
            tallies.backwards[place] == 0,
        ))?;
    }
    Ok(links)
}
