//! Corners of tetrahedra at edges, and the tours of internal edges.

ghost use Rattle.std.specs.Prelude.{◌≡◌, ◌*◌, ◌<◌, ◌≤◌, ℕ, length, slice_index, IfOk, map, []};
ghost use Rattle.table_definitions.specs.Permutation.{IsPermutationOfFour};
ghost use Rattle.table_definitions.specs.Table.{max_tets};
ghost use Rattle.table_walk_laws.specs.Walks.{IsInjectiveBelow, step_of};
ghost use Rattle.skeleton_class_laws.specs.Rounds.{corner_at, next_corner, start_of, swap, word_at, IsTour, IsTourUnlessBoundary};
ghost use Rattle.skeleton.specs.Parts.{AreRounds};

use crate::crossings::across;
use finite_walks::orbit;
use gluing_table::{Face, Table};
use out_of_memory::NoMemory;
use perm_four::Perm4;
use std::alloc::Global;
use std::marker::Model;

/// A corner of tetrahedron `tet` at its edge with ends `a` and `b`, between its faces `c` and `d`: a tour of the edge
/// enters through face `d` and leaves through face `c`.
#[derive(Clone, Copy)]
pub struct Corner {
    pub tet: u32,
    pub a: u8,
    pub b: u8,
    pub c: u8,
    pub d: u8,
}

impl Model for Corner {
    ghost use Rattle.skeleton_definitions.specs.Corners as definition;

    ghost Value = { definition.Corner };

    ghost view = { λ k. record { tet = k.tet; a = k.a; b = k.b; c = k.c; d = k.d } };

    ghost inverse = { λ k. record { tet = k.tet; a = k.a; b = k.b; c = k.c; d = k.d } };
}

/// For each corner of `tets` tetrahedra, by its index, the index of the next corner around its edge, if there is one.
/// Invariant: no two corners have one next corner.
#[derive(Drop)]
struct NextCorners {
    tets: u32,
    next: Vec<Option<u32>>,
    ghost limited: { tets ≤ max_tets },
    ghost size: { length next.items ≡ 24 * tets },
    ghost injective: { IsInjectiveBelow (length next.items) (step_of next.items) },
}

/// The number of orders of the vertices of a tetrahedron.
const ORDERS: u32 = 24;

/// For each edge the index of the order in which its tour starts: first its ends, and then the other vertices, both
/// ascending.
const STARTS: [u8; 6] = [0, 2, 4, 8, 10, 16];

/// The order of the vertices at the corner with index `place`.
fn order(place: u32) -> Perm4
    ensures value { result ≡ word_at place }
    ensures permutes { IsPermutationOfFour result }
{
    match Perm4::of_index((place % ORDERS) as u8) {
        Some(order) => order,
        None => unreachable!(),
    }
}

/// The transposition of 2 and 3.
fn swap() -> Perm4
    ensures { result ≡ swap }
{
    match Perm4::new(0, 1, 3, 2) {
        Some(swap) => swap,
        None => unreachable!(),
    }
}

/// The corner with index `place`.
fn corner_of(place: u32) -> Corner
    ensures { result ≡ corner_at place }
{
    let order = order(place);
    Corner {
        tet: place / ORDERS,
        a: order.image(0),
        b: order.image(1),
        c: order.image(2),
        d: order.image(3),
    }
}

/// The index of the corner after `place`, or `None` if its face `c` is a boundary face.
fn next_place(table: &Table, place: u32) -> Option<u32>
    requires { place < 24 * length table.now }
    ensures { result ≡ next_corner table.now place }
{
    let order = order(place);
    let face = Face {
        tet: place / ORDERS,
        face: order.image(2),
    };
    let Some(glue) = across(table, face) else {
        return None;
    };
    let across = glue.perm.compose(order).compose(swap());
    Some(ORDERS * glue.tet + across.index() as u32)
}

/// The index of the next corner for each corner of `table`.
fn next_corners(alloc: Global, table: &Table) -> Result<NextCorners, NoMemory>
    ensures tets { IfOk result (λ corners. corners.tets ≡ length table.now) }
    ensures steps { IfOk result (λ corners. (k : ℕ) → step_of corners.next.items k ≡ next_corner table.now k) }
{
    let tets = table.len();
    let count = ORDERS * tets;
    let mut next = Vec::with_capacity(alloc, count as usize)?;
    for place in 0..count {
        next.push(next_place(table, place))?;
    }
    Ok(NextCorners { tets, next })
}

/// The corners with the indices `places`.
fn corners_of(alloc: Global, places: &[u32]) -> Result<Vec<Corner>, NoMemory>
    ensures { IfOk result (λ corners. corners.items ≡ map corner_at places.now) }
{
    let mut corners = Vec::with_capacity(alloc, places.len())?;
    for place in places {
        corners.push(corner_of(*place))?;
    }
    Ok(corners)
}

/// The tour of `edge`, from its first corner.
fn walk(alloc: Global, corners: &NextCorners, edge: u32) -> Result<Vec<Corner>, NoMemory>
    requires { edge < 6 * corners.now.tets }
    ensures { IfOk result (λ walk. IsTour (step_of corners.now.next.items) (start_of edge) walk.items) }
{
    let start = ORDERS * (edge / 6) + STARTS[(edge % 6) as usize] as u32;
    let places = orbit(alloc, &corners.next, start)?;
    corners_of(alloc, &places)
}

/// The tour of `edge`, or no corner if `on_boundary`.
fn walk_unless(
    alloc: Global,
    corners: &NextCorners,
    on_boundary: bool,
    edge: u32,
) -> Result<Vec<Corner>, NoMemory>
    requires { edge < 6 * corners.now.tets }
    ensures { IfOk result (λ walk. IsTourUnlessBoundary (step_of corners.now.next.items) on_boundary edge walk.items) }
{
    if on_boundary {
        return Ok(Vec::new(alloc));
    }
    walk(alloc, corners, edge)
}

/// The tour of each edge class from its first member in `firsts`, or no corner if `boundary` marks the class.
pub fn walks(
    alloc: Global,
    table: &Table,
    firsts: &[u32],
    boundary: &[bool],
) -> Result<Vec<Vec<Corner>>, NoMemory>
    requires in_range { (c : ℕ) → c < length firsts.now → slice_index firsts.now c < 6 * length table.now }
    requires one_each { length boundary.now ≡ length firsts.now }
    ensures { IfOk result (λ walks. AreRounds table.now firsts.now boundary.now (length firsts.now) walks.items) }
{
    let corners = next_corners(alloc, table)?;
    let mut walks = Vec::with_capacity(alloc, firsts.len())?;
    for class in 0..firsts.len() {
        walks.push(walk_unless(alloc, &corners, boundary[class], firsts[class])?)?;
    }
    Ok(walks)
}
