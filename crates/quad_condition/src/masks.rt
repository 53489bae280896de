//! Tests word by word whether a union of supports contains a clashing pair.

ghost use Rattle.std.specs.Prelude.{◌≡◌, ℕ, ◌+◌, ◌<◌, ◌≤◌, ◌↔◌, Vec, length, IsTrue, IfOk, slice_index_or};
ghost use Rattle.std.specs.declared.alloc.Global.{Global};
ghost use Rattle.table_definitions.specs.Table.{max_tets};
ghost use Rattle.surface_definitions.specs.Coordinates as coordinates;
ghost use Rattle.ray_steps.specs.Clashes.{IsClashFree};
ghost use Rattle.quad_condition.specs.Marks as marks;
ghost use Rattle.quad_condition.specs.Marks.{AreMarks, AreDistanceMasks, HasPairAtDistance};

use crate::space::Space;
use crate::words::{has_pair_ahead, has_two};
use normal_discs::{before_octagons, columns, columns_each, triangles_each};
use out_of_memory::NoMemory;
use std::alloc::Global;
use std::marker::Model;
use support_bits::{Support, set_bit};
use surface_definitions::Coords;

/// The clashing pairs for `tets` tetrahedra as masks. Invariant: `near` has for each distance from 1 on the columns of
/// quads and octagons with another one at that distance ahead in their tetrahedron, and `octagons` has the columns of
/// octagons.
#[derive(Drop)]
pub struct Masks {
    coords: Coords,
    tets: u32,
    near: Vec<Vec<u64>>,
    octagons: Vec<u64>,
}

impl Model for Masks {
    ghost use Rattle.quad_condition.specs.Marks.{Masked};

    ghost Value = { Masked };

    ghost use Rattle.quad_condition.specs.Marks.{AreMasks};

    ghost view = { λ m. record { coords = m.coords; tets = m.tets } };

    ghost invariant = { λ m. AreMasks m.coords m.tets m.near.items m.octagons.items };
}

/// Whether `column` has an index of at least `least` in its tetrahedron, and more than `distance` columns from it on.
fn is_marked(coords: Coords, least: u32, distance: u32, column: u32) -> bool
    requires { distance ≤ 10 }
    ensures { result ≡ marks.is_marked coords least distance column }
{
    let each = columns_each(coords);
    let place = column % each;
    least <= place && place + distance < each
}

/// The mask of the columns of `space` that `is_marked` selects for `least` and `distance`.
fn mask(alloc: Global, space: Space, least: u32, distance: u32) -> Result<Vec<u64>, NoMemory>
    requires { distance ≤ 10 }
    ensures { IfOk result (λ words. AreMarks space.coords space.tets least distance words.items) }
{
    let count = columns(space.coords, space.tets);
    let mut words = vec![in alloc; 0u64; (count as usize).div_ceil(64)]?;
    for column in 0..count {
        if is_marked(space.coords, least, distance, column) {
            set_bit(&mut words, column);
        }
    }
    Ok(words)
}

/// The masks of the columns of `space` for the distances within a tetrahedron, from 1 on.
fn distance_masks(alloc: Global, space: Space) -> Result<Vec<Vec<u64>>, NoMemory>
    ensures { IfOk result (λ near. AreDistanceMasks space.coords space.tets near.items) }
{
    let least = triangles_each(space.coords);
    let mut near = Vec::new(alloc);
    for distance in 1..columns_each(space.coords) - least {
        near.push(mask(alloc, space, least, distance)?)?;
    }
    Ok(near)
}

/// Whether, for a mask, a column of it and the one at its distance ahead both are in the union of `a` and `b`.
fn has_pair_at_distance(near: &[Vec<u64>], a: &[u64], b: &[u64]) -> bool
    requires limited { length near.now ≤ 10 }
    requires first { (k : ℕ) (d : Vec ℕ Global) → k < length near.now
        → length (slice_index_or near.now k d).items ≡ length a.now }
    requires second { length b.now ≡ length a.now }
    ensures { IsTrue result ↔ HasPairAtDistance near.now a.now b.now }
{
    for (k, mask) in near.iter().enumerate() {
        if has_pair_ahead(mask, a, b, k as u32 + 1) {
            return true;
        }
    }
    false
}

impl Masks {
    /// The masks for `tets` tetrahedra in the coordinates `coords`.
    pub fn new(alloc: Global, coords: Coords, tets: u32) -> Result<Masks, NoMemory>
        requires { tets ≤ max_tets }
        ensures { IfOk result (λ masks. masks ≡ record { coords = coords; tets = tets }) }
    {
        let space = Space { coords, tets };
        let near = distance_masks(alloc, space)?;
        let octagons = mask(alloc, space, before_octagons(coords), 0)?;
        Ok(Masks {
            coords,
            tets,
            near,
            octagons,
        })
    }

    /// Whether the union of `a` and `b` contains no clashing pair.
    pub fn allows(&self, a: &Support, b: &Support) -> bool
        requires first { length a.now ≡ coordinates.columns self.now.coords self.now.tets }
        requires second { length b.now ≡ coordinates.columns self.now.coords self.now.tets }
        ensures { IsTrue result ↔ IsClashFree (coordinates.clash_list self.now.coords self.now.tets) a.now b.now }
    {
        let first = a.words();
        let second = b.words();
        !has_pair_at_distance(&self.near, first, second) && !has_two(&self.octagons, first, second)
    }
}
