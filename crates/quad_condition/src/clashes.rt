//! The clashing pairs of columns.

ghost use Rattle.std.specs.Prelude.{◌≡◌, ℕ, ◌+◌, ◌<◌, ◌≤◌, ◌++◌, false, find, length, OnOk, IfOk, option_map};
ghost use Rattle.table_definitions.specs.Table.{max_tets};
ghost use Rattle.surface_definitions.specs.Coordinates as coordinates;
ghost use Rattle.surface_definitions.specs.Verdict.{both_nonzero};
ghost use Rattle.ray_steps.specs.Clashes.{AreClashes};
ghost use Rattle.quad_condition.specs.Partners.{partners};

use crate::space::Space;
use normal_discs::{columns, columns_each, is_octagon, is_quad_or_octagon, tet_of};
use out_of_memory::NoMemory;
use std::alloc::Global;
use surface_definitions::Coords;

/// Whether columns `first` and `second` clash: both count octagons, or both count quads or octagons of one tetrahedron.
fn do_clash(coords: Coords, first: u32, second: u32) -> bool
    ensures { result ≡ coordinates.clash_test coords first second }
{
    if is_octagon(coords, first) && is_octagon(coords, second) {
        return true;
    }
    tet_of(coords, first) == tet_of(coords, second)
        && is_quad_or_octagon(coords, first)
        && is_quad_or_octagon(coords, second)
}

/// An end of the columns of `space` after `first` that it may clash with: those of its tetrahedron, or all columns for
/// an octagon.
fn partners_end(space: Space, first: u32) -> u32
    requires { first < coordinates.columns space.coords space.tets }
    ensures above { first + 1 ≤ result }
    ensures within { result ≤ coordinates.columns space.coords space.tets }
    ensures beyond { (k : ℕ) → result ≤ k → k < coordinates.columns space.coords space.tets
        → coordinates.clash_test space.coords first k ≡ false }
{
    if is_octagon(space.coords, first) {
        columns(space.coords, space.tets)
    } else {
        let each = columns_each(space.coords);
        (first / each + 1) * each
    }
}

/// Appends the pairs of `first` with each later column of `space` that it clashes with.
fn push_partners(space: Space, first: u32, clashes: &mut Vec<(u32, u32)>) -> Result<(), NoMemory>
    requires { first < coordinates.columns space.coords space.tets }
    ensures { OnOk result (clashes.new.items ≡ clashes.old.items ++ partners space.coords space.tets first) }
{
    for second in first + 1..partners_end(space, first) {
        if do_clash(space.coords, first, second) {
            clashes.push((first, second))?;
        }
    }
    Ok(())
}

/// All clashing pairs of columns for `tets` tetrahedra, the smaller column first, in lexicographic order.
pub fn clash_list(alloc: Global, coords: Coords, tets: u32) -> Result<Vec<(u32, u32)>, NoMemory>
    requires { tets ≤ max_tets }
    ensures pairs { IfOk result (λ clashes. clashes.items ≡ coordinates.clash_list coords tets) }
    ensures separate { IfOk result (λ clashes. AreClashes (coordinates.columns coords tets) clashes.items) }
{
    let mut clashes = Vec::new(alloc);
    for first in 0..columns(coords, tets) {
        push_partners(Space { coords, tets }, first, &mut clashes)?;
    }
    Ok(clashes)
}

/// The first column after `first` at which `x`, a vector of `space`, is nonzero and that clashes with `first`. `None`
/// if there is none, also if `x` is 0 at `first`.
fn first_clashing(space: Space, x: &[u128], first: u32) -> Option<u32>
    requires width { length x.now ≡ coordinates.columns space.coords space.tets }
    requires in_range { first < length x.now }
    ensures { option_map (λ second. (first, second)) result
        ≡ find (both_nonzero x.now) (partners space.coords space.tets first) }
{
    if x[first as usize] == 0 {
        return None;
    }
    for second in first + 1..partners_end(space, first) {
        if x[second as usize] != 0 && do_clash(space.coords, first, second) {
            return Some(second);
        }
    }
    None
}

/// The first clashing pair, in lexicographic order, whose two entries in `x` are nonzero. Reads the octagons of other
/// tetrahedra only for the first nonzero octagon: if that clashes with none, there is no later one.
pub fn first_clash(coords: Coords, tets: u32, x: &[u128]) -> Option<(u32, u32)>
    requires tets { tets ≤ max_tets }
    requires width { length x.now ≡ coordinates.columns coords tets }
    ensures { result ≡ find (both_nonzero x.now) (coordinates.clash_list coords tets) }
{
    for first in 0..columns(coords, tets) {
        if let Some(second) = first_clashing(Space { coords, tets }, x, first) {
            return Some((first, second));
        }
    }
    None
}
