//! Columns that alone are a residual: a larger residual that contains one is not minimal.

ghost use Rattle.std.specs.Prelude.{◌≡◌, ℕ, ◌+◌, ◌<◌, ◌≤◌, length, IfOk};
ghost use Rattle.std.specs.Int.{bit_at};
ghost use Rattle.std.specs.List.{All};
ghost use Rattle.support_bits.specs.Columns.{Meets};
ghost use Rattle.support_table.specs.Counts.{columns_in_either};
ghost use Rattle.support_table.specs.Near.{AreNearRays, IsNearOf};
ghost use Rattle.support_table.specs.Parts.{AreCopied};
ghost use Rattle.support_table.specs.Residuals.{support_at};
ghost use Rattle.support_table.specs.Singles.{AreAllSingles, AreSingleMasks, AreSingles};

use crate::chunk::{Chunk, ray_at};
use crate::counts::union_count;
use crate::groups::group_of;
use crate::masks::add_mask;
use crate::near::Near;
use crate::outer::OuterRay;
use crate::part::Part;
use out_of_memory::NoMemory;
use std::alloc::Global;
use support_bits::Support;

/// The number of columns of `outer`, plus 1.
fn single_size(outer: &Support) -> u64
    ensures { result ≡ columns_in_either outer.now outer.now + 1 }
{
    let _columns = outer.columns();
    union_count(outer.words(), outer.words()) + 1
}

/// Adds to `single` the residual of the ray of `part` with index `k`, if that ray is not the outer one, its union with it
/// is not too large, and the residual is one column. Says nothing of whether the two clash.
fn add_single(ray: OuterRay, part: &Part, k: usize, single: &mut Support)
    requires copied { AreCopied ray.rays.now part.now.places.items part.now.table }
    requires in_range { All (λ place. place < length ray.rays.now.supports) part.now.places.items }
    requires k { k < length part.now.places.items }
    requires separate { ¬ Meets (support_at part.now.table.supports k) ray.joined.now }
    requires columns { length single.old ≡ ray.rays.now.columns }
    requires singles { AreSingles ray.rays.now.supports ray.support.now ray.joined.now ray.own ray.most single.old }
    ensures columns { length single.new ≡ ray.entry.rays.now.columns }
    ensures singles { AreSingles ray.entry.rays.now.supports ray.entry.support.now ray.entry.joined.now ray.entry.own
        ray.entry.most single.new }
{
    if part.places[k] == ray.own {
        return;
    }
    let outer = ray.support;
    let _columns = outer.columns();
    let size = part.table.union_count(k, outer);
    if size > ray.most || size > single_size(outer) {
        return;
    }
    let group = group_of(part.table.words_at(k), outer.words());
    if group > 0 {
        single.insert((group - 1) as u32);
    }
}

/// Adds to `singles` the residual of `near` for each outer ray whose bit in `word` is set, if it is one column.
fn add_singles(chunk: Chunk, near: Near, word: u64, singles: &mut Vec<Support>)
    requires near { IsNearOf chunk.search.outers.now chunk.chosen.now chunk.part.now.table.supports near }
    requires separate { (b : ℕ) → bit_at word b ≡ 1 → bit_at near.clash b ≡ 0 }
    requires singles { AreAllSingles chunk.search.rays.now chunk.search.outers.now chunk.chosen.now chunk.search.most
        singles.old.items }
    ensures { AreAllSingles chunk.entry.search.rays.now chunk.entry.search.outers.now chunk.entry.chosen.now
        chunk.entry.search.most singles.new.items }
{
    let mut rest = word;
    let mut bit = 0usize;
    while rest != 0 {
        let skip = rest.trailing_zeros();
        let next = bit + skip as usize;
        if next >= chunk.chosen.len() {
            return;
        }
        add_single(
            ray_at(chunk, next),
            chunk.part,
            near.place,
            &mut singles[next],
        );
        rest = (rest >> skip) >> 1;
        bit = next + 1;
    }
}

/// An empty set of columns for each outer ray of `chunk`.
fn no_singles(alloc: Global, chunk: Chunk) -> Result<Vec<Support>, NoMemory>
    ensures { IfOk result (λ singles. AreAllSingles chunk.entry.search.rays.now chunk.entry.search.outers.now
        chunk.entry.chosen.now chunk.entry.search.most singles.items) }
{
    let search = chunk.search;
    let rays = search.rays;
    let mut singles = Vec::with_capacity(alloc, chunk.chosen.len())?;
    for _number in 0..chunk.chosen.len() {
        singles.push(Support::none(alloc, rays.columns())?)?;
    }
    Ok(singles)
}

/// For each outer ray of `chunk` columns that alone are the residual of a candidate for adjacency to it. Those of rays
/// of `near` that are not known to have two columns outside it.
pub fn singles_of(alloc: Global, chunk: Chunk, near: &[Near]) -> Result<Vec<Support>, NoMemory>
    requires { AreNearRays chunk.search.outers.now chunk.chosen.now chunk.part.now.table.supports near.now }
    ensures { IfOk result (λ singles. AreAllSingles chunk.entry.search.rays.now chunk.entry.search.outers.now
        chunk.entry.chosen.now chunk.entry.search.most singles.items) }
{
    let mut singles = no_singles(alloc, chunk)?;
    for ray in near {
        add_singles(chunk, *ray, !(ray.clash | ray.two), &mut singles);
    }
    Ok(singles)
}

/// For each of `columns` columns the outer rays for which it is one of `singles`.
pub fn single_masks(alloc: Global, singles: &[Support], columns: u32) -> Result<Vec<u64>, NoMemory>
    requires columns { All (λ single. length single ≡ columns) singles.now }
    requires short { length singles.now ≤ 64 }
    ensures { IfOk result (λ masks. AreSingleMasks singles.now columns (length singles.now) masks.items) }
{
    let mut masks = vec![in alloc; 0u64; columns as usize]?;
    for (b, single) in singles.iter().enumerate() {
        add_mask(&mut masks, single, b);
    }
    Ok(masks)
}
