//! The candidates for adjacency to each outer ray of a chunk.

ghost use Rattle.std.specs.Prelude.{◌≡◌, ℕ, ◌<◌, [], length, slice_index, bit_and, bit_or, IfOk, OnOk};
ghost use Rattle.std.specs.Int.{bit_at};
ghost use Rattle.std.specs.List.{All};
ghost use Rattle.support_bits.specs.Columns.{Meets};
ghost use Rattle.support_table.specs.Candidates.{AreAllCandidates, AreHits, ArePushedBelow, IsCandidatePushed};
ghost use Rattle.support_table.specs.Near.{AreNearRays, IsNearOf};
ghost use Rattle.support_table.specs.Parts.{AreCopied, IsPart};
ghost use Rattle.support_table.specs.Residuals.{support_at};

use crate::chunk::{Chunk, ray_at};
use crate::masks::{byte_masks, mask_of};
use crate::near::{Near, near_rays};
use crate::outer::OuterRay;
use crate::part::Part;
use crate::singles::{single_masks, singles_of};
use out_of_memory::NoMemory;
use std::alloc::Global;

/// The index of a candidate, and the number of columns in its union with the outer ray.
#[derive(Clone, Copy)]
pub struct Candidate {
    pub place: usize,
    pub size: u64,
}

/// The number of candidates that a list has room for at first. Affects speed alone.
const ROOM: usize = 32;

/// Appends the ray of `part` with index `k`, which does not clash with `ray`, if it is not that one and their union has
/// at most `ray.most` columns.
fn push_candidate(
    ray: OuterRay,
    part: &Part,
    k: usize,
    list: &mut Vec<Candidate>,
) -> Result<(), NoMemory>
    requires copied { AreCopied ray.rays.now part.now.places.items part.now.table }
    requires in_range { All (λ place. place < length ray.rays.now.supports) part.now.places.items }
    requires k { k < length part.now.places.items }
    requires separate { ¬ Meets (support_at part.now.table.supports k) ray.joined.now }
    ensures { OnOk result (IsCandidatePushed ray.entry.rays.now.supports ray.entry.support.now ray.entry.joined.now
        ray.entry.own ray.entry.most (slice_index part.now.places.items k) list.old.items list.new.items) }
{
    let size = part.table.union_count(k, ray.support);
    if size <= ray.most {
        let place = part.places[k];
        if place != ray.own {
            list.push(Candidate { place, size })?;
        }
    }
    Ok(())
}

/// Appends the ray of `near` to the lists of those outer rays whose bits are set in `word` and for which it is a
/// candidate.
fn push_to_lists(
    chunk: Chunk,
    near: Near,
    word: u64,
    lists: &mut Vec<Vec<Candidate>>,
) -> Result<(), NoMemory>
    requires near { IsNearOf chunk.search.outers.now chunk.chosen.now chunk.part.now.table.supports near }
    requires separate { (b : ℕ) → bit_at word b ≡ 1 → bit_at near.clash b ≡ 0 }
    requires count { length lists.old.items ≡ length chunk.chosen.now }
    ensures { OnOk result (ArePushedBelow chunk.entry.search.rays.now.supports chunk.entry.search.outers.now
        chunk.entry.chosen.now chunk.entry.search.most (slice_index chunk.entry.part.now.places.items near.place) word
        (length chunk.entry.chosen.now) lists.old.items lists.new.items) }
{
    let mut rest = word;
    let mut bit = 0usize;
    while rest != 0 {
        let skip = rest.trailing_zeros();
        let next = bit + skip as usize;
        if next >= chunk.chosen.len() {
            return Ok(());
        }
        push_candidate(
            ray_at(chunk, next),
            chunk.part,
            near.place,
            &mut lists[next],
        )?;
        rest = (rest >> skip) >> 1;
        bit = next + 1;
    }
    Ok(())
}

/// An empty list for each of `count` outer rays.
fn empty_lists(alloc: Global, count: usize) -> Result<Vec<Vec<Candidate>>, NoMemory>
    ensures count { IfOk result (λ lists. length lists.items ≡ count) }
    ensures empty { IfOk result (λ lists. All (λ list. list.items ≡ []) lists.items) }
{
    let mut lists = Vec::with_capacity(alloc, count)?;
    for _number in 0..count {
        lists.push(Vec::with_capacity(alloc, ROOM)?)?;
    }
    Ok(lists)
}

/// The bits of the outer rays to whose lists the ray of `near` is not appended: it clashes with them, or it has two
/// columns outside them and their bits are set in `mark`.
fn ruled_out(near: Near, mark: u64) -> u64
    ensures { result ≡ bit_or near.clash (bit_and mark near.two) }
{
    near.clash | (mark & near.two)
}

/// For each outer ray of `chunk` the candidates among the rays of `near`, without those that `hits`, a table of columns
/// that alone are residuals, rules out.
fn list_near(
    alloc: Global,
    chunk: Chunk,
    near: &[Near],
    hits: &[u64],
) -> Result<Vec<Vec<Candidate>>, NoMemory>
    requires part { IsPart chunk.search.rays.now chunk.search.outers.now chunk.chosen.now chunk.part.now }
    requires near { AreNearRays chunk.search.outers.now chunk.chosen.now chunk.part.now.table.supports near.now }
    requires hits { AreHits chunk.search.rays.now chunk.search.outers.now chunk.chosen.now chunk.search.most hits.now }
    ensures { IfOk result (λ lists. AreAllCandidates chunk.entry.search.rays.now.supports chunk.entry.search.outers.now
        chunk.entry.chosen.now chunk.entry.search.most lists.items) }
{
    let part = chunk.part;
    let table = &part.table;
    let mut lists = empty_lists(alloc, chunk.chosen.len())?;
    for ray in near {
        let mark = mask_of(hits, table.words_at(ray.place));
        push_to_lists(chunk, *ray, !ruled_out(*ray, mark), &mut lists)?;
    }
    Ok(lists)
}

/// For each outer ray of `chunk` candidates for adjacency to it, among which are all that have a minimal residual.
pub fn candidates_of(alloc: Global, chunk: Chunk) -> Result<Vec<Vec<Candidate>>, NoMemory>
    requires part { IsPart chunk.search.rays.now chunk.search.outers.now chunk.chosen.now chunk.part.now }
    ensures { IfOk result (λ lists. AreAllCandidates chunk.entry.search.rays.now.supports chunk.entry.search.outers.now
        chunk.entry.chosen.now chunk.entry.search.most lists.items) }
{
    let near = near_rays(alloc, chunk)?;
    let singles = singles_of(alloc, chunk, &near)?;
    let part = chunk.part;
    let masks = single_masks(alloc, &singles, part.table.columns())?;
    let hits = byte_masks(alloc, &masks)?;
    list_near(alloc, chunk, &near, &hits)
}
