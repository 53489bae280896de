//! At most 64 outer rays, whose adjacent rays are found together.

ghost use Rattle.std.specs.Prelude.{◌≡◌, ◌<◌, ◌≤◌, length, Contains};
ghost use Rattle.std.specs.List.{All, AllPairs};
ghost use Rattle.support_table.specs.Near.{chosen_at};
ghost use Rattle.support_table.specs.Parts.{AreCopied};

use crate::masks::CHUNK;
use crate::outer::{OuterRay, PartSearch};
use crate::part::Part;

/// The outer rays of a search with indices `chosen`, at most 64, and a part of the rays, ascending.
#[derive(Clone, Copy)]
pub struct Chunk<'a> {
    pub search: PartSearch<'a>,
    pub chosen: &'a [usize],
    pub part: &'a Part,
    pub ghost are_outers: { All (λ k. k < length search.outers.now) chosen.now },
    pub ghost in_range: { All (λ place. place < length search.rays.now.supports) part.now.places.items },
    pub ghost ascending: { AllPairs (λ one other. one < other) part.now.places.items },
    pub ghost copied: { AreCopied search.rays.now part.now.places.items part.now.table },
    pub ghost short: { length chosen.now ≤ 64 },
}

/// The next `CHUNK` outer rays of `chosen` from index `start` on, or as many as there are.
pub fn chunk_at(chosen: &[usize], start: usize) -> &[usize]
    requires { start < length chosen.now }
    ensures short { length result.now ≤ 64 }
    ensures from { All (Contains chosen.now) result.now }
{
    let count = (chosen.len() - start).min(CHUNK);
    &chosen[start..start + count]
}

/// The outer ray with bit `bit`.
pub fn ray_at<'a>(chunk: Chunk<'a>, bit: usize) -> OuterRay<'a>
    requires { bit < length chunk.chosen.now }
    ensures rays { result.rays.now ≡ chunk.entry.search.rays.now }
    ensures support { result.support.now
        ≡ (chosen_at chunk.entry.search.outers.now chunk.entry.chosen.now bit).support }
    ensures joined { result.joined.now ≡ (chosen_at chunk.entry.search.outers.now chunk.entry.chosen.now bit).joined }
    ensures own { result.own ≡ (chosen_at chunk.entry.search.outers.now chunk.entry.chosen.now bit).place }
    ensures most { result.most ≡ chunk.entry.search.most }
{
    let search = chunk.search;
    let outer = &search.outers[chunk.chosen[bit]];
    OuterRay {
        rays: search.rays,
        support: &outer.support,
        joined: &outer.joined,
        own: outer.place,
        most: search.most,
    }
}
