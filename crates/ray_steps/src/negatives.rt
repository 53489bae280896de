//! The negative rays of a step, and the search among them for one that a given positive ray may be adjacent to.

ghost use Rattle.std.specs.Prelude.{◌≡◌, ◌<◌, ◌≤◌, ◌↔◌, [], length, IsTrue, IfOk, slice_index_or};
ghost use Rattle.ray_steps.specs.Rays.{rays_of};
ghost use Rattle.ray_steps.specs.Signs.{AreNegativePlaces};
ghost use Rattle.ray_steps.specs.Negatives.{AreNegatives, AreNegativeFlags, IsRuledOut, IsFirstNotRuledOut};

use crate::compatible_list::supports_at;
use crate::ray_list::RayList;
use crate::signs::{Sign, is_negative};
use out_of_memory::NoMemory;
use std::alloc::Global;
use support_bits::{Support, have_common};
use support_table::{SupportTable, union_count};

/// The indices of the negative rays, ascending, and their supports.
#[derive(Drop)]
pub struct Negatives {
    pub places: Vec<usize>,
    pub table: SupportTable,
}

/// The indices of the negative signs, ascending.
fn negative_places(alloc: Global, signs: &[Sign]) -> Result<Vec<usize>, NoMemory>
    ensures { IfOk result (λ places. AreNegativePlaces signs.now (length signs.now) places.items) }
{
    let mut places = Vec::new(alloc);
    for (place, sign) in signs.iter().enumerate() {
        if is_negative(*sign) {
            places.push(place)?;
        }
    }
    Ok(places)
}

/// For each sign of `signs` whether it is negative.
pub fn are_negative(alloc: Global, signs: &[Sign]) -> Result<Vec<bool>, NoMemory>
    ensures { IfOk result (λ flags. AreNegativeFlags signs.now (length signs.now) flags.items) }
{
    let mut flags = Vec::with_capacity(alloc, signs.len())?;
    for sign in signs {
        flags.push(is_negative(*sign))?;
    }
    Ok(flags)
}

/// Collects the rays of `rays` that are negative by `signs`, and their supports.
pub fn negatives_of(alloc: Global, rays: RayList, signs: &[Sign]) -> Result<Negatives, NoMemory>
    requires { length signs.now ≡ length rays.items.now }
    ensures { IfOk result (AreNegatives (rays_of rays.entry.items.now) signs.now rays.entry.columns) }
{
    let places = negative_places(alloc, signs)?;
    let table = supports_at(alloc, rays, &places)?;
    Ok(Negatives { places, table })
}

/// The supports of the negative rays, and a positive ray with the support `support`, which clashes with the columns
/// `joined`. The union of the supports of an adjacent pair has at most `most` columns. Invariant: `support` and
/// `joined` have the columns of `table`.
#[derive(Clone, Copy)]
pub struct NegativeSearch<'a> {
    pub table: &'a SupportTable,
    pub support: &'a Support,
    pub joined: &'a Support,
    pub most: u64,
    pub ghost first: { length support.now ≡ table.now.columns },
    pub ghost second: { length joined.now ≡ table.now.columns },
}

/// Whether the support with index `place` rules out adjacency to the positive ray: it contains a column of
/// `search.joined`, or its union with `search.support` has more than `search.most` columns.
fn is_excluded(search: NegativeSearch, place: usize) -> bool
    requires { place < length search.table.now.supports }
    ensures { IsTrue result ↔ IsRuledOut search.entry.support.now search.entry.joined.now search.entry.most
        (slice_index_or search.entry.table.now.supports place []) }
{
    let NegativeSearch {
        table,
        support,
        joined,
        most,
    } = search;
    let _columns = support.columns();
    let words = table.words_at(place);
    have_common(words, joined.words()) || union_count(support.words(), words) > most
}

/// The least index from `start` on whose support is not excluded (see `is_excluded`), or the number of supports if all
/// are.
pub fn first_not_excluded(search: NegativeSearch, start: usize) -> usize
    requires { start ≤ length search.table.now.supports }
    ensures { IsFirstNotRuledOut search.entry.support.now search.entry.joined.now search.entry.most
        search.entry.table.now.supports start result }
{
    let table = search.table;
    let mut place = start;
    while place < table.len() {
        if !is_excluded(search, place) {
            return place;
        }
        place += 1;
    }
    place
}
