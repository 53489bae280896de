//! The rays adjacent to each of many rays. Those that contain one column are handled together: all of them clash with
//! the same columns, so rays that contain one of these are left out once for all of them.

ghost use Rattle.std.specs.Prelude.{◌≡◌, ◌+◌, ◌/◌, ◌<◌, None, length, IfOk, OnOk, Contains};
ghost use Rattle.std.specs.List.{All};
ghost use Rattle.support_table.specs.Narrow.{AreUsed};
ghost use Rattle.support_table.specs.Parts.{AreAllBelow, AreCommonColumns, IsPart, AreFoundFor};

use crate::blocks::keep_common;
use crate::chunk::{Chunk, chunk_at};
use crate::chunks::find_chunk;
use crate::columns::{Parting, clashing_columns, common_column};
use crate::masks::CHUNK;
use crate::narrow::{narrowed_outers, narrowed_table, used_columns};
use crate::outer::PartSearch;
use crate::part::Part;
use out_of_memory::NoMemory;
use std::alloc::Global;

/// Outer rays are parted at most so many times, since each time takes some of the stack. Affects speed alone.
const MOST_PARTINGS: u32 = 12;

/// The rays adjacent to one ray, if they were looked for.
#[derive(Drop)]
pub struct Found {
    pub places: Option<Vec<usize>>,
}

/// The words of the columns that each outer ray of `chosen` clashes with.
pub fn common_columns(
    alloc: Global,
    search: PartSearch,
    chosen: &[usize],
) -> Result<Vec<u64>, NoMemory>
    requires { All (λ k. k < length search.outers.now) chosen.now }
    ensures { IfOk result (λ words.
        AreCommonColumns search.entry.outers.now chosen.now search.entry.rays.now.columns words.items) }
{
    let rays = search.rays;
    let width = (rays.columns() as usize).div_ceil(64);
    let mut common = vec![in alloc; u64::MAX; width]?;
    for k in chosen {
        let outer = &search.outers[*k];
        let joined = &outer.joined;
        keep_common(&mut common, 0, joined.words());
    }
    Ok(common)
}

/// Those outer rays of `chosen` that contain `column`, or those that do not, as `having` says.
fn chosen_by(
    alloc: Global,
    search: PartSearch,
    chosen: &[usize],
    column: u32,
    having: bool,
) -> Result<Vec<usize>, NoMemory>
    requires chosen { All (λ k. k < length search.outers.now) chosen.now }
    requires column { column < search.rays.now.columns }
    ensures { IfOk result (λ part. All (Contains chosen.now) part.items) }
{
    let mut part = Vec::with_capacity(alloc, chosen.len())?;
    for k in chosen {
        let outer = &search.outers[*k];
        let support = &outer.support;
        if support.contains(column) == having {
            part.push(*k)?;
        }
    }
    Ok(part)
}

/// Finds the rays adjacent to each outer ray of `chosen` among the rays of `part`, for `CHUNK` outer rays at once.
fn find_each(
    alloc: Global,
    search: PartSearch,
    chosen: &[usize],
    part: &Part,
    found: &mut Vec<Found>,
) -> Result<(), NoMemory>
    requires part { IsPart search.rays.now search.outers.now chosen.now part.now }
    requires found { AreFoundFor search.rays.now.supports search.outers.now search.selected.now search.most
        found.old.items }
    ensures { OnOk result (AreFoundFor search.entry.rays.now.supports search.entry.outers.now search.entry.selected.now
        search.entry.most found.new.items) }
{
    for n in 0..chosen.len().div_ceil(CHUNK) {
        let chunk = Chunk {
            search,
            chosen: chunk_at(chosen, CHUNK * n),
            part,
        };
        find_chunk(alloc, chunk, found)?;
    }
    Ok(())
}

/// Finds the rays adjacent to the outer rays of `chosen`. These are parted at most `depth` times.
fn find_parts(
    alloc: Global,
    parting: Parting,
    mut chosen: Vec<usize>,
    part: &Part,
    depth: u32,
    found: &mut Vec<Found>,
) -> Result<(), NoMemory>
    requires part { IsPart parting.search.rays.now parting.search.outers.now chosen.items part.now }
    requires found { AreFoundFor parting.search.rays.now.supports parting.search.outers.now parting.search.selected.now
        parting.search.most found.old.items }
    ensures { OnOk result (AreFoundFor parting.entry.search.rays.now.supports parting.entry.search.outers.now
        parting.entry.search.selected.now parting.entry.search.most found.new.items) }
{
    let search = parting.search;
    if depth == 0 || part.is_small() {
        return find_each(alloc, search, &chosen, part, found);
    }
    for _ in 0..parting.clashing.columns() {
        let Some(column) = common_column(alloc, parting, &chosen)? else {
            return find_each(alloc, search, &chosen, part, found);
        };
        let having = chosen_by(alloc, search, &chosen, column, true)?;
        let common = common_columns(alloc, search, &having)?;
        let left = part.without(alloc, &common)?;
        find_parts(alloc, parting, having, &left, depth - 1, found)?;
        chosen = chosen_by(alloc, search, &chosen, column, false)?;
    }
    find_each(alloc, search, &chosen, part, found)
}

/// The numbers below `count`.
fn all_below(alloc: Global, count: usize) -> Result<Vec<usize>, NoMemory>
    ensures { IfOk result (λ places. AreAllBelow count places.items) }
{
    let mut places = Vec::with_capacity(alloc, count)?;
    for k in 0..count {
        places.push(k)?;
    }
    Ok(places)
}

/// `count` entries that say that nothing was looked for.
fn none_found(alloc: Global, count: usize) -> Result<Vec<Found>, NoMemory>
    ensures count { IfOk result (λ found. length found.items ≡ count) }
    ensures none { IfOk result (λ found. All (λ it. it.places ≡ None) found.items) }
{
    let mut found = Vec::with_capacity(alloc, count)?;
    while found.len() < count {
        found.push(Found { places: None })?;
    }
    Ok(found)
}

/// As `find_adjacent`, among all columns.
fn find_all(alloc: Global, search: PartSearch) -> Result<Vec<Found>, NoMemory>
    ensures { IfOk result (λ found.
        AreFoundFor search.entry.rays.now.supports search.entry.outers.now search.entry.selected.now search.entry.most
        found.items) }
{
    let rays = search.rays;
    let clashing = clashing_columns(alloc, search)?;
    let chosen = all_below(alloc, search.outers.len())?;
    let part = Part::whole(alloc, rays)?;
    let mut found = none_found(alloc, rays.len())?;
    let parting = Parting {
        search,
        clashing: &clashing,
    };
    find_parts(alloc, parting, chosen, &part, MOST_PARTINGS, &mut found)?;
    Ok(found)
}

/// As `find_adjacent`, among the columns `used` alone.
fn find_narrowed(alloc: Global, search: PartSearch, used: &[u32]) -> Result<Vec<Found>, NoMemory>
    requires { AreUsed search.rays.now search.outers.now used.now }
    ensures { IfOk result (λ found.
        AreFoundFor search.entry.rays.now.supports search.entry.outers.now search.entry.selected.now search.entry.most
        found.items) }
{
    let rays = narrowed_table(alloc, search.rays, used)?;
    let outers = narrowed_outers(alloc, search, used)?;
    let narrowed = PartSearch {
        rays: &rays,
        selected: search.selected,
        outers: &outers,
        most: search.most,
    };
    find_all(alloc, narrowed)
}

/// Whether supports of `used` columns have fewer words than supports of `columns` columns. Affects speed alone.
fn saves_words(used: usize, columns: u32) -> bool {
    used.div_ceil(64) < (columns as usize).div_ceil(64)
}

/// For each ray of `search.rays`, if it is one of `search.outers`, the rays adjacent to it that are `true` in
/// `search.selected`. The contract says only that each list is right, and not which rays have one.
pub fn find_adjacent(alloc: Global, search: PartSearch) -> Result<Vec<Found>, NoMemory>
    ensures { IfOk result (λ found.
        AreFoundFor search.entry.rays.now.supports search.entry.outers.now search.entry.selected.now search.entry.most
        found.items) }
{
    let rays = search.rays;
    let used = used_columns(alloc, search)?;
    if saves_words(used.len(), rays.columns()) {
        return find_narrowed(alloc, search, &used);
    }
    find_all(alloc, search)
}
