//! The columns by which outer rays are parted.

ghost use Rattle.std.specs.Prelude.{◌≡◌, ◌<◌, length, Contains, IfOk, IfSome};
ghost use Rattle.std.specs.List.{All};

use crate::outer::PartSearch;
use out_of_memory::NoMemory;
use std::alloc::Global;
use support_bits::Support;

/// At most so many outer rays are not parted further. Affects speed alone.
const UNSPLIT_OUTERS: usize = 256;

/// A column is chosen by some of the outer rays, about so many. Affects speed alone.
const SAMPLE: usize = 32;

/// A search whose outer rays are parted by columns of `clashing`. Invariant: `clashing` has the columns of the rays.
#[derive(Clone, Copy)]
pub struct Parting<'a> {
    pub search: PartSearch<'a>,
    pub clashing: &'a Support,
    pub ghost columns: { length clashing.now ≡ search.rays.now.columns },
}

/// The columns that clash with a column of an outer ray of `search`. Which they are affects speed alone, so the
/// contract does not say it.
pub fn clashing_columns(alloc: Global, search: PartSearch) -> Result<Support, NoMemory>
    ensures { IfOk result (λ clashing. length clashing ≡ search.entry.rays.now.columns) }
{
    let rays = search.rays;
    let mut clashing = Support::none(alloc, rays.columns())?;
    for outer in search.outers {
        clashing.add(&outer.joined);
    }
    Ok(clashing)
}

/// Every n-th of `chosen`, about `SAMPLE` of them.
fn sample_of(alloc: Global, chosen: &[usize]) -> Result<Vec<usize>, NoMemory>
    ensures { IfOk result (λ sample. All (Contains chosen.now) sample.items) }
{
    let step = chosen.len() / SAMPLE + 1;
    let mut sample = Vec::new(alloc);
    for (i, k) in chosen.iter().enumerate() {
        if i % step == 0 {
            sample.push(*k)?;
        }
    }
    Ok(sample)
}

/// How many of the outer rays `sample` contain `column`. Affects speed alone, so the contract says nothing.
fn count_having(search: PartSearch, sample: &[usize], column: u32) -> usize
    requires sample { All (λ k. k < length search.outers.now) sample.now }
    requires column { column < search.rays.now.columns }
{
    let mut count = 0usize;
    for k in sample {
        let outer = &search.outers[*k];
        let support = &outer.support;
        if support.contains(column) {
            count = count.saturating_add(1);
        }
    }
    count
}

/// The clashing column that most of the outer rays `sample` contain, but not all of them.
fn most_common(parting: Parting, sample: &[usize]) -> Option<u32>
    requires sample { All (λ k. k < length parting.search.outers.now) sample.now }
    ensures { IfSome result (λ column. column < parting.entry.search.rays.now.columns) }
{
    let Parting { search, clashing } = parting;
    let mut best = None;
    let mut most = 0usize;
    for column in 0..clashing.columns() {
        if clashing.contains(column) {
            let count = count_having(search, sample, column);
            if count > most && count < sample.len() {
                best = Some(column);
                most = count;
            }
        }
    }
    best
}

/// A column by which to part the outer rays `chosen`: one that clashes, and that many of them contain, but not all.
/// `None` if there are at most `UNSPLIT_OUTERS` of them, or if there is no such column.
pub fn common_column(
    alloc: Global,
    parting: Parting,
    chosen: &[usize],
) -> Result<Option<u32>, NoMemory>
    requires chosen { All (λ k. k < length parting.search.outers.now) chosen.now }
    ensures { IfOk result (λ best. IfSome best (λ column. column < parting.entry.search.rays.now.columns)) }
{
    if chosen.len() <= UNSPLIT_OUTERS {
        return Ok(None);
    }
    let sample = sample_of(alloc, chosen)?;
    Ok(most_common(parting, &sample))
}
