//! The columns in use of a search, and its rays with these columns alone.

ghost use Rattle.std.specs.Prelude.{◌≡◌, ◌+◌, ◌/◌, ◌<◌, ◌^◌, length, map, IfOk};
ghost use Rattle.std.specs.List.{All};
ghost use Rattle.support_bits.specs.Words.{bit_of};
ghost use Rattle.support_table.specs.Narrow.{columns_of, narrowed_outer, narrowed_table, AreColumnsBelow, AreColumnsMarked, AreUsed, IsMarkedIn};

use crate::outer::{Outer, PartSearch};
use crate::table::SupportTable;
use out_of_memory::NoMemory;
use std::alloc::Global;
use support_bits::{Support, add_bits, is_set};

/// The words of the columns that a ray of `rays` contains.
fn words_of_rays(alloc: Global, rays: &SupportTable) -> Result<Vec<u64>, NoMemory>
    ensures { IfOk result (λ words. AreColumnsMarked rays.now.columns rays.now.supports words.items) }
{
    let mut words = vec![in alloc; 0u64; (rays.columns() as usize).div_ceil(64)]?;
    for place in 0..rays.len() {
        add_bits(&mut words, rays.words_at(place));
    }
    Ok(words)
}

/// Sets in `words` the bit of each column that an outer ray of `search` contains.
fn add_outers(search: PartSearch, words: &mut Vec<u64>)
    requires { AreColumnsMarked search.rays.now.columns search.rays.now.supports words.old.items }
    ensures rays { AreColumnsMarked search.entry.rays.now.columns search.entry.rays.now.supports words.new.items }
    ensures outers { All (λ it. IsMarkedIn search.entry.rays.now.columns words.new.items it.support)
        search.entry.outers.now }
{
    for outer in search.outers {
        let support = &outer.support;
        add_bits(words, support.words());
    }
}

/// The columns below `columns` whose bits are set in `words`, ascending.
fn columns_of(alloc: Global, words: &[u64], columns: u32) -> Result<Vec<u32>, NoMemory>
    requires { length words.now ≡ (columns + 63) / 64 }
    ensures { IfOk result (λ used. used.items ≡ columns_of columns words.now) }
{
    let mut used = Vec::new(alloc);
    for column in 0..columns {
        if is_set(words, column as usize) {
            used.push(column)?;
        }
    }
    Ok(used)
}

/// The columns that a ray or an outer ray of `search` contains, ascending.
pub fn used_columns(alloc: Global, search: PartSearch) -> Result<Vec<u32>, NoMemory>
    ensures { IfOk result (λ used. AreUsed search.entry.rays.now search.entry.outers.now used.items) }
{
    let rays = search.rays;
    let mut words = words_of_rays(alloc, rays)?;
    add_outers(search, &mut words);
    columns_of(alloc, &words, rays.columns())
}

/// The columns of `used` whose bits are set in `words`, by their indices in `used`.
fn narrowed(alloc: Global, words: &[u64], used: &[u32]) -> Result<Support, NoMemory>
    requires in_range { All (λ column. column / 64 < length words.now) used.now }
    requires short { length used.now < 2 ^ 32 }
    ensures { IfOk result (λ support. support ≡ map (bit_of words.now) used.now) }
{
    let mut support = Support::none(alloc, used.len() as u32)?;
    for (k, column) in used.iter().enumerate() {
        if is_set(words, *column as usize) {
            support.insert(k as u32);
        }
    }
    Ok(support)
}

/// The rays of `rays` with the columns of `used` alone.
pub fn narrowed_table(
    alloc: Global,
    rays: &SupportTable,
    used: &[u32],
) -> Result<SupportTable, NoMemory>
    requires { AreColumnsBelow rays.now.columns used.now }
    ensures { IfOk result (λ table. table ≡ narrowed_table used.now rays.now) }
{
    let _columns = rays.columns();
    let mut table = SupportTable::new(alloc, used.len() as u32);
    for place in 0..rays.len() {
        let support = narrowed(alloc, rays.words_at(place), used)?;
        table.push(&support)?;
    }
    Ok(table)
}

/// `outer`, whose supports have `columns` columns, with the columns of `used` alone.
fn narrowed_outer(
    alloc: Global,
    outer: &Outer,
    columns: u32,
    used: &[u32],
) -> Result<Outer, NoMemory>
    requires support { length outer.now.support ≡ columns }
    requires joined { length outer.now.joined ≡ columns }
    requires used { AreColumnsBelow columns used.now }
    ensures { IfOk result (λ it. it ≡ narrowed_outer used.now outer.now) }
{
    let support = &outer.support;
    let joined = &outer.joined;
    Ok(Outer {
        place: outer.place,
        support: narrowed(alloc, support.words(), used)?,
        joined: narrowed(alloc, joined.words(), used)?,
    })
}

/// The outer rays of `search` with the columns of `used` alone.
pub fn narrowed_outers(
    alloc: Global,
    search: PartSearch,
    used: &[u32],
) -> Result<Vec<Outer>, NoMemory>
    requires { AreColumnsBelow search.rays.now.columns used.now }
    ensures { IfOk result (λ outers. outers.items ≡ map (narrowed_outer used.now) search.entry.outers.now) }
{
    let rays = search.rays;
    let columns = rays.columns();
    let mut outers = Vec::with_capacity(alloc, search.outers.len())?;
    for outer in search.outers {
        outers.push(narrowed_outer(alloc, outer, columns, used)?)?;
    }
    Ok(outers)
}
