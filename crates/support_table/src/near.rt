//! The rays of a part that do not clash with all outer rays of a chunk.

ghost use Rattle.std.specs.Prelude.{◌≡◌, ℕ, ◌+◌, ◌*◌, ◌/◌, ◌<◌, ◌≤◌, ◌^◌, ◌↔◌, List, Bool, length, IfOk, IfSome, IsNone};
ghost use Rattle.std.specs.Int.{bit_at};
ghost use Rattle.support_table.specs.Near.{AreClashMasks, AreFullColumns, AreLackMasks, AreNearBy, AreNearRays, IsNearBy};
ghost use Rattle.support_table.specs.Masks.{AreByteMasks};
ghost use Rattle.support_table.specs.Outside.{AreByteOutsides};

use crate::chunk::Chunk;
use crate::masks::{add_mask, byte_masks, mask_of};
use crate::outside::{Outside, add_outside, byte_outsides, two_of};
use crate::parts::common_columns;
use crate::table::SupportTable;
use out_of_memory::NoMemory;
use std::alloc::Global;
use support_bits::have_common;

/// A ray of a part, by its index there: bit b of `clash` is set if and only if it clashes with outer ray b of a chunk,
/// and each bit that is set in `two` is that of an outer ray that lacks two of its columns.
#[derive(Clone, Copy)]
pub struct Near {
    pub place: usize,
    pub clash: u64,
    pub two: u64,
}

/// For each column the outer rays of `chunk` that clash with it.
fn clash_masks(alloc: Global, chunk: Chunk) -> Result<Vec<u64>, NoMemory>
    ensures { IfOk result (λ masks. AreClashMasks chunk.entry.search.outers.now chunk.entry.chosen.now
        chunk.entry.search.rays.now.columns (length chunk.entry.chosen.now) masks.items) }
{
    let search = chunk.search;
    let rays = search.rays;
    let mut masks = vec![in alloc; 0u64; rays.columns() as usize]?;
    for (b, k) in chunk.chosen.iter().enumerate() {
        let outer = &search.outers[*k];
        let joined = &outer.joined;
        add_mask(&mut masks, joined, b);
    }
    Ok(masks)
}

/// For each column the outer rays of `chunk` that lack it.
fn lack_masks(alloc: Global, chunk: Chunk) -> Result<Vec<u64>, NoMemory>
    ensures { IfOk result (λ masks. AreLackMasks chunk.entry.search.outers.now chunk.entry.chosen.now
        chunk.entry.search.rays.now.columns (length chunk.entry.chosen.now) masks.items) }
{
    let search = chunk.search;
    let rays = search.rays;
    let mut masks = vec![in alloc; 0u64; rays.columns() as usize]?;
    for (b, k) in chunk.chosen.iter().enumerate() {
        let outer = &search.outers[*k];
        let support = &outer.support;
        add_outside(&mut masks, support, b);
    }
    Ok(masks)
}

/// The lowest `count` bits.
fn low_bits(count: usize) -> u64
    ensures { (b : ℕ) → b < 64 → bit_at result b ≡ 1 ↔ (b < count) }
{
    if count >= 64 {
        u64::MAX
    } else {
        (1 << count) - 1
    }
}

/// The tables that `byte_masks` and `byte_outsides` made of the masks of `count` outer rays, for supports of `table`,
/// and the words of columns with which all of these outer rays clash.
#[derive(Clone, Copy)]
struct ByteTables<'a> {
    table: &'a SupportTable,
    common: &'a [u64],
    clashing: &'a [u64],
    lacking: &'a [Outside],
    count: usize,
    ghost common_words: { length common.now ≡ (table.now.columns + 63) / 64 },
    ghost clash_words: { length clashing.now ≡ 2048 * ((table.now.columns + 63) / 64) },
    ghost lack_words: { length lacking.now ≡ 2048 * ((table.now.columns + 63) / 64) },
}

/// The ray with index `place` of `tables.table`, or `None` if it clashes with all outer rays. A ray that contains a
/// column of `tables.common` clashes with all of them, and none of its bytes is looked up.
fn near_at(tables: ByteTables, place: usize) -> Option<Near>
    requires { place < length tables.table.now.supports }
    ensures { (clashing lacking : List ℕ)
        → AreByteMasks clashing (8 * ((tables.entry.table.now.columns + 63) / 64)) tables.entry.clashing.now
        → AreByteOutsides lacking (8 * ((tables.entry.table.now.columns + 63) / 64)) tables.entry.lacking.now
        → AreFullColumns clashing tables.entry.count tables.entry.common.now
        → IsNearBy clashing lacking tables.entry.table.now.supports tables.entry.count place result }
{
    let table = tables.table;
    let words = table.words_at(place);
    if have_common(words, tables.common) {
        return None;
    }
    let clash = mask_of(tables.clashing, words);
    let low = low_bits(tables.count);
    if clash & low == low {
        return None;
    }
    Some(Near {
        place,
        clash,
        two: two_of(tables.lacking, words),
    })
}

/// The rays of `tables.table` that do not clash with all outer rays, in order.
fn near_by(alloc: Global, tables: ByteTables) -> Result<Vec<Near>, NoMemory>
    ensures { IfOk result (λ near. (clashing lacking : List ℕ)
        → AreByteMasks clashing (8 * ((tables.entry.table.now.columns + 63) / 64)) tables.entry.clashing.now
        → AreByteOutsides lacking (8 * ((tables.entry.table.now.columns + 63) / 64)) tables.entry.lacking.now
        → AreFullColumns clashing tables.entry.count tables.entry.common.now
        → AreNearBy clashing lacking tables.entry.table.now.supports tables.entry.count
        (length tables.entry.table.now.supports) near.items) }
{
    let table = tables.table;
    let mut near = Vec::with_capacity(alloc, table.len())?;
    for place in 0..table.len() {
        if let Some(ray) = near_at(tables, place) {
            near.push(ray)?;
        }
    }
    Ok(near)
}

/// The rays of `chunk.part` that do not clash with all outer rays of `chunk`, in order.
pub fn near_rays(alloc: Global, chunk: Chunk) -> Result<Vec<Near>, NoMemory>
    ensures { IfOk result (λ near. AreNearRays chunk.entry.search.outers.now chunk.entry.chosen.now
        chunk.entry.part.now.table.supports near.items) }
{
    let part = chunk.part;
    let _columns = part.table.columns();
    let clash = clash_masks(alloc, chunk)?;
    let clashing = byte_masks(alloc, &clash)?;
    let lack = lack_masks(alloc, chunk)?;
    let lacking = byte_outsides(alloc, &lack)?;
    let common = common_columns(alloc, chunk.search, chunk.chosen)?;
    let tables = ByteTables {
        table: &part.table,
        common: &common,
        clashing: &clashing,
        lacking: &lacking,
        count: chunk.chosen.len(),
    };
    near_by(alloc, tables)
}
