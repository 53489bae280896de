//! Words with a bit for each of at most 64 outer rays, for each column, and for each value of each byte of a support.

ghost use Rattle.std.specs.Prelude.{◌≡◌, ℕ, ◌+◌, ◌*◌, ◌/◌, ◌<◌, ◌≤◌, ◌^◌, List, Bool, length, slice_index, IfOk, OnOk};
ghost use Rattle.support_bits.specs.Words.{AreWordsOf};
ghost use Rattle.support_table.specs.Masks.{AreByteMasks, AreMasksOfWord, AreMasksPushed, IsByteAppended, IsMarkOf, IsMaskAdded, IsWordMask};

use out_of_memory::NoMemory;
use std::alloc::Global;
use support_bits::Support;

/// The number of outer rays that have a bit in one word.
pub const CHUNK: usize = 64;

/// Sets bit `bit` in the entry of `masks` for each column of `columns`.
pub fn add_mask(masks: &mut Vec<u64>, columns: &Support, bit: usize)
    requires columns { length columns.now ≡ length masks.old.items }
    requires bit { bit < 64 }
    ensures { IsMaskAdded columns.now bit masks.old.items masks.new.items }
{
    for column in 0..columns.columns() {
        if columns.contains(column) {
            masks[column as usize] |= 1 << bit;
        }
    }
}

/// The entry of `masks` with index `column`, or 0 if it has no more entries.
pub fn mask_at(masks: &[u64], column: usize) -> u64
    ensures { result ≡ slice_index masks.now column }
{
    if column < masks.len() {
        masks[column]
    } else {
        0
    }
}

/// Appends to `table` its `count` entries from index `start` on, each with the bits of `mask`.
fn push_with(mask: u64, start: usize, count: usize, table: &mut Vec<u64>) -> Result<(), NoMemory>
    requires within { start + count ≤ length table.old.items }
    ensures { OnOk result (AreMasksPushed mask start count table.old.items table.new.items) }
{
    for m in 0..count {
        let entry = table[start + m];
        table.push(entry | mask)?;
    }
    Ok(())
}

/// Appends to `table` 256 words: for each value of a byte, whose first bit is that of column `first`, the union of the
/// entries of `masks` for the columns whose bits are set in it.
fn push_byte(masks: &[u64], first: usize, table: &mut Vec<u64>) -> Result<(), NoMemory>
    requires { first + 8 < 2 ^ 64 }
    ensures { OnOk result (IsByteAppended masks.now first table.old.items table.new.items) }
{
    let start = table.len();
    table.push(0)?;
    for j in 0..8usize {
        push_with(mask_at(masks, first + j), start, 1 << j, table)?;
    }
    Ok(())
}

/// For each byte of a support, and for each of its 256 values, the union of the entries of `masks` for the columns
/// whose bits are set.
pub fn byte_masks(alloc: Global, masks: &[u64]) -> Result<Vec<u64>, NoMemory>
    requires { length masks.now < 2 ^ 32 }
    ensures { IfOk result (λ table. AreByteMasks masks.now (8 * ((length masks.now + 63) / 64)) table.items) }
{
    let bytes = 8 * masks.len().div_ceil(64);
    let mut table = Vec::with_capacity(alloc, 256 * bytes)?;
    for i in 0..bytes {
        push_byte(masks, 8 * i, &mut table)?;
    }
    Ok(table)
}

/// The union of the masks of the columns whose bits are set in `word`, by the entries of `table` from index `start` on.
fn mask_of_word(table: &[u64], start: usize, word: u64) -> u64
    requires { start + 2048 ≤ length table.now }
    ensures { (masks : List ℕ) (first : ℕ) → AreMasksOfWord masks first start table.now
        → IsWordMask masks first word result }
{
    let mut mask = 0u64;
    for i in 0..8usize {
        let byte = (word >> (8 * i)) & 255;
        mask |= table[start + 256 * i + byte as usize];
    }
    mask
}

/// The union of the masks of the columns of a support, whose words are `words`, by the table that `byte_masks` made.
pub fn mask_of(table: &[u64], words: &[u64]) -> u64
    requires { length table.now ≡ 2048 * length words.now }
    ensures { (masks : List ℕ) (support : List Bool) → AreByteMasks masks (8 * length words.now) table.now
        → AreWordsOf support words.now → IsMarkOf masks support result }
{
    let mut mask = 0u64;
    for (k, word) in words.iter().enumerate() {
        mask |= mask_of_word(table, 2048 * k, *word);
    }
    mask
}
