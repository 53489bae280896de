//! Which of at most 64 outer rays lack one, or two, of the columns of a support.

ghost use Rattle.std.specs.Prelude.{◌≡◌, ℕ, ◌+◌, ◌*◌, ◌/◌, ◌<◌, ◌≤◌, ◌^◌, List, Bool, length, IfOk, OnOk};
ghost use Rattle.support_bits.specs.Words.{AreWordsOf};
ghost use Rattle.support_table.specs.Masks.{IsOutsideAdded};
ghost use Rattle.support_table.specs.Outside.{AreByteOutsides, AreOutsidesOfWord, AreOutsidesPushed, HaveTwo, IsByteOutsideAppended, IsBothOf, IsOutside};

use crate::masks::mask_at;
use out_of_memory::NoMemory;
use std::alloc::Global;
use support_bits::Support;

/// Of some columns: each bit that is set in `one` is that of an outer ray that lacks one of them, and each in `two`
/// that of one that lacks two.
#[derive(Clone, Copy)]
pub struct Outside {
    pub one: u64,
    pub two: u64,
}

/// Sets bit `bit` in the entry of `masks` for each column that is not in `columns`.
pub fn add_outside(masks: &mut Vec<u64>, columns: &Support, bit: usize)
    requires columns { length columns.now ≡ length masks.old.items }
    requires bit { bit < 64 }
    ensures { IsOutsideAdded columns.now bit masks.old.items masks.new.items }
{
    for column in 0..columns.columns() {
        if !columns.contains(column) {
            masks[column as usize] |= 1 << bit;
        }
    }
}

/// That of the columns of `a` and of `b`, which have none in common.
fn both(a: Outside, b: Outside) -> Outside
    ensures { IsBothOf a b result }
{
    Outside {
        one: a.one | b.one,
        two: a.two | b.two | (a.one & b.one),
    }
}

/// Appends to `table` its `count` entries from index `start` on, each with one column more, whose entry is `mask`.
fn push_with(
    mask: u64,
    start: usize,
    count: usize,
    table: &mut Vec<Outside>,
) -> Result<(), NoMemory>
    requires within { start + count ≤ length table.old.items }
    ensures { OnOk result (AreOutsidesPushed mask start count table.old.items table.new.items) }
{
    let column = Outside { one: mask, two: 0 };
    for m in 0..count {
        let entry = table[start + m];
        table.push(both(entry, column))?;
    }
    Ok(())
}

/// Appends to `table` 256 entries: for each value of a byte, whose first bit is that of column `first`, which outer
/// rays lack one, or two, of the columns whose bits are set in it. `masks` has for each column those that lack it.
fn push_byte(masks: &[u64], first: usize, table: &mut Vec<Outside>) -> Result<(), NoMemory>
    requires { first + 8 < 2 ^ 64 }
    ensures { OnOk result (IsByteOutsideAppended masks.now first table.old.items table.new.items) }
{
    let start = table.len();
    table.push(Outside { one: 0, two: 0 })?;
    for j in 0..8usize {
        push_with(mask_at(masks, first + j), start, 1 << j, table)?;
    }
    Ok(())
}

/// For each byte of a support, and for each of its 256 values, which outer rays lack one, or two, of the columns whose
/// bits are set. `masks` has for each column those that lack it.
pub fn byte_outsides(alloc: Global, masks: &[u64]) -> Result<Vec<Outside>, NoMemory>
    requires { length masks.now < 2 ^ 32 }
    ensures { IfOk result (λ table. AreByteOutsides masks.now (8 * ((length masks.now + 63) / 64)) table.items) }
{
    let bytes = 8 * masks.len().div_ceil(64);
    let mut table = Vec::with_capacity(alloc, 256 * bytes)?;
    for i in 0..bytes {
        push_byte(masks, 8 * i, &mut table)?;
    }
    Ok(table)
}

/// Which outer rays lack one, or two, of the columns whose bits are set in `word`, by the entries of `table` from index
/// `start` on.
fn outside_of_word(table: &[Outside], start: usize, word: u64) -> Outside
    requires { start + 2048 ≤ length table.now }
    ensures { (masks : List ℕ) (first : ℕ) → AreOutsidesOfWord masks first start table.now
        → IsOutside masks first word result }
{
    let mut found = Outside { one: 0, two: 0 };
    for i in 0..8usize {
        let byte = (word >> (8 * i)) & 255;
        found = both(found, table[start + 256 * i + byte as usize]);
    }
    found
}

/// Bits of outer rays that lack two columns of a support, whose words are `words`, by the table that `byte_outsides`
/// made.
pub fn two_of(table: &[Outside], words: &[u64]) -> u64
    requires { length table.now ≡ 2048 * length words.now }
    ensures { (masks : List ℕ) (support : List Bool) → AreByteOutsides masks (8 * length words.now) table.now
        → AreWordsOf support words.now → HaveTwo masks support result }
{
    let mut found = Outside { one: 0, two: 0 };
    for (k, word) in words.iter().enumerate() {
        found = both(found, outside_of_word(table, 2048 * k, *word));
    }
    found.two
}
