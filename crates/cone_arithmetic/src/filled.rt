//! Combinations of two vectors, computed at the columns of a support.

ghost use Rattle.std.specs.Prelude.{◌≡◌, ◌+◌, ◌*◌, ◌<◌, ◌≤◌, ℕ, length, slice_index, IsTrue, IfOk, IfSome};
ghost use Rattle.cone_definitions.specs.Vectors.{multiple, sum_of};
ghost use Rattle.cone_arithmetic.specs.Filled.{AreFilled};
ghost use Rattle.cone_arithmetic.specs.NarrowEntries.{narrow_numbers};

use crate::combination::{ByteCombination, SmallCombination};
use crate::small::{MAX_BYTE, byte_sum, small_sum};
use out_of_memory::NoMemory;
use std::alloc::Global;

/// Writes the entries of `combination` at the columns that its word with index `k` names. False if one exceeds `limit`
/// or does not fit in 64 bits.
fn fill_word(sums: &mut Vec<u64>, k: usize, combination: SmallCombination, limit: u128) -> bool
    requires in_range { k < length combination.words.now }
    requires filled { AreFilled limit (sum_of (multiple combination.a (narrow_numbers combination.w))
        (multiple combination.b (narrow_numbers combination.u))) (64 * k) sums.old.items }
    ensures { IsTrue result → AreFilled limit
        (sum_of (multiple combination.entry.a (narrow_numbers combination.entry.w))
        (multiple combination.entry.b (narrow_numbers combination.entry.u))) (64 * k + 64) sums.new.items }
{
    let SmallCombination { a, w, b, u, words } = combination;
    let mut rest = words[k];
    let mut column = 64 * k;
    while rest != 0 {
        let skip = rest.trailing_zeros();
        let place = column + skip as usize;
        let Some(sum) = small_sum(a, w.at(place), b, u.at(place), limit) else {
            return false;
        };
        sums[place] = sum;
        rest = (rest >> skip) >> 1;
        column = place + 1;
    }
    true
}

/// The entries of `combination`, computed at the columns that its words name; `None` if one exceeds `limit` or does not
/// fit in 64 bits.
pub(crate) fn sums_at(
    alloc: Global,
    combination: SmallCombination,
    limit: u128,
) -> Result<Option<Vec<u64>>, NoMemory>
    ensures sums { IfOk result (λ answer.
        IfSome answer (λ sums. sums.items
        ≡ sum_of (multiple combination.entry.a (narrow_numbers combination.entry.w))
        (multiple combination.entry.b (narrow_numbers combination.entry.u)))) }
    ensures within { IfOk result (λ answer.
        IfSome answer (λ _. (column : ℕ)
        → slice_index (sum_of (multiple combination.entry.a (narrow_numbers combination.entry.w))
        (multiple combination.entry.b (narrow_numbers combination.entry.u))) column ≤ limit)) }
{
    let mut sums = vec![in alloc; 0u64; combination.w.len()]?;
    for k in 0..combination.words.len() {
        if !fill_word(&mut sums, k, combination, limit) {
            return Ok(None);
        }
    }
    Ok(Some(sums))
}

/// As `fill_word`, in 8 bits. False if an entry exceeds `most`.
fn fill_bytes(sums: &mut Vec<u8>, k: usize, combination: ByteCombination, most: u8) -> bool
    requires in_range { k < length combination.words.now }
    requires filled { AreFilled most
        (sum_of (multiple combination.a combination.w.now) (multiple combination.b combination.u.now)) (64 * k)
        sums.old.items }
    ensures { IsTrue result → AreFilled most
        (sum_of (multiple combination.entry.a combination.entry.w.now)
        (multiple combination.entry.b combination.entry.u.now)) (64 * k + 64) sums.new.items }
{
    let ByteCombination { a, w, b, u, words } = combination;
    let mut rest = words[k];
    let mut column = 64 * k;
    while rest != 0 {
        let skip = rest.trailing_zeros();
        let place = column + skip as usize;
        let Some(sum) = byte_sum(a, w[place], b, u[place], most) else {
            return false;
        };
        sums[place] = sum;
        rest = (rest >> skip) >> 1;
        column = place + 1;
    }
    true
}

/// As `sums_at`, in 8 bits; `None` if an entry exceeds `limit` or does not fit in 8 bits.
pub(crate) fn byte_sums_at(
    alloc: Global,
    combination: ByteCombination,
    limit: u128,
) -> Result<Option<Vec<u8>>, NoMemory>
    ensures sums { IfOk result (λ answer.
        IfSome answer (λ sums. sums.items
        ≡ sum_of (multiple combination.entry.a combination.entry.w.now)
        (multiple combination.entry.b combination.entry.u.now))) }
    ensures within { IfOk result (λ answer.
        IfSome answer (λ _. (column : ℕ)
        → slice_index (sum_of (multiple combination.entry.a combination.entry.w.now)
        (multiple combination.entry.b combination.entry.u.now)) column ≤ limit)) }
{
    let most = limit.min(MAX_BYTE) as u8;
    let mut sums = vec![in alloc; 0u8; combination.w.len()]?;
    for k in 0..combination.words.len() {
        if !fill_bytes(&mut sums, k, combination, most) {
            return Ok(None);
        }
    }
    Ok(Some(sums))
}
