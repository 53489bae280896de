//! The common divisor of entries, and the entries divided by it.

ghost use Rattle.std.specs.Prelude.{◌≡◌, ◌<◌, ◌/◌, map};
ghost use Rattle.cone_arithmetic.specs.Combinations.{IsEntriesGcd};
ghost use Rattle.cone_arithmetic.specs.NarrowEntries.{narrow_numbers};

use crate::narrow::Narrow;
use crate::numbers::gcd;
use crate::small::{gcd_of_small, quotient};

/// The greatest common divisor of `entries`. Once it is 1, no further entry is read.
fn common_divisor(entries: &[u128]) -> u128
    ensures { IsEntriesGcd entries.now result }
{
    let mut divisor = 0;
    for entry in entries {
        if divisor == 1 {
            return 1;
        }
        divisor = gcd(divisor, *entry);
    }
    divisor
}

/// As `common_divisor`, for entries of at most 64 bits.
fn common_small_divisor(entries: Narrow) -> u64
    ensures { IsEntriesGcd (narrow_numbers entries.entry) result }
{
    let mut divisor = 0;
    for column in 0..entries.len() {
        if divisor == 1 {
            return 1;
        }
        divisor = gcd_of_small(divisor, entries.at(column));
    }
    divisor
}

/// Divides each of `entries` by their greatest common divisor, which is returned. If that is 0 all entries are 0, and
/// none is changed.
pub(crate) fn divide_by_common(entries: &mut [u128]) -> u128
    ensures divisor { IsEntriesGcd entries.old result }
    ensures divided { 0 < result → entries.new ≡ map (λ entry. entry / result) entries.old }
{
    let divisor = common_divisor(entries);
    if divisor > 1 {
        for entry in entries.iter_mut() {
            *entry = quotient(*entry, divisor);
        }
    }
    divisor
}

/// As `divide_by_common`, for entries of 64 bits.
pub(crate) fn divide_by_small_common(entries: &mut [u64]) -> u64
    ensures divisor { IsEntriesGcd entries.old result }
    ensures divided { 0 < result → entries.new ≡ map (λ entry. entry / result) entries.old }
{
    let divisor = common_small_divisor(Narrow::Words(entries));
    if divisor > 1 {
        for entry in entries.iter_mut() {
            *entry = *entry / divisor;
        }
    }
    divisor
}

/// As `divide_by_common`, for entries of 8 bits.
pub(crate) fn divide_by_byte_common(entries: &mut [u8]) -> u64
    ensures divisor { IsEntriesGcd entries.old result }
    ensures divided { 0 < result → entries.new ≡ map (λ entry. entry / result) entries.old }
{
    let divisor = common_small_divisor(Narrow::Bytes(entries));
    if divisor > 1 {
        for entry in entries.iter_mut() {
            *entry = (u64::from(*entry) / divisor) as u8;
        }
    }
    divisor
}
