//! The entries of packed rays, in 8, in 64 or in 128 bits each.

ghost use Rattle.std.specs.Prelude.{◌≡◌, ◌<◌, length, slice_index, slice_set, IfOk, IfSome};
ghost use Rattle.cone_arithmetic.specs.Combinations.{IsDividedByGcd};
ghost use Rattle.cone_arithmetic.specs.NarrowEntries.{narrow_numbers};
ghost use Rattle.cone_arithmetic.specs.RayEntries.{numbers_of};

use crate::divisors::{divide_by_byte_common, divide_by_common, divide_by_small_common};
use crate::narrow::Narrow;
use crate::small::{MAX_BYTE, MAX_SMALL};
use out_of_memory::NoMemory;
use std::alloc::Global;

/// Entries in 8 bits each (`Bytes`), in 64 bits each (`Small`) or in 128 bits each (`Large`).
#[derive(Drop)]
pub(crate) enum Entries {
    Bytes(Vec<u8>),
    Small(Vec<u64>),
    Large(Vec<u128>),
}

/// The number of entries.
pub(crate) fn count(entries: &Entries) -> usize
    ensures { result ≡ length (numbers_of entries.now) }
{
    match entries {
        Entries::Bytes(bytes) => bytes.len(),
        Entries::Small(small) => small.len(),
        Entries::Large(large) => large.len(),
    }
}

/// The entry in `column`.
pub(crate) fn entry(entries: &Entries, column: usize) -> u128
    requires { column < length (numbers_of entries.now) }
    ensures { result ≡ slice_index (numbers_of entries.now) column }
{
    match entries {
        Entries::Bytes(bytes) => u128::from(bytes[column]),
        Entries::Small(small) => u128::from(small[column]),
        Entries::Large(large) => large[column],
    }
}

/// As `wide_entries`, entry by entry.
fn widen(alloc: Global, entries: &Entries) -> Result<Vec<u128>, NoMemory>
    ensures { IfOk result (λ wide. wide.items ≡ numbers_of entries.now) }
{
    let mut wide = vec![in alloc; 0u128; count(entries)]?;
    for column in 0..count(entries) {
        wide[column] = entry(entries, column);
    }
    Ok(wide)
}

/// The numbers `bytes`, in 64 bits each.
fn small_of(alloc: Global, bytes: &[u8]) -> Result<Vec<u64>, NoMemory>
    ensures { IfOk result (λ small. small.items ≡ bytes.now) }
{
    let mut small = vec![in alloc; 0u64; bytes.len()]?;
    for (column, entry) in bytes.iter().enumerate() {
        small[column] = u64::from(*entry);
    }
    Ok(small)
}

/// The numbers `small`, in 8 bits each; `None` if one does not fit.
fn bytes_of(alloc: Global, small: &[u64]) -> Result<Option<Vec<u8>>, NoMemory>
    ensures { IfOk result (λ answer. IfSome answer (λ bytes. bytes.items ≡ small.now)) }
{
    let mut bytes = vec![in alloc; 0u8; small.len()]?;
    for (column, entry) in small.iter().enumerate() {
        if *entry > u64::from(u8::MAX) {
            return Ok(None);
        }
        bytes[column] = *entry as u8;
    }
    Ok(Some(bytes))
}

/// The entries as they are, if they have 8 bits each.
pub(crate) fn byte_entries(entries: &Entries) -> Option<&[u8]>
    ensures { IfSome result (λ bytes. bytes.now ≡ numbers_of entries.now) }
{
    match entries {
        Entries::Bytes(bytes) => Some(bytes.as_slice()),
        _ => None,
    }
}

/// The entries as they are, if they have at most 64 bits each.
pub(crate) fn narrow_entries(entries: &Entries) -> Option<Narrow<'_>>
    ensures { IfSome result (λ narrow. narrow_numbers narrow ≡ numbers_of entries.now) }
{
    match entries {
        Entries::Bytes(bytes) => Some(Narrow::Bytes(bytes.as_slice())),
        Entries::Small(small) => Some(Narrow::Words(small.as_slice())),
        Entries::Large(_) => None,
    }
}

/// A copy of the entries, in 128 bits each.
pub(crate) fn wide_entries(alloc: Global, entries: &Entries) -> Result<Vec<u128>, NoMemory>
    ensures { IfOk result (λ wide. wide.items ≡ numbers_of entries.now) }
{
    let Entries::Large(large) = entries else {
        return widen(alloc, entries);
    };
    let mut wide = Vec::with_capacity(alloc, large.len())?;
    wide.extend_from_slice(large)?;
    Ok(wide)
}

/// As `wide_entries`, but takes ownership of `entries`.
pub(crate) fn into_wide(alloc: Global, entries: Entries) -> Result<Vec<u128>, NoMemory>
    ensures { IfOk result (λ wide. wide.items ≡ numbers_of entries) }
{
    match entries {
        Entries::Large(large) => Ok(large),
        narrow => widen(alloc, &narrow),
    }
}

/// The entries `small` with `value` in `column`.
fn with_small_entry(
    alloc: Global,
    mut small: Vec<u64>,
    column: usize,
    value: u128,
) -> Result<Entries, NoMemory>
    requires { column < length small.items }
    ensures { IfOk result (λ after. numbers_of after ≡ slice_set small.items column value) }
{
    if value <= MAX_SMALL {
        small[column] = value as u64;
        return Ok(Entries::Small(small));
    }
    let mut wide = widen(alloc, &Entries::Small(small))?;
    wide[column] = value;
    Ok(Entries::Large(wide))
}

/// `entries` with `value` in `column`.
pub(crate) fn with_entry(
    alloc: Global,
    entries: Entries,
    column: usize,
    value: u128,
) -> Result<Entries, NoMemory>
    requires { column < length (numbers_of entries) }
    ensures { IfOk result (λ after. numbers_of after ≡ slice_set (numbers_of entries) column value) }
{
    match entries {
        Entries::Bytes(mut bytes) => {
            if value <= MAX_BYTE {
                bytes[column] = value as u8;
                return Ok(Entries::Bytes(bytes));
            }
            let small = small_of(alloc, &bytes)?;
            with_small_entry(alloc, small, column, value)
        }
        Entries::Small(small) => with_small_entry(alloc, small, column, value),
        Entries::Large(mut large) => {
            large[column] = value;
            Ok(Entries::Large(large))
        }
    }
}

/// The entries `small`, in 8 bits each if all fit.
fn narrowed(alloc: Global, small: Vec<u64>) -> Result<Entries, NoMemory>
    ensures { IfOk result (λ after. numbers_of after ≡ small.items) }
{
    match bytes_of(alloc, &small)? {
        Some(bytes) => Ok(Entries::Bytes(bytes)),
        None => Ok(Entries::Small(small)),
    }
}

/// `entries` divided by their greatest common divisor. Quotients of 64 bits are stored in 8 bits if all fit.
pub(crate) fn divided(alloc: Global, entries: Entries) -> Result<Entries, NoMemory>
    ensures { IfOk result (λ after. IsDividedByGcd (numbers_of entries) (numbers_of after)) }
{
    match entries {
        Entries::Bytes(mut bytes) => {
            divide_by_byte_common(&mut bytes);
            Ok(Entries::Bytes(bytes))
        }
        Entries::Small(mut small) => {
            divide_by_small_common(&mut small);
            narrowed(alloc, small)
        }
        Entries::Large(mut large) => {
            divide_by_common(&mut large);
            Ok(Entries::Large(large))
        }
    }
}
