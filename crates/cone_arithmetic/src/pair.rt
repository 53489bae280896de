//! Pairs of packed rays, and their combinations.

ghost use Rattle.std.specs.Prelude.{◌≡◌, ◌≤◌, ℕ, length, slice_index, IfOk, IfErr, IfSome};
ghost use Rattle.cone_definitions.specs.Vectors.{multiple, sum_of};
ghost use Rattle.cone_arithmetic.specs.RayEntries.{numbers_of};
ghost use Rattle.cone_arithmetic.specs.Combinations.{IsReducedBy};
ghost use Rattle.cone_arithmetic.specs.Faults.{CombineFails};
ghost use Rattle.cone_arithmetic.specs.Filled.{AreInside};

use crate::combination::{ByteCombination, SmallCombination};
use crate::entries::{Entries, byte_entries, divided, narrow_entries};
use crate::filled::{byte_sums_at, sums_at};
use crate::limit::Limit;
use crate::numbers::gcd;
use crate::packed::PackedRay;
use crate::ray::{CombineFault, combine};
use crate::small::{MAX_BYTE, MAX_SMALL, quotient};
use out_of_memory::NoMemory;
use std::alloc::Global;
use support_bits::Support;

/// Two rays, and a row that has the values `at_u` at `u` and `-at_w` at `w`. Invariant: the rays have equally many
/// entries, which are 0 outside the columns of `support`; `at_u` and `at_w` are positive.
#[derive(Clone, Copy)]
pub struct RayPair<'a> {
    pub u: &'a PackedRay,
    pub w: &'a PackedRay,
    pub support: &'a Support,
    pub at_u: u128,
    pub at_w: u128,
    pub ghost lengths: { length u.now ≡ length w.now },
    pub ghost width: { length support.now ≡ length w.now },
    pub ghost inside: { AreInside support.now u.now w.now },
    pub ghost some_u: { 1 ≤ at_u },
    pub ghost some_w: { 1 ≤ at_w },
}

/// The entries of `a * w + b * u` for the rays of `pair`, computed at the columns of its support; `None` if an entry
/// exceeds `limit`, or if a factor, an entry of a ray or an entry of the result does not fit in 8 bits.
fn byte_sums(
    alloc: Global,
    pair: RayPair,
    a: u128,
    b: u128,
    limit: u128,
) -> Result<Option<Vec<u8>>, NoMemory>
    ensures sums { IfOk result (λ answer.
        IfSome answer (λ sums. sums.items ≡ sum_of (multiple a pair.entry.w.now) (multiple b pair.entry.u.now))) }
    ensures within { IfOk result (λ answer.
        IfSome answer (λ _. (column : ℕ)
        → slice_index (sum_of (multiple a pair.entry.w.now) (multiple b pair.entry.u.now)) column ≤ limit)) }
{
    if a > MAX_BYTE || b > MAX_BYTE {
        return Ok(None);
    }
    let RayPair { u, w, support, .. } = pair;
    let Some(w) = byte_entries(&w.entries) else {
        return Ok(None);
    };
    let Some(u) = byte_entries(&u.entries) else {
        return Ok(None);
    };
    let words = support.words();
    let combination = ByteCombination {
        a: a as u8,
        w,
        b: b as u8,
        u,
        words,
    };
    byte_sums_at(alloc, combination, limit)
}

/// As `byte_sums`, with 64 bits in place of 8.
fn small_sums(
    alloc: Global,
    pair: RayPair,
    a: u128,
    b: u128,
    limit: u128,
) -> Result<Option<Vec<u64>>, NoMemory>
    ensures sums { IfOk result (λ answer.
        IfSome answer (λ sums. sums.items ≡ sum_of (multiple a pair.entry.w.now) (multiple b pair.entry.u.now))) }
    ensures within { IfOk result (λ answer.
        IfSome answer (λ _. (column : ℕ)
        → slice_index (sum_of (multiple a pair.entry.w.now) (multiple b pair.entry.u.now)) column ≤ limit)) }
{
    if a > MAX_SMALL || b > MAX_SMALL {
        return Ok(None);
    }
    let RayPair { u, w, support, .. } = pair;
    let Some(w) = narrow_entries(&w.entries) else {
        return Ok(None);
    };
    let Some(u) = narrow_entries(&u.entries) else {
        return Ok(None);
    };
    let words = support.words();
    let combination = SmallCombination {
        a: a as u64,
        w,
        b: b as u64,
        u,
        words,
    };
    sums_at(alloc, combination, limit)
}

/// The entries of `a * w + b * u` for the rays of `pair`, in 8 bits each if `byte_sums` computes them, and otherwise in
/// 64 bits each; `None` if `small_sums` does not compute them either.
fn sums_inside(
    alloc: Global,
    pair: RayPair,
    a: u128,
    b: u128,
    limit: u128,
) -> Result<Option<Entries>, NoMemory>
    ensures sums { IfOk result (λ answer.
        IfSome answer (λ sums. numbers_of sums ≡ sum_of (multiple a pair.entry.w.now) (multiple b pair.entry.u.now))) }
    ensures within { IfOk result (λ answer.
        IfSome answer (λ _. (column : ℕ)
        → slice_index (sum_of (multiple a pair.entry.w.now) (multiple b pair.entry.u.now)) column ≤ limit)) }
{
    if let Some(bytes) = byte_sums(alloc, pair, a, b, limit)? {
        return Ok(Some(Entries::Bytes(bytes)));
    }
    match small_sums(alloc, pair, a, b, limit)? {
        Some(small) => Ok(Some(Entries::Small(small))),
        None => Ok(None),
    }
}

/// As `combine`, with the same errors, for the rays and values of `pair`.
fn combine_wide(alloc: Global, pair: RayPair, limit: Limit) -> Result<PackedRay, CombineFault>
    ensures ok { IfOk result (IsReducedBy limit.number pair.entry.at_u pair.entry.at_w pair.entry.u.now
        pair.entry.w.now) }
    ensures columns { IfOk result (λ ray. length ray ≡ length pair.entry.u.now) }
    ensures err { IfErr result (CombineFails limit.number pair.entry.at_u pair.entry.at_w pair.entry.u.now
        pair.entry.w.now) }
{
    let first = pair.u.to_ray(alloc)?;
    let second = pair.w.to_ray(alloc)?;
    let ray = combine(alloc, &first, &second, pair.at_u, pair.at_w, limit.number)?;
    Ok(PackedRay::of(ray))
}

/// As `combine`, for the rays and values of `pair`; only the columns of its support are computed. Fails with `Passed`,
/// which names the first column whose entry exceeds `limit`.
pub fn combine_inside(alloc: Global, pair: RayPair, limit: Limit) -> Result<PackedRay, CombineFault>
    ensures ok { IfOk result (IsReducedBy limit.number pair.entry.at_u pair.entry.at_w pair.entry.u.now
        pair.entry.w.now) }
    ensures columns { IfOk result (λ ray. length ray ≡ length pair.entry.u.now) }
    ensures err { IfErr result (CombineFails limit.number pair.entry.at_u pair.entry.at_w pair.entry.u.now
        pair.entry.w.now) }
{
    let greatest = gcd(pair.at_u, pair.at_w);
    let a = quotient(pair.at_u, greatest);
    let b = quotient(pair.at_w, greatest);
    let Some(sums) = sums_inside(alloc, pair, a, b, limit.number)? else {
        return combine_wide(alloc, pair, limit);
    };
    // the invariant of the first ray: its entries are not all 0
    let _columns = pair.u.columns();
    let entries = divided(alloc, sums)?;
    Ok(PackedRay { entries })
}
