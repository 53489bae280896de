//! Greatest common divisors, and the positive and negative parts of a row at a vector.

ghost use Rattle.std.specs.Prelude.{◌≡◌, ◌+◌, ◌*◌, ◌<◌, ◌≤◌, ◌⊎◌, ◌↔◌, ◌^◌, length, unsigned_abs, IfOk, OnOk, OnErr, IsErr};
ghost use Rattle.std.specs.Int.{IsGcd};
ghost use Rattle.cone_definitions.specs.Rows.{positive_coefficient, negative_coefficient};
ghost use Rattle.cone_definitions.specs.Elimination.{HasLargePart, HasPartsWithin};
ghost use Rattle.cone_arithmetic.specs.Sparse.{IsInRange, ArePartsAt};

use crate::row::SparseRow;
use crate::small::{MAX_SMALL, gcd_with_small, product};

/// The greatest entry of a ray: 2^127 - 1.
pub const MAX_ENTRY: u128 = 170141183460469231731687303715884105727;

/// A number exceeds the limit.
#[derive(Clone, Copy)]
pub struct Passed;

/// The positive and the negative part of a row at a vector: the sum of its positive terms, and the sum of the
/// magnitudes of its negative terms.
#[derive(Clone, Copy)]
pub struct PlusMinus {
    pub plus: u128,
    pub minus: u128,
}

/// The greatest common divisor of `a` and `b`; that of 0 and 0 is 0. Once the smaller number fits in 64 bits, so do all
/// but one of the remainders.
pub fn gcd(a: u128, b: u128) -> u128
    ensures { IsGcd a b result }
{
    let mut greater = a;
    let mut smaller = b;
    while smaller > MAX_SMALL {
        let rest = greater % smaller;
        greater = smaller;
        smaller = rest;
    }
    gcd_with_small(greater, smaller as u64)
}

/// `sum + magnitude * entry`. Fails if that exceeds `limit`.
fn add_product(sum: u128, magnitude: u32, entry: u128, limit: u128) -> Result<u128, Passed>
    ensures ok { IfOk result (λ after. after ≡ sum + magnitude * entry) }
    ensures within { OnOk result (sum + magnitude * entry ≤ limit) }
    ensures passed { OnErr result (limit < sum + magnitude * entry) }
{
    let Some(term) = product(u128::from(magnitude), entry) else {
        return Err(Passed);
    };
    match sum.checked_add(term) {
        Some(after) if after <= limit => Ok(after),
        _ => Err(Passed),
    }
}

/// The parts of the first terms of a row at a vector. Invariant: neither exceeds `limit`.
#[derive(Clone, Copy)]
struct PartsSoFar {
    plus: u128,
    minus: u128,
    limit: u128,
    ghost plus_within: { plus ≤ limit },
    ghost minus_within: { minus ≤ limit },
}

/// The parts `sums` with one more term. Fails if a part exceeds the limit. Most entries of rays are 0, so that case
/// comes first.
fn add_term(sums: PartsSoFar, coefficient: i32, entry: u128) -> Result<PartsSoFar, Passed>
    ensures plus { IfOk result (λ after. after.plus ≡ sums.plus + positive_coefficient coefficient * entry) }
    ensures minus { IfOk result (λ after. after.minus ≡ sums.minus + negative_coefficient coefficient * entry) }
    ensures limit { IfOk result (λ after. after.limit ≡ sums.limit) }
    ensures passed { OnErr result ((sums.limit < sums.plus + positive_coefficient coefficient * entry)
        ⊎ (sums.limit < sums.minus + negative_coefficient coefficient * entry)) }
{
    if entry == 0 {
        return Ok(sums);
    }
    let PartsSoFar { plus, minus, limit } = sums;
    let magnitude = coefficient.unsigned_abs();
    if coefficient > 0 {
        let plus = add_product(plus, magnitude, entry, limit)?;
        Ok(PartsSoFar { plus, minus, limit })
    } else {
        let minus = add_product(minus, magnitude, entry, limit)?;
        Ok(PartsSoFar { plus, minus, limit })
    }
}

/// The positive and the negative part of `row` at `x`, with entries of 64 bits. Fails if a part exceeds `limit`.
pub(crate) fn small_parts(row: &SparseRow, x: &[u64], limit: u128) -> Result<PlusMinus, Passed>
    requires in_range { IsInRange (length x.now) row.now }
    ensures ok { IfOk result (ArePartsAt row.now x.now) }
    ensures within { OnOk result (HasPartsWithin limit row.now x.now) }
    ensures passed { IsErr result ↔ HasLargePart limit row.now x.now }
{
    let entries = row.entries();
    let mut sums = PartsSoFar {
        plus: 0,
        minus: 0,
        limit,
    };
    for (column, coefficient) in entries {
        sums = add_term(sums, *coefficient, u128::from(x[*column as usize]))?;
    }
    Ok(PlusMinus {
        plus: sums.plus,
        minus: sums.minus,
    })
}

/// The parts of the first terms of a row at a vector with entries of 8 bits.
#[derive(Clone, Copy)]
struct ByteParts {
    plus: u64,
    minus: u64,
}

/// The parts `sums` with one more term, which is at most 255,000,000.
fn add_byte_term(sums: ByteParts, coefficient: i32, entry: u8) -> ByteParts
    requires magnitude { unsigned_abs coefficient ≤ 1000000 }
    requires plus_room { sums.plus < 2 ^ 63 }
    requires minus_room { sums.minus < 2 ^ 63 }
    ensures plus { result.plus ≡ sums.plus + positive_coefficient coefficient * entry }
    ensures minus { result.minus ≡ sums.minus + negative_coefficient coefficient * entry }
    ensures plus_bounded { result.plus ≤ sums.plus + 255000000 }
    ensures minus_bounded { result.minus ≤ sums.minus + 255000000 }
{
    let ByteParts { plus, minus } = sums;
    let term = u64::from(coefficient.unsigned_abs()) * u64::from(entry);
    if coefficient > 0 {
        ByteParts {
            plus: plus + term,
            minus,
        }
    } else {
        ByteParts {
            plus,
            minus: minus + term,
        }
    }
}

/// The positive and the negative part of `row` at `x`, with entries of 8 bits. Fails with `Passed` if a part exceeds
/// `limit`. A row has at most 2^32 terms, so the sums fit in 64 bits, and only the whole parts are compared.
pub(crate) fn byte_parts(row: &SparseRow, x: &[u8], limit: u128) -> Result<PlusMinus, Passed>
    requires in_range { IsInRange (length x.now) row.now }
    ensures ok { IfOk result (ArePartsAt row.now x.now) }
    ensures within { OnOk result (HasPartsWithin limit row.now x.now) }
    ensures passed { IsErr result ↔ HasLargePart limit row.now x.now }
{
    let entries = row.entries();
    let mut sums = ByteParts { plus: 0, minus: 0 };
    for (column, coefficient) in entries {
        sums = add_byte_term(sums, *coefficient, x[*column as usize]);
    }
    let plus = u128::from(sums.plus);
    let minus = u128::from(sums.minus);
    if plus <= limit && minus <= limit {
        Ok(PlusMinus { plus, minus })
    } else {
        Err(Passed)
    }
}

/// The positive and the negative part of `row` at `x`. Fails with `Passed` if and only if one of them exceeds `limit`.
pub fn parts(row: &SparseRow, x: &[u128], limit: u128) -> Result<PlusMinus, Passed>
    requires in_range { IsInRange (length x.now) row.now }
    ensures ok { IfOk result (ArePartsAt row.now x.now) }
    ensures within { OnOk result (HasPartsWithin limit row.now x.now) }
    ensures passed { IsErr result ↔ HasLargePart limit row.now x.now }
{
    let entries = row.entries();
    let mut sums = PartsSoFar {
        plus: 0,
        minus: 0,
        limit,
    };
    for (column, coefficient) in entries {
        sums = add_term(sums, *coefficient, x[*column as usize])?;
    }
    Ok(PlusMinus {
        plus: sums.plus,
        minus: sums.minus,
    })
}
