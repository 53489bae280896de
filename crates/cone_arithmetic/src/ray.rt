//! Rays, and combinations of two rays.

ghost use Rattle.std.specs.Prelude.{◌≡◌, ◌≢◌, ℕ, List, [], ◌++◌, ◌+◌, ◌*◌, ◌<◌, ◌≤◌, ◌↔◌, length, IfOk, OnOk, IfErr, IfSome, IfNone, IsErr, slice_index};
ghost use Rattle.std.specs.Ordering.{nat_cmp};
ghost use Rattle.std.specs.Cmp.Lexicographic.{slice_cmp};
ghost use Rattle.cone_definitions.specs.Vectors.{IsBefore, unit, multiple, sum_of};
ghost use Rattle.cone_definitions.specs.Elimination.{HasLargePart, HasPartsWithin};
ghost use Rattle.cone_arithmetic.specs.RayEntries.{IsReduced};
ghost use Rattle.cone_arithmetic.specs.Sparse.{IsInRange, ArePartsAt};
ghost use Rattle.cone_arithmetic.specs.Combinations.{IsReducedBy};
ghost use Rattle.cone_arithmetic.specs.Faults.{CombineFails, PassesAt};

use crate::combination::Combination;
use crate::divisors::divide_by_common;
use crate::numbers::{MAX_ENTRY, Passed, PlusMinus, gcd, parts};
use crate::row::SparseRow;
use crate::small::{product, quotient};
use out_of_memory::NoMemory;
use std::alloc::{AllocError, AllocFailed, Global};
use std::cmp::Ordering;
use std::marker::Model;

/// A primitive integer vector. Invariant: entries at most `MAX_ENTRY`, not all 0, with greatest common divisor 1.
#[derive(Drop)]
pub struct Ray {
    pub(crate) entries: Vec<u128>,
}

impl Model for Ray {
    ghost use Rattle.std.specs.Prelude.{List, ℕ};

    ghost Value = { List ℕ };

    ghost use Rattle.cone_arithmetic.specs.RayEntries.{IsReduced};
    ghost use Rattle.cone_arithmetic.specs.declared.numbers.TheConstants.{MAX_ENTRY};

    ghost view = { λ ray. ray.entries.items };

    ghost invariant = { λ ray. IsReduced MAX_ENTRY ray.entries.items };
}

/// Why two rays are not combined: `column` is the first whose entry exceeds the limit, or memory runs out.
#[derive(Clone, Copy)]
pub enum CombineFault {
    Passed { column: u32 },
    NoMemory,
}

impl From<NoMemory> for CombineFault {
    ghost use Rattle.std.specs.Prelude.{◌≡◌};
    ghost use Rattle.cone_arithmetic.specs.declared.ray.CombineFault.TheVariants.{NoMemory};

    ghost from_gives = { λ _ fault. fault ≡ NoMemory };

    fn from(_error: NoMemory) -> CombineFault {
        CombineFault::NoMemory
    }
}

impl From<AllocError> for CombineFault {
    ghost use Rattle.std.specs.Prelude.{◌≡◌};
    ghost use Rattle.cone_arithmetic.specs.declared.ray.CombineFault.TheVariants.{NoMemory};

    ghost from_gives = { λ _ fault. fault ≡ NoMemory };

    fn from(_error: AllocError) -> CombineFault {
        CombineFault::NoMemory
    }
}

impl<T: Drop> From<AllocFailed<T>> for CombineFault {
    ghost use Rattle.std.specs.Prelude.{◌≡◌};
    ghost use Rattle.cone_arithmetic.specs.declared.ray.CombineFault.TheVariants.{NoMemory};

    ghost from_gives = { λ _ fault. fault ≡ NoMemory };

    fn from(_failed: AllocFailed<T>) -> CombineFault {
        CombineFault::NoMemory
    }
}

impl Ray {
    /// The unit vector that is 1 in column `place`, of `columns` columns.
    pub fn unit(alloc: Global, columns: u32, place: u32) -> Result<Ray, NoMemory>
        requires { place < columns }
        ensures { IfOk result (λ ray. ray ≡ unit columns place) }
    {
        let mut entries = vec![in alloc; 0u128; columns as usize]?;
        entries[place as usize] = 1;
        Ok(Ray { entries })
    }

    /// The entries, one for each column.
    pub fn entries(&self) -> &[u128]
        ensures entries { result.now ≡ self.now }
        ensures reduced { IsReduced MAX_ENTRY self.now }
    {
        self.entries.as_slice()
    }

    /// The number of entries.
    pub fn columns(&self) -> usize
        ensures columns { result ≡ length self.now }
        ensures reduced { IsReduced MAX_ENTRY self.now }
    {
        self.entries.len()
    }

    /// The entry in `column`.
    pub fn entry(&self, column: usize) -> u128
        requires { column < length self.now }
        ensures entry { result ≡ slice_index self.now column }
        ensures reduced { IsReduced MAX_ENTRY self.now }
    {
        self.entries[column]
    }

    /// A copy of the ray.
    pub fn copy(&self, alloc: Global) -> Result<Ray, NoMemory>
        ensures { IfOk result (λ ray. ray ≡ self.now) }
    {
        let entries = self.entries.to_vec(alloc)?;
        Ok(Ray { entries })
    }

    /// The positive and the negative part of `row` at the ray. Fails with `Passed` if and only if one of them exceeds
    /// `limit`.
    pub fn parts(&self, row: &SparseRow, limit: u128) -> Result<PlusMinus, Passed>
        requires in_range { IsInRange (length self.now) row.now }
        ensures ok { IfOk result (ArePartsAt row.now self.now) }
        ensures within { OnOk result (HasPartsWithin limit row.now self.now) }
        ensures passed { IsErr result ↔ HasLargePart limit row.now self.now }
    {
        parts(row, &self.entries, limit)
    }

    /// The lexicographic order of the ray and `other`; a prefix is less.
    pub fn compare(&self, other: &Ray) -> Ordering
        ensures { result ≡ slice_cmp nat_cmp self.now other.now }
    {
        compare(&self.entries, &other.entries)
    }
}

/// The lexicographic order of `a` and `b`; a prefix is less.
pub fn compare(a: &[u128], b: &[u128]) -> Ordering
    ensures order { result ≡ slice_cmp nat_cmp a.now b.now }
    ensures before { length a.now ≡ length b.now → (result ≡ Ordering.Less) ↔ IsBefore a.now b.now }
    ensures prefix { (rest : List ℕ) → rest ≢ [] → b.now ≡ a.now ++ rest → result ≡ Ordering.Less }
{
    a.cmp(b)
}

/// `a * x + b * y`, or `None` if it exceeds `limit`.
fn sum_within(a: u128, x: u128, b: u128, y: u128, limit: u128) -> Option<u128>
    ensures some { IfSome result (λ sum. sum ≡ a * x + b * y) }
    ensures within { IfSome result (λ sum. sum ≤ limit) }
    ensures none { IfNone result (limit < a * x + b * y) }
{
    let first = product(a, x)?;
    let second = product(b, y)?;
    if first <= limit && second <= limit - first {
        Some(first + second)
    } else {
        None
    }
}

/// The entries of `combination`. Fails with `Passed` at the first column whose entry exceeds `limit`.
fn sums_within(
    alloc: Global,
    combination: Combination,
    limit: u128,
) -> Result<Vec<u128>, CombineFault>
    ensures ok { IfOk result (λ sums.
        sums.items ≡ sum_of (multiple combination.entry.a combination.entry.w.now)
        (multiple combination.entry.b combination.entry.u.now)) }
    ensures within { OnOk result ((column : ℕ)
        → slice_index (sum_of (multiple combination.entry.a combination.entry.w.now)
        (multiple combination.entry.b combination.entry.u.now)) column ≤ limit) }
    ensures err { IfErr result (PassesAt limit
        (sum_of (multiple combination.entry.a combination.entry.w.now)
        (multiple combination.entry.b combination.entry.u.now))) }
{
    let Combination { a, w, b, u } = combination;
    let mut sums = Vec::with_capacity(alloc, w.len())?;
    for (column, entry) in w.iter().enumerate() {
        match sum_within(a, *entry, b, u[column], limit) {
            Some(sum) => sums.push(sum)?,
            None => {
                return Err(CombineFault::Passed {
                    column: column as u32,
                });
            }
        }
    }
    Ok(sums)
}

/// `at_u * w + at_w * u`, divided by the greatest common divisor of `at_u` and `at_w`, and then by that of its entries.
/// A row with the values `at_u` at `u` and `-at_w` at `w` is 0 there. Fails with `Passed` at the first column whose
/// entry exceeds `limit` before the second division.
pub fn combine(
    alloc: Global,
    u: &Ray,
    w: &Ray,
    at_u: u128,
    at_w: u128,
    limit: u128,
) -> Result<Ray, CombineFault>
    requires lengths { length u.now ≡ length w.now }
    requires some_u { 1 ≤ at_u }
    requires some_w { 1 ≤ at_w }
    requires most_limit { limit ≤ MAX_ENTRY }
    ensures ok { IfOk result (IsReducedBy limit at_u at_w u.now w.now) }
    ensures columns { IfOk result (λ ray. length ray ≡ length u.now) }
    ensures err { IfErr result (CombineFails limit at_u at_w u.now w.now) }
{
    let divisor = gcd(at_u, at_w);
    let combination = Combination {
        a: quotient(at_u, divisor),
        w: w.entries(),
        b: quotient(at_w, divisor),
        u: u.entries(),
    };
    let mut sums = sums_within(alloc, combination, limit)?;
    divide_by_common(&mut sums);
    Ok(Ray { entries: sums })
}
