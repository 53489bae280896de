//! Rays as the steps store them. A large step reads most entries of its rays and writes as many, so memory bounds its
//! speed. Nearly all entries are below 256. A ray stores 8 bits for each entry if all fit, and otherwise 64 bits if all
//! fit there; a combination that has to be computed in 128 bits keeps these.

ghost use Rattle.std.specs.Prelude.{◌≡◌, ◌<◌, ◌≤◌, ◌↔◌, length, IfOk, IfSome, OnOk, IsErr, slice_index, slice_set};
ghost use Rattle.std.specs.Ordering.{nat_cmp};
ghost use Rattle.std.specs.Cmp.Lexicographic.{slice_cmp};
ghost use Rattle.cone_definitions.specs.Vectors.{unit};
ghost use Rattle.cone_definitions.specs.Elimination.{HasLargePart, HasPartsWithin};
ghost use Rattle.cone_arithmetic.specs.RayEntries.{IsReduced, numbers_of};
ghost use Rattle.cone_arithmetic.specs.Sparse.{IsInRange, ArePartsAt};

use crate::entries::{Entries, byte_entries, count, entry, into_wide, wide_entries, with_entry};
use crate::numbers::{MAX_ENTRY, Passed, PlusMinus, byte_parts, parts, small_parts};
use crate::ray::Ray;
use crate::row::SparseRow;
use out_of_memory::NoMemory;
use std::alloc::Global;
use std::cmp::Ordering;
use std::marker::Model;

/// A ray whose entries are stored in 8 bits each, in 64 bits each, or in 128 bits each. Invariant: at most `MAX_ENTRY`,
/// not all 0, with greatest common divisor 1.
#[derive(Drop)]
pub struct PackedRay {
    pub(crate) entries: Entries,
}

impl Model for PackedRay {
    ghost use Rattle.std.specs.Prelude.{List, ℕ};

    ghost Value = { List ℕ };

    ghost use Rattle.cone_arithmetic.specs.RayEntries.{IsReduced, numbers_of};
    ghost use Rattle.cone_arithmetic.specs.declared.numbers.TheConstants.{MAX_ENTRY};

    ghost view = { λ ray. numbers_of ray.entries };

    ghost invariant = { λ ray. IsReduced MAX_ENTRY (numbers_of ray.entries) };
}

impl PackedRay {
    /// The unit vector that is 1 in column `place`, of `columns` columns.
    pub fn unit(alloc: Global, columns: u32, place: u32) -> Result<PackedRay, NoMemory>
        requires { place < columns }
        ensures { IfOk result (λ ray. ray ≡ unit columns place) }
    {
        let mut entries = vec![in alloc; 0u8; columns as usize]?;
        entries[place as usize] = 1;
        Ok(PackedRay {
            entries: Entries::Bytes(entries),
        })
    }

    /// The number of entries.
    pub fn columns(&self) -> usize
        ensures columns { result ≡ length self.now }
        ensures reduced { IsReduced MAX_ENTRY self.now }
    {
        count(&self.entries)
    }

    /// The entries as they are stored, if they have 8 bits each.
    pub fn bytes(&self) -> Option<&[u8]>
        ensures { IfSome result (λ bytes. bytes.now ≡ self.now) }
    {
        byte_entries(&self.entries)
    }

    /// The positive and the negative part of `row` at the ray. Fails with `Passed` if and only if one of them exceeds
    /// `limit`.
    pub fn parts(&self, row: &SparseRow, limit: u128) -> Result<PlusMinus, Passed>
        requires in_range { IsInRange (length self.now) row.now }
        ensures ok { IfOk result (ArePartsAt row.now self.now) }
        ensures within { OnOk result (HasPartsWithin limit row.now self.now) }
        ensures passed { IsErr result ↔ HasLargePart limit row.now self.now }
    {
        match &self.entries {
            Entries::Bytes(bytes) => byte_parts(row, bytes, limit),
            Entries::Small(small) => small_parts(row, small, limit),
            Entries::Large(large) => parts(row, large, limit),
        }
    }

    /// The lexicographic order of the ray and `other`; a prefix is less.
    pub fn compare(&self, other: &PackedRay) -> Ordering
        ensures { result ≡ slice_cmp nat_cmp self.now other.now }
    {
        match (&self.entries, &other.entries) {
            (Entries::Bytes(x), Entries::Bytes(y)) => x.as_slice().cmp(y.as_slice()),
            (Entries::Small(x), Entries::Small(y)) => x.as_slice().cmp(y.as_slice()),
            (Entries::Large(x), Entries::Large(y)) => x.as_slice().cmp(y.as_slice()),
            _ => compare_each(&self.entries, &other.entries),
        }
    }

    /// The ray with entry `value` in `column`, in which its entry is 0.
    pub fn with_new_entry(
        self,
        alloc: Global,
        column: u32,
        value: u128,
    ) -> Result<PackedRay, NoMemory>
        requires in_range { column < length self }
        requires gone { slice_index self column ≡ 0 }
        requires most { value ≤ MAX_ENTRY }
        ensures { IfOk result (λ ray. ray ≡ slice_set self column value) }
    {
        let PackedRay { entries } = self;
        let entries = with_entry(alloc, entries, column as usize, value)?;
        Ok(PackedRay { entries })
    }

    /// A copy of the ray, with 128 bits for each entry.
    pub fn to_ray(&self, alloc: Global) -> Result<Ray, NoMemory>
        ensures { IfOk result (λ ray. ray ≡ self.now) }
    {
        let entries = wide_entries(alloc, &self.entries)?;
        Ok(Ray { entries })
    }

    /// As `to_ray`, but takes ownership; allocates nothing if the entries have 128 bits already.
    pub fn into_ray(self, alloc: Global) -> Result<Ray, NoMemory>
        ensures { IfOk result (λ ray. ray ≡ self) }
    {
        let PackedRay { entries } = self;
        let entries = into_wide(alloc, entries)?;
        Ok(Ray { entries })
    }

    /// `ray` as a packed ray.
    pub(crate) fn of(ray: Ray) -> PackedRay
        ensures { result ≡ ray }
    {
        let Ray { entries } = ray;
        PackedRay {
            entries: Entries::Large(entries),
        }
    }
}

/// The lexicographic order of `a` and `b`, entry by entry.
fn compare_each(a: &Entries, b: &Entries) -> Ordering
    ensures { result ≡ slice_cmp nat_cmp (numbers_of a.now) (numbers_of b.now) }
{
    let common = count(a).min(count(b));
    for column in 0..common {
        let order = entry(a, column).cmp(&entry(b, column));
        if order != Ordering::Equal {
            return order;
        }
    }
    count(a).cmp(&count(b))
}
