//! Rows of a system, by their nonzero coefficients.

ghost use Rattle.std.specs.Prelude.{◌≡◌, ◌≤◌, length, IsOk, IfOk};
ghost use Rattle.cone_arithmetic.specs.Sparse.{IsSparse};

use out_of_memory::NoMemory;
use smallvec::SmallVec;
use std::alloc::Global;
use std::marker::Model;

/// The greatest magnitude of a coefficient.
pub const MAX_COEFFICIENT: u32 = 1000000;

/// A row: its nonzero coefficients with their columns. Invariant: columns ascend strictly, and no magnitude exceeds
/// `MAX_COEFFICIENT`.
#[derive(Drop)]
pub struct SparseRow {
    entries: SmallVec<(u32, i32), 8>,
}

impl Model for SparseRow {
    ghost use Rattle.cone_definitions.specs.Rows.{Row};

    ghost Value = { Row };

    ghost use Rattle.cone_arithmetic.specs.Sparse.{IsSparse};

    ghost view = { λ row. row.entries.items };

    ghost invariant = { λ row. IsSparse row.entries.items };
}

impl SparseRow {
    /// A row that copies `entries`. Up to eight entries need no allocation.
    pub fn new(alloc: Global, entries: &[(u32, i32)]) -> Result<SparseRow, NoMemory>
        requires { IsSparse entries.now }
        ensures keeps { IfOk result (λ row. row ≡ entries.now) }
        ensures short { length entries.now ≤ 8 → IsOk result }
    {
        let entries = SmallVec::from_slice(alloc, entries)?;
        Ok(SparseRow { entries })
    }

    /// A row that takes ownership of `entries`.
    pub fn of(entries: SmallVec<(u32, i32), 8>) -> SparseRow
        requires { IsSparse entries.items }
        ensures { result ≡ entries.items }
    {
        SparseRow { entries }
    }

    /// The columns of the row, ascending, each with its coefficient.
    pub fn entries(&self) -> &[(u32, i32)]
        ensures entries { result.now ≡ self.now }
        ensures sparse { IsSparse self.now }
    {
        self.entries.as_slice()
    }
}
