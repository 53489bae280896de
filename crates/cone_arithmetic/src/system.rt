//! Systems of rows, and their solutions.

ghost use Rattle.std.specs.Prelude.{◌≡◌, ◌+◌, ◌<◌, ◌^◌, ◌↔◌, [], ◌∷◌, ◌++◌, length, IsOk, OnOk, OnErr, IfErr, slice_index_or};
ghost use Rattle.std.specs.List.{All};
ghost use Rattle.cone_arithmetic.specs.Sparse.{IsInRange};
ghost use Rattle.cone_arithmetic.specs.Faults.{SolutionFails};
ghost use Rattle.cone_definitions.specs.Rows.{IsSolution};
ghost use Rattle.cone_definitions.specs.HoldingRows.{HoldsWithin};

use crate::numbers::{MAX_ENTRY, Passed, parts};
use crate::row::SparseRow;
use out_of_memory::NoMemory;
use std::alloc::Global;
use std::marker::Model;

/// A system of linear equations: rows over `columns` columns. Invariant: fewer than 2^32 rows, each with columns below
/// `columns` and coefficients up to `MAX_COEFFICIENT`.
#[derive(Drop)]
pub struct System {
    columns: u32,
    rows: Vec<SparseRow>,
}

impl Model for System {
    ghost use Rattle.std.specs.Prelude.{◌<◌, ◌^◌};
    ghost use Rattle.cone_definitions.specs.Systems as systems;

    ghost Value = { systems.System };

    ghost use Rattle.std.specs.List.{All};
    ghost use Rattle.std.specs.Prelude.{length};
    ghost use Rattle.cone_arithmetic.specs.Sparse.{IsInRange};

    ghost view = { λ s. record { columns = s.columns; rows = s.rows.items } };

    ghost invariant = { λ s. (length s.rows.items < 2 ^ 32) × All (IsInRange s.columns) s.rows.items };
}

/// Why a vector is no solution: `row` is the first row at which a part exceeds `MAX_ENTRY` (`Passed`), or which is not
/// 0 (`NotZero`).
#[derive(Clone, Copy)]
pub enum SolutionFault {
    Passed { row: u32 },
    NotZero { row: u32 },
}

impl System {
    /// A system of `columns` columns without rows.
    pub fn new(alloc: Global, columns: u32) -> System
        ensures columns { result.columns ≡ columns }
        ensures rows { result.rows ≡ [] }
    {
        System {
            columns,
            rows: Vec::new(alloc),
        }
    }

    /// Appends `row`. If memory runs out the system is unchanged.
    pub fn push_row(&mut self, row: SparseRow) -> Result<(), NoMemory>
        requires in_range { IsInRange self.old.columns row }
        requires room { length self.old.rows + 1 < 2 ^ 32 }
        ensures ok { OnOk result (self.new ≡ record self.old { rows = self.old.rows ++ row ∷ [] }) }
        ensures err { OnErr result (self.new ≡ self.old) }
    {
        self.rows.push(row)?;
        Ok(())
    }

    /// The number of columns.
    pub fn columns(&self) -> u32
        ensures { result ≡ self.now.columns }
    {
        self.columns
    }

    /// The number of rows.
    pub fn len(&self) -> u32
        ensures { result ≡ length self.now.rows }
    {
        self.rows.len() as u32
    }

    /// The row with index `i`.
    pub fn row(&self, i: u32) -> &SparseRow
        requires { i < length self.now.rows }
        ensures row { result.now ≡ slice_index_or self.now.rows i [] }
        ensures in_range { IsInRange self.now.columns result.now }
    {
        &self.rows[i as usize]
    }
}

/// Checks that `x`, with one nonnegative entry for each column, solves `system`. Fails at the first row of which a part
/// exceeds `MAX_ENTRY` (`Passed`), or which is not 0 at `x` (`NotZero`).
pub fn is_solution(system: &System, x: &[u128]) -> Result<(), SolutionFault>
    requires { length x.now ≡ system.now.columns }
    ensures ok { IsOk result ↔ All (HoldsWithin MAX_ENTRY x.now) system.now.rows }
    ensures solution { OnOk result (IsSolution system.now.columns system.now.rows x.now) }
    ensures err { IfErr result (SolutionFails MAX_ENTRY system.now.rows x.now) }
{
    for row in 0..system.len() {
        match parts(system.row(row), x, MAX_ENTRY) {
            Ok(parts) if parts.plus == parts.minus => {}
            Ok(_) => return Err(SolutionFault::NotZero { row }),
            Err(Passed) => return Err(SolutionFault::Passed { row }),
        }
    }
    Ok(())
}
