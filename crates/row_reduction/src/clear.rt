//! Clears a column from rows by a pivot row.

ghost use Rattle.std.specs.Prelude.{◌≡◌, ◌≤◌, ◌≢◌, ◌⊎◌, [], pos, negsuc, Contains, ◌<◌, length, slice_index_or, slice_set, IfOk, OnOk, IfErr, IfSome, IsNone, unsigned_abs};
ghost use Rattle.cone_arithmetic.specs.Sparse.{IsInRange};
ghost use Rattle.row_reduction.specs.Merging.{IsCoefficientSum};
ghost use Rattle.row_reduction.specs.Clearing.{AreClearedBy, AddsMultipleAt, IsUnitAt};
ghost use Rattle.row_reduction.specs.Eliminating.{IsUnit, HasNoTerm, CancelsAt, AreCleared};
ghost use Rattle.row_reduction.specs.Passing.{PassesAtColumn, PassesClearing, IfPassed};

use crate::fault::SolveFault;
use crate::merge::{RowPair, add_multiple};
use crate::rows::RowList;
use cone_arithmetic::SparseRow;
use out_of_memory::NoMemory;
use std::alloc::Global;
use std::marker::Model;

/// A row that clears its pivot column from others. Invariant: `unit`, which is 1 or -1, is the coefficient of `row` at
/// `column`.
#[derive(Drop)]
pub(crate) struct Pivot {
    pub row: SparseRow,
    pub column: u32,
    pub unit: i32,
}

impl Model for Pivot {
    ghost use Rattle.std.specs.Prelude.{Contains};
    ghost use Rattle.row_reduction.specs.Eliminating.{IsUnit, PivotData};

    ghost Value = { PivotData };

    ghost view = { λ p. record { row = p.row; column = p.column } };

    ghost invariant = { λ p. Contains p.row (p.column, p.unit) × IsUnit p.unit };
}

/// The coefficient of `row` at `column`, 0 if it has no term there.
pub(crate) fn coefficient_at(row: &SparseRow, column: u32) -> i32
    ensures within { unsigned_abs result ≤ 1000000 }
    ensures found { result ≢ pos 0 → Contains row.now (column, result) }
    ensures unit { IsUnitAt column row.now → IsUnit result }
    ensures none { result ≡ pos 0 → HasNoTerm row.now column }
{
    for (place, coefficient) in row.entries() {
        if *place == column {
            return *coefficient;
        }
        if *place > column {
            return 0;
        }
    }
    0
}

/// Copies `row`.
pub(crate) fn copy(alloc: Global, row: &SparseRow) -> Result<SparseRow, NoMemory>
    ensures { IfOk result (λ copy. copy ≡ row.now) }
{
    SparseRow::new(alloc, row.entries())
}

/// The factor by which a pivot row with the coefficient `unit` (1 or -1) is added to cancel `coefficient`.
fn clearing_factor(coefficient: i32, unit: i32) -> i32
    requires { unsigned_abs coefficient ≤ 1000000 }
    ensures { (unit ≡ pos 1) ⊎ (unit ≡ negsuc 0) → IsCoefficientSum coefficient result unit (pos 0) }
{
    if unit < 0 { coefficient } else { -coefficient }
}

impl Pivot {
    /// The factor by which the pivot row is added to `row` to cancel its term at the pivot column, or `None` if it has
    /// no term there.
    fn factor_for(&self, row: &SparseRow) -> Option<i32>
        ensures cancels { IfSome result (λ factor. CancelsAt self.now.column row.now factor self.now.row) }
        ensures none { IsNone result → HasNoTerm row.now self.now.column }
    {
        let coefficient = coefficient_at(row, self.column);
        if coefficient == 0 {
            return None;
        }
        Some(clearing_factor(coefficient, self.unit))
    }

    /// The pivot row.
    fn row(&self) -> &SparseRow
        ensures { result.now ≡ self.now.row }
    {
        &self.row
    }
}

/// The sum of row `i` of `list` and `factor` times `other`. Fails with `Passed` if a coefficient exceeds 1,000,000.
pub(crate) fn sum_at(
    alloc: Global,
    list: &RowList,
    i: usize,
    factor: i32,
    other: &SparseRow,
) -> Result<SparseRow, SolveFault>
    requires place { i < length list.now.rows.items }
    requires other_in_range { IsInRange list.now.columns other.now }
    ensures adds { IfOk result (λ sum. AddsMultipleAt list.now.columns list.now.rows.items i factor other.now
        (slice_set list.now.rows.items i sum)) }
    ensures in_range { IfOk result (IsInRange list.now.columns) }
    ensures passed { IfErr result (IfPassed
        (PassesAtColumn (slice_index_or list.now.rows.items i []) factor other.now)) }
{
    let pair = RowPair {
        columns: list.columns,
        row: list.rows[i].entries(),
        other: other.entries(),
    };
    add_multiple(alloc, &pair, factor)
}

/// Adds `factor` times `other` to row `i`. Fails with `Passed` if a coefficient of the sum exceeds 1,000,000.
fn add_at(
    alloc: Global,
    list: &mut RowList,
    i: usize,
    factor: i32,
    other: &SparseRow,
) -> Result<(), SolveFault>
    requires place { i < length list.old.rows.items }
    requires other_in_range { IsInRange list.old.columns other.now }
    ensures columns { list.new.columns ≡ list.old.columns }
    ensures adds { OnOk result (AddsMultipleAt list.old.columns list.old.rows.items i factor other.now
        list.new.rows.items) }
    ensures passed { IfErr result (IfPassed
        (PassesAtColumn (slice_index_or list.old.rows.items i []) factor other.now)) }
{
    let sum = sum_at(alloc, list, i, factor, other)?;
    list.rows[i] = sum;
    Ok(())
}

/// Clears the column of `pivot` from the rows of `list` by adding multiples of the pivot row. Rows that become empty
/// are retained. Fails with `Passed` if a coefficient exceeds 1,000,000.
pub(crate) fn clear_rows(alloc: Global, list: &mut RowList, pivot: &Pivot) -> Result<(), SolveFault>
    requires { IsInRange list.old.columns pivot.now.row }
    ensures columns { list.new.columns ≡ list.old.columns }
    ensures cleared { OnOk result (AreClearedBy pivot.now.row list.old.rows.items list.new.rows.items) }
    ensures each { OnOk result (AreCleared pivot.now.row pivot.now.column list.old.rows.items list.new.rows.items) }
    ensures passed { IfErr result (IfPassed (PassesClearing pivot.now.row pivot.now.column list.old.rows.items)) }
{
    for i in 0..list.rows.len() {
        if let Some(factor) = pivot.factor_for(&list.rows[i]) {
            add_at(alloc, list, i, factor, pivot.row())?;
        }
    }
    Ok(())
}
