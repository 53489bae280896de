//! The sum of a row and a multiple of another, merged by ascending columns.

ghost use Rattle.std.specs.Prelude.{◌<◌, ◌≤◌, ◌≡◌, ◌⊎◌, length, IfOk, OnOk, IfErr, IfSome, IsNone, unsigned_abs};
ghost use Rattle.cone_arithmetic.specs.Sparse.{IsSparse, IsInRange};
ghost use Rattle.cone_row_laws.specs.Operations.{IsSumWith};
ghost use Rattle.row_reduction.specs.Merging.{next_column, IsLeastColumn, IsTaken, IsCoefficientSum, AppendsSum};
ghost use Rattle.row_reduction.specs.Passing.{PassesSum, PassesAtColumn, IfPassed};

use crate::fault::SolveFault;
use cone_arithmetic::{MAX_COEFFICIENT, SparseRow};
use smallvec::SmallVec;
use std::alloc::Global;

/// The terms of two rows. Invariant: in each, the columns ascend strictly and are below `columns`, and no coefficient
/// is 0 or exceeds 1,000,000.
#[derive(Clone, Copy)]
pub(crate) struct RowPair<'a> {
    pub columns: u32,
    pub row: &'a [(u32, i32)],
    pub other: &'a [(u32, i32)],
    pub ghost sparse: { IsSparse row.now },
    pub ghost other_sparse: { IsSparse other.now },
    pub ghost in_range: { IsInRange columns row.now },
    pub ghost other_in_range: { IsInRange columns other.now },
}

/// The coefficient of a row at a column, and the index of its next term.
#[derive(Clone, Copy)]
struct EntryAt {
    coefficient: i32,
    place: usize,
}

/// The column of the term with index `place`, or `columns` after the last term.
fn column_at(terms: &[(u32, i32)], place: usize, columns: u32) -> u32
    ensures { result ≡ next_column columns terms.now place }
{
    if place < terms.len() {
        terms[place].0
    } else {
        columns
    }
}

/// The least column among the terms of the row from `i` on and of the other from `j` on, at least one of which has a
/// term left.
fn least_column(pair: &RowPair<'_>, i: usize, j: usize) -> u32
    requires left { (i < length pair.now.row.now) ⊎ (j < length pair.now.other.now) }
    ensures { IsLeastColumn pair.now.columns pair.now.row.now i pair.now.other.now j result }
{
    column_at(pair.row, i, pair.columns).min(column_at(pair.other, j, pair.columns))
}

/// The coefficient of the term with index `place` if that is at `column`, and else 0; and the index of the term that
/// comes next.
fn take_at(terms: &[(u32, i32)], place: usize, column: u32) -> EntryAt
    ensures { IsTaken terms.now place column result.coefficient result.place }
{
    if place < terms.len() && terms[place].0 == column {
        EntryAt {
            coefficient: terms[place].1,
            place: place + 1,
        }
    } else {
        EntryAt {
            coefficient: 0,
            place,
        }
    }
}

/// `number + factor * other`, or `None` if the product or the sum overflows.
fn sum_with_product(number: i32, factor: i32, other: i32) -> Option<i32>
    ensures sum { IfSome result (IsCoefficientSum number factor other) }
    ensures passed { IsNone result → unsigned_abs number ≤ 1000000 → PassesSum number factor other }
{
    let product = factor.checked_mul(other)?;
    product.checked_add(number)
}

/// Appends the term `number + factor * other` at `column`, unless it is 0. Fails with `Passed` if its absolute value
/// exceeds 1,000,000.
fn push_sum(
    terms: &mut SmallVec<(u32, i32), 8>,
    column: u32,
    number: i32,
    factor: i32,
    other: i32,
) -> Result<(), SolveFault>
    ensures appends { OnOk result (AppendsSum terms.old.items column number factor other terms.new.items) }
    ensures passed { unsigned_abs number ≤ 1000000 → IfErr result (IfPassed (PassesSum number factor other)) }
{
    match sum_with_product(number, factor, other) {
        Some(sum) if sum.unsigned_abs() <= MAX_COEFFICIENT => {
            if sum != 0 {
                terms.push((column, sum))?;
            }
            Ok(())
        }
        Some(_) => Err(SolveFault::Passed),
        None => Err(SolveFault::Passed),
    }
}

/// The terms of `row + factor * other`, by ascending column. Fails with `Passed` if a coefficient exceeds 1,000,000.
fn merge_rows(
    alloc: Global,
    pair: &RowPair<'_>,
    factor: i32,
) -> Result<SmallVec<(u32, i32), 8>, SolveFault>
    ensures sum { IfOk result (λ terms. IsSumWith pair.now.row.now factor pair.now.other.now terms.items) }
    ensures sparse { IfOk result (λ terms. IsSparse terms.items) }
    ensures in_range { IfOk result (λ terms. IsInRange pair.now.columns terms.items) }
    ensures passed { IfErr result (IfPassed (PassesAtColumn pair.now.row.now factor pair.now.other.now)) }
{
    let mut terms = SmallVec::new(alloc);
    let mut i = 0;
    let mut j = 0;
    while i < pair.row.len() || j < pair.other.len() {
        let column = least_column(pair, i, j);
        let one = take_at(pair.row, i, column);
        let two = take_at(pair.other, j, column);
        push_sum(&mut terms, column, one.coefficient, factor, two.coefficient)?;
        i = one.place;
        j = two.place;
    }
    Ok(terms)
}

/// The row `row + factor * other`. Fails with `Passed` if a coefficient exceeds 1,000,000.
pub(crate) fn add_multiple(
    alloc: Global,
    pair: &RowPair<'_>,
    factor: i32,
) -> Result<SparseRow, SolveFault>
    ensures sum { IfOk result (λ sum. IsSumWith pair.now.row.now factor pair.now.other.now sum) }
    ensures in_range { IfOk result (IsInRange pair.now.columns) }
    ensures sparse { IfOk result IsSparse }
    ensures passed { IfErr result (IfPassed (PassesAtColumn pair.now.row.now factor pair.now.other.now)) }
{
    let terms = merge_rows(alloc, pair, factor)?;
    Ok(SparseRow::of(terms))
}
