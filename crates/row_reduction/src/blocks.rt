//! Brings a system into solved form: rows without a pivot first, then one row for each pivot.

ghost use Rattle.std.specs.Prelude.{◌≡◌, ◌<◌, ◌+◌, ◌++◌, length, IfOk, OnOk, IfErr};
ghost use Rattle.cone_row_laws.specs.Solutions.{HaveSameZeros, HaveSameSolutions};
ghost use Rattle.row_reduction.specs.Clearing.{AddsRow};
ghost use Rattle.row_reduction.specs.Eliminating.{IsPivotBelow, AreSolvedFor, AreEliminated, KeepsRow, AreKept};
ghost use Rattle.row_reduction.specs.Passing.{PassesFor, PassesAtPivot, PassesAmong, HasPassedSum, IfPassed};

use crate::clear::{Pivot, clear_rows, coefficient_at, copy};
use crate::fault::SolveFault;
use crate::known::contains_up_to_sign;
use crate::late::{named_columns, put_further_last};
use crate::order::in_cheapest_order;
use crate::rows::RowList;
use crate::thin::{Thinned, sparsify};
use cone_arithmetic::{SparseRow, System};
use out_of_memory::NoMemory;
use std::alloc::Global;

/// The rows without a pivot, and the pivot rows, over the same columns.
#[derive(Drop)]
struct Blocks {
    unsolved: RowList,
    solved: RowList,
    ghost same_columns: { solved.columns ≡ unsolved.columns },
}

/// Which of `place` and `best` has fewer terms, `best` if both have the same number; `best` if the coefficient of row
/// `place` at `column` is neither 1 nor -1.
fn better_place(rows: &[SparseRow], column: u32, best: Option<usize>, place: usize) -> Option<usize>
    requires within { place < length rows.now }
    requires best { IsPivotBelow column rows.now place best }
    ensures { IsPivotBelow column rows.now (place + 1) result }
{
    if coefficient_at(&rows[place], column).unsigned_abs() != 1 {
        return best;
    }
    match best {
        Some(other) => {
            if rows[other].entries().len() <= rows[place].entries().len() {
                Some(other)
            } else {
                Some(place)
            }
        }
        None => Some(place),
    }
}

/// The index of the first row with the fewest terms among those whose coefficient at `column` is 1 or -1, or `None`.
fn pivot_place(rows: &[SparseRow], column: u32) -> Option<usize>
    ensures { IsPivotBelow column rows.now (length rows.now) result }
{
    let mut best = None;
    for place in 0..rows.len() {
        best = better_place(rows, column, best, place);
    }
    best
}

/// Copies the rows of `system`.
fn rows_of(alloc: Global, system: &System) -> Result<RowList, NoMemory>
    ensures columns { IfOk result (λ list. list.columns ≡ system.now.columns) }
    ensures same { IfOk result (λ list. list.rows.items ≡ system.now.rows) }
{
    let mut rows = Vec::with_capacity(alloc, system.len() as usize)?;
    for i in 0..system.len() {
        rows.push(copy(alloc, system.row(i))?)?;
    }
    let columns = system.columns();
    Ok(RowList { columns, rows })
}

/// Eliminates `column`, if an unsolved row has the coefficient 1 or -1 there: that row becomes a pivot row, and the
/// column is cleared from all other rows. Fails with `Passed` if a coefficient exceeds 1,000,000.
fn solve_column(alloc: Global, blocks: &mut Blocks, column: u32) -> Result<(), SolveFault>
    ensures columns { blocks.new.unsolved.columns ≡ blocks.old.unsolved.columns }
    ensures same { OnOk result (HaveSameZeros (blocks.old.unsolved.rows.items ++ blocks.old.solved.rows.items)
        (blocks.new.unsolved.rows.items ++ blocks.new.solved.rows.items)) }
    ensures solves { OnOk result (AreSolvedFor column blocks.old.unsolved.rows.items blocks.old.solved.rows.items
        blocks.new.unsolved.rows.items blocks.new.solved.rows.items) }
    ensures passed { IfErr result (IfPassed
        (PassesFor column blocks.old.unsolved.rows.items blocks.old.solved.rows.items)) }
{
    let Some(place) = pivot_place(&blocks.unsolved.rows, column) else {
        return Ok(());
    };
    let row = blocks.unsolved.rows.remove(place);
    let unit = coefficient_at(&row, column);
    let pivot = Pivot { row, column, unit };
    clear_rows(alloc, &mut blocks.unsolved, &pivot)?;
    clear_rows(alloc, &mut blocks.solved, &pivot)?;
    blocks.solved.rows.push(pivot.row)?;
    Ok(())
}

/// Eliminates the columns `pivots` from the rows of `system`, one by one. Fails with `Passed` if a coefficient exceeds
/// 1,000,000.
fn solve_columns(alloc: Global, system: &System, pivots: &[u32]) -> Result<Blocks, SolveFault>
    ensures columns { IfOk result (λ blocks. blocks.unsolved.columns ≡ system.now.columns) }
    ensures same { IfOk result (λ blocks.
        HaveSameZeros system.now.rows (blocks.unsolved.rows.items ++ blocks.solved.rows.items)) }
    ensures eliminated { IfOk result
        (λ blocks. AreEliminated system.now.rows pivots.now blocks.unsolved.rows.items blocks.solved.rows.items) }
    ensures passed { IfErr result (IfPassed (PassesAtPivot system.now.rows pivots.now)) }
{
    let unsolved = rows_of(alloc, system)?;
    let solved = RowList {
        columns: unsolved.columns,
        rows: Vec::new(alloc),
    };
    let mut blocks = Blocks { unsolved, solved };
    for column in pivots {
        solve_column(alloc, &mut blocks, *column)?;
    }
    Ok(blocks)
}

/// Appends `row`, unless it is empty or `rows` contains it or its negative.
fn push_distinct(rows: &mut Vec<SparseRow>, row: SparseRow) -> Result<(), NoMemory>
    ensures adds { OnOk result (AddsRow rows.old.items row rows.new.items) }
    ensures keeps { OnOk result (KeepsRow rows.old.items row rows.new.items) }
{
    if !row.entries().is_empty() && !contains_up_to_sign(rows, &row) {
        rows.push(row)?;
    }
    Ok(())
}

/// The rows of `list` without empty ones and without repetition, a row and its negative counted as one.
fn distinct_rows(alloc: Global, list: RowList) -> Result<RowList, NoMemory>
    ensures columns { IfOk result (λ kept. kept.columns ≡ list.columns) }
    ensures same { IfOk result (λ kept. HaveSameZeros list.rows.items kept.rows.items) }
    ensures kept { IfOk result (λ kept. AreKept list.rows.items kept.rows.items) }
{
    let RowList { columns, rows } = list;
    let mut kept = Vec::with_capacity(alloc, rows.len())?;
    for row in rows {
        push_distinct(&mut kept, row)?;
    }
    Ok(RowList {
        columns,
        rows: kept,
    })
}

/// The rows `unsolved` without repetition, made sparser and then ordered; rows that become empty or equal are dropped.
/// Fails with `Passed` if a coefficient exceeds 1,000,000.
fn ordered_rows(alloc: Global, each: u32, unsolved: RowList) -> Result<RowList, SolveFault>
    ensures columns { IfOk result (λ list. list.columns ≡ unsolved.columns) }
    ensures same { IfOk result (λ list. HaveSameZeros unsolved.rows.items list.rows.items) }
    ensures passed { IfErr result (IfPassed (PassesAmong unsolved.rows.items)) }
{
    let distinct = distinct_rows(alloc, unsolved)?;
    let Thinned { list, is_changed } = sparsify(alloc, distinct)?;
    let ordered = in_cheapest_order(alloc, each, list)?;
    if is_changed {
        Ok(distinct_rows(alloc, ordered)?)
    } else {
        Ok(ordered)
    }
}

/// A system of the rows of `list`.
fn system_of(alloc: Global, list: RowList) -> Result<System, NoMemory>
    ensures columns { IfOk result (λ system. system.columns ≡ list.columns) }
    ensures rows { IfOk result (λ system. system.rows ≡ list.rows.items) }
{
    let RowList { columns, rows } = list;
    let mut system = System::new(alloc, columns);
    for row in rows {
        // never: there are at most as many rows as in the system that they come from
        if system.len() == u32::MAX {
            return Err(NoMemory);
        }
        system.push_row(row)?;
    }
    Ok(system)
}

/// Brings `system` into solved form for the columns `pivots`; the solutions stay the same. First come the rows without
/// a pivot, made sparser and ordered so that new blocks of `each` columns occur late; then the pivot rows in the order
/// of `pivots`, those that name a further column last. Fails with `Passed` only if a coefficient of one of these sums
/// exceeds 1,000,000:
/// - a row with the multiple of a pivot row that cancels its term, when the columns before in `pivots` are eliminated;
/// - after all `pivots`, a row without a pivot with 1 or -1 times another such row, if that cancels a term.
pub fn solve(
    alloc: Global,
    system: &System,
    each: u32,
    pivots: &[u32],
) -> Result<System, SolveFault>
    ensures columns { IfOk result (λ solved. solved.columns ≡ system.now.columns) }
    ensures same { IfOk result (λ solved. HaveSameSolutions system.now.columns system.now.rows solved.rows) }
    ensures passed { IfErr result (IfPassed (HasPassedSum system.now.rows pivots.now)) }
{
    let Blocks { unsolved, solved } = solve_columns(alloc, system, pivots)?;
    let RowList {
        rows: mut solved,
        ..
    } = solved;
    let RowList { columns, mut rows } = ordered_rows(alloc, each, unsolved)?;
    let named = named_columns(alloc, columns, pivots, &rows)?;
    put_further_last(&named, &mut solved)?;
    // each pivot row has a column that is in no other row, so it is not empty, and equal to none
    rows.append(&mut solved)?;
    Ok(system_of(alloc, RowList { columns, rows })?)
}
