//! Columns that enter: a column has a ray, its unit vector, from the first row on that contains it.

ghost use Rattle.std.specs.Prelude.{◌≡◌, ℕ, ◌<◌, true, false, [], List, slice_set, slice_index_or, IfOk, OnOk};
ghost use Rattle.cone_definitions.specs.Surfaces.{Clash};
ghost use Rattle.lazy_columns.specs.Late.{IsUnseen, AreLate, AreSeen, HaveEntered};
ghost use Rattle.lazy_columns.specs.Fresh.{IsLone};

use crate::late_rays::LateRays;
use cone_arithmetic::SparseRow;
use out_of_memory::NoMemory;
use ray_steps::RayWithSupport;
use std::alloc::Global;

/// No ray, and `columns` columns that have not entered.
pub fn none_seen(alloc: Global, columns: u32) -> Result<LateRays, NoMemory>
    ensures { IfOk result (λ late. (pairs : List Clash) → AreLate columns [] pairs late) }
{
    let ray_list = Vec::new(alloc);
    let seen = vec![in alloc; false; columns as usize]?;
    Ok(LateRays {
        columns,
        ray_list,
        seen,
    })
}

/// Whether `column` has not entered.
pub fn is_unseen(late: &LateRays, column: u32) -> bool
    ensures unseen { result ≡ true → IsUnseen late.now.seen.items column }
    ensures seen { result ≡ false → slice_index_or late.now.seen.items column true ≡ true }
{
    column < late.columns && !late.seen[column as usize]
}

/// Lets `column` enter, which has not entered before.
fn enter(alloc: Global, column: u32, late: &mut LateRays) -> Result<(), NoMemory>
    requires unseen { IsUnseen late.old.seen.items column }
    ensures columns { OnOk result (late.new.columns ≡ late.old.columns) }
    ensures entered { OnOk result (HaveEntered late.old.columns late.old late.new) }
    ensures seen { OnOk result (late.new.seen.items ≡ slice_set late.old.seen.items column true) }
{
    late.ray_list
        .push(RayWithSupport::unit(alloc, late.columns, column)?)?;
    late.seen[column as usize] = true;
    Ok(())
}

/// Lets `column` enter, unless it has entered before.
fn enter_unseen(alloc: Global, column: u32, late: &mut LateRays) -> Result<(), NoMemory>
    ensures columns { OnOk result (late.new.columns ≡ late.old.columns) }
    ensures entered { OnOk result (HaveEntered late.old.columns late.old late.new) }
    ensures seen { OnOk result (slice_index_or late.new.seen.items column true ≡ true) }
{
    if is_unseen(late, column) {
        enter(alloc, column, late)?;
    }
    Ok(())
}

/// Lets column `other` enter, unless it has entered before or is `column`.
fn enter_other(alloc: Global, other: u32, column: u32, late: &mut LateRays) -> Result<(), NoMemory>
    requires unseen { IsUnseen late.old.seen.items column }
    ensures columns { OnOk result (late.new.columns ≡ late.old.columns) }
    ensures entered { OnOk result (HaveEntered late.old.columns late.old late.new) }
    ensures seen { OnOk result (IsUnseen late.new.seen.items other → other ≡ column) }
    ensures unseen { OnOk result (IsUnseen late.new.seen.items column) }
{
    if other != column && is_unseen(late, other) {
        enter(alloc, other, late)?;
    }
    Ok(())
}

/// Lets all columns of `row` enter.
pub fn enter_row(alloc: Global, row: &SparseRow, late: &mut LateRays) -> Result<(), NoMemory>
    ensures columns { OnOk result (late.new.columns ≡ late.old.columns) }
    ensures entered { OnOk result (HaveEntered late.old.columns late.old late.new) }
    ensures seen { OnOk result (AreSeen late.new.seen.items row.now) }
{
    for (column, _) in row.entries() {
        enter_unseen(alloc, *column, late)?;
    }
    Ok(())
}

/// Lets all columns of `row` enter, except `column`.
pub fn enter_others(
    alloc: Global,
    row: &SparseRow,
    column: u32,
    late: &mut LateRays,
) -> Result<(), NoMemory>
    requires unseen { IsUnseen late.old.seen.items column }
    ensures columns { OnOk result (late.new.columns ≡ late.old.columns) }
    ensures entered { OnOk result (HaveEntered late.old.columns late.old late.new) }
    ensures lone { OnOk result (IsLone row.now late.new.seen.items column) }
    ensures unseen { OnOk result (IsUnseen late.new.seen.items column) }
{
    for (other, _) in row.entries() {
        enter_other(alloc, *other, column, late)?;
    }
    Ok(())
}

/// Lets all columns enter that have not entered in `late` before.
pub fn enter_all(alloc: Global, late: &mut LateRays) -> Result<(), NoMemory>
    ensures entered { OnOk result (HaveEntered late.old.columns late.old late.new) }
    ensures seen { OnOk result ((column : ℕ) → slice_index_or late.new.seen.items column true ≡ true) }
{
    for column in 0..late.columns {
        enter_unseen(alloc, column, late)?;
    }
    Ok(())
}
