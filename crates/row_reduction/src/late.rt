//! Orders the pivot rows: those that name a further column come last.

ghost use Rattle.std.specs.List.Sorted.{IsPermutation};

use cone_arithmetic::SparseRow;
use out_of_memory::NoMemory;
use std::alloc::Global;

/// Marks `column` as named.
fn mark_named(named: &mut [bool], column: u32) {
    let place = column as usize;
    if place < named.len() {
        named[place] = true;
    }
}

/// Marks the columns of `row` as named.
fn mark_columns_of(named: &mut [bool], row: &SparseRow) {
    for (column, _) in row.entries() {
        mark_named(named, *column);
    }
}

/// Marks the columns of all `rows` as named.
fn mark_all_columns(named: &mut [bool], rows: &[SparseRow]) {
    for row in rows {
        mark_columns_of(named, row);
    }
}

/// For each column, whether it is one of the `pivots` or occurs in one of the `rows`.
pub(crate) fn named_columns(
    alloc: Global,
    columns: u32,
    pivots: &[u32],
    rows: &[SparseRow],
) -> Result<Vec<bool>, NoMemory> {
    let mut named = vec![in alloc; false; columns as usize]?;
    for column in pivots {
        mark_named(&mut named, *column);
    }
    mark_all_columns(&mut named, rows);
    Ok(named)
}

/// Whether `row` has a column that is not marked in `named`.
fn names_further(named: &[bool], row: &SparseRow) -> bool {
    for (column, _) in row.entries() {
        let place = *column as usize;
        if place < named.len() && !named[place] {
            return true;
        }
    }
    false
}

/// Moves the rows with a column that is not in `named` to the end; otherwise the order stays. The unit vector of such a
/// column is then combined with the fewest rays and rows.
pub(crate) fn put_further_last(named: &[bool], rows: &mut Vec<SparseRow>) -> Result<(), NoMemory>
    ensures { IsPermutation rows.old.items rows.new.items }
{
    rows.sort_by_key(|row| names_further(named, row))?;
    Ok(())
}
