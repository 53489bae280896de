//! Makes the row of an equation.

ghost use Rattle.std.specs.Prelude.{◌≡◌, ℕ, ◌+◌, ◌<◌, ◌≤◌, ◌++◌, length, slice_index, option_to_list, IfOk, OnOk};
ghost use Rattle.table_definitions.specs.Lists as lists;
ghost use Rattle.surface_definitions.specs.Equations as equations;
ghost use Rattle.cone_arithmetic.specs.Sparse.{IsInRange};

use cone_arithmetic::SparseRow;
use out_of_memory::NoMemory;
use smallvec::SmallVec;
use std::alloc::Global;

/// The two sides of an equation: the lists of columns whose sums are equal. Invariant: at most 1,000,000 columns each.
#[derive(Clone, Copy)]
pub struct Sides<'a> {
    pub left: &'a [u32],
    pub right: &'a [u32],
    pub ghost left_bounded: { length left.now ≤ 1000000 },
    pub ghost right_bounded: { length right.now ≤ 1000000 },
}

/// The number of occurrences of `column` in `columns`.
fn times_in(columns: &[u32], column: u32) -> u32
    requires { length columns.now ≤ 1000000 }
    ensures value { result ≡ lists.times_in columns.now column }
    ensures limited { result ≤ 1000000 }
{
    let mut times = 0;
    for other in columns {
        if *other == column {
            times += 1;
        }
    }
    times
}

/// The least of `columns` that is at least `from`, or `end` if none is below `end`.
fn next_column(columns: &[u32], from: u32, end: u32) -> u32
    requires { from ≤ end }
    ensures least { from ≤ result }
    ensures within { result ≤ end }
    ensures none_before { (i : ℕ) → i < length columns.now → from ≤ slice_index columns.now i
        → result ≤ slice_index columns.now i }
{
    let mut next = end;
    for column in columns {
        if from <= *column && *column < next {
            next = *column;
        }
    }
    next
}

/// Appends the term of `column`, unless its coefficient is 0.
fn push_term(
    terms: &mut SmallVec<(u32, i32), 8>,
    sides: Sides<'_>,
    column: u32,
) -> Result<(), NoMemory>
    ensures { OnOk result (terms.new.items
        ≡ terms.old.items ++ option_to_list
        (equations.term_of (record { left = sides.entry.left.now; right = sides.entry.right.now }) column)) }
{
    let plus = times_in(sides.left, column) as i32;
    let minus = times_in(sides.right, column) as i32;
    if plus != minus {
        terms.push((column, plus - minus))?;
    }
    Ok(())
}

/// The row of `columns` columns of the equation of `sides`: the sum of the left columns less that of the right ones.
pub fn row_of(alloc: Global, columns: u32, sides: Sides<'_>) -> Result<SparseRow, NoMemory>
    ensures value { IfOk result (λ row.
        row ≡ equations.row_of columns (record { left = sides.entry.left.now; right = sides.entry.right.now })) }
    ensures in_range { IfOk result (IsInRange columns) }
{
    let left = sides.left;
    let right = sides.right;
    let mut terms = SmallVec::new(alloc);
    let mut column = next_column(right, 0, next_column(left, 0, columns));
    while column < columns {
        push_term(&mut terms, sides, column)?;
        column = next_column(right, column + 1, next_column(left, column + 1, columns));
    }
    Ok(SparseRow::of(terms))
}
