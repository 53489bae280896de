//! Sums of squares of the coefficients in each column.

ghost use Rattle.std.specs.Prelude.{◌≡◌, ℕ, ◌+◌, ◌*◌, ◌^◌, ◌<◌, ◌≤◌, IsTrue, IsFalse, IfOk, IfSome, IfNone, length, slice_index};
ghost use Rattle.cone_arithmetic.specs.Sparse.{IsInRange, IsSparse};
ghost use Rattle.cone_bound_laws.specs.Caps.{magnitude, row_weight};
ghost use Rattle.number_bounds.specs.Squares.{AreSquares, HasHeavyColumn};

use cone_arithmetic::System;
use out_of_memory::NoMemory;
use std::alloc::Global;

/// The square of `coefficient`.
fn square_of(coefficient: i32) -> u64
    ensures { result ≡ magnitude coefficient * magnitude coefficient }
{
    let size = u64::from(coefficient.unsigned_abs());
    size * size
}

/// Adds the squares of the coefficients of `row` to their columns; false if a sum exceeds 2^64 - 1.
fn add_row(squares: &mut [u64], row: &[(u32, i32)]) -> bool
    requires in_range { IsInRange (length squares.old) row.now }
    requires sparse { IsSparse row.now }
    ensures added { IsTrue result → (j : ℕ)
        → slice_index squares.new j ≡ slice_index squares.old j + row_weight j row.now * row_weight j row.now }
    ensures exceeded { IsFalse result → (j : ℕ) × (j < length squares.old)
        × (2 ^ 64 ≤ slice_index squares.old j + row_weight j row.now * row_weight j row.now) }
{
    for (column, coefficient) in row {
        let place = *column as usize;
        match squares[place].checked_add(square_of(*coefficient)) {
            Some(sum) => squares[place] = sum,
            None => return false,
        }
    }
    true
}

/// The sum of the squares of the coefficients in each column of `system`; `None` if one exceeds 2^64 - 1.
pub fn column_squares(alloc: Global, system: &System) -> Result<Option<Vec<u64>>, NoMemory>
    ensures some { IfOk result (λ found. IfSome found (λ squares. AreSquares system.now squares.items)) }
    ensures none { IfOk result (λ found. IfNone found (HasHeavyColumn system.now)) }
{
    let mut squares = vec![in alloc; 0u64; system.columns() as usize]?;
    for number in 0..system.len() {
        if !add_row(&mut squares, system.row(number).entries()) {
            return Ok(None);
        }
    }
    Ok(Some(squares))
}
