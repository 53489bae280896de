//! Free columns of a row: they have not entered, have the coefficient 1 or -1, and clash with no column.

ghost use Rattle.std.specs.Prelude.{◌≡◌, Contains, IfSome};
ghost use Rattle.cone_arithmetic.specs.Sparse.{IsSparse};
ghost use Rattle.ray_steps.specs.Clashes.{IsFree};
ghost use Rattle.lazy_columns.specs.Late.{IsUnseen};
ghost use Rattle.lazy_columns.specs.Fresh.{one_or_minus_one, IsFreeColumn};

use crate::entering::is_unseen;
use crate::row_step::RowStep;
use ray_steps::Compatible;

/// A free column of a row, and whether its coefficient is -1, so that the row has to be negated.
#[derive(Clone, Copy)]
pub struct NewColumn {
    pub column: u32,
    pub is_negated: bool,
}

/// Whether `coefficient` is -1 (true) or 1 (false); `None` if it is neither.
fn turning(coefficient: i32) -> Option<bool>
    ensures { IfSome result (λ is_negated. coefficient ≡ one_or_minus_one is_negated) }
{
    match coefficient {
        1 => Some(false),
        -1 => Some(true),
        _ => None,
    }
}

/// The first column of the row of `step` that has not entered and clashes with no column, and its coefficient.
fn first_free<C: Compatible>(step: &RowStep<C>) -> Option<(u32, i32)>
    ensures sparse { IsSparse step.now.row.now }
    ensures term { IfSome result (Contains step.now.row.now) }
    ensures unseen { IfSome result (λ term. IsUnseen step.now.late.seen.items term.0) }
    ensures free { IfSome result (λ term. IsFree step.now.clashes.now.pairs term.0) }
{
    for (column, coefficient) in step.row.entries() {
        if is_unseen(&step.late, *column) && step.clashes.is_free(*column) {
            return Some((*column, *coefficient));
        }
    }
    None
}

/// A column of the row of `step` that has not entered, has the coefficient 1 or -1 and clashes with no column. May
/// return `None` although there is one, which affects speed alone.
pub fn free_column<C: Compatible>(step: &RowStep<C>) -> Option<NewColumn>
    ensures { IfSome result (IsFreeColumn step.now.clashes.now.columns step.now.row.now step.now.clashes.now.pairs
        step.now.late.seen.items) }
{
    let (column, coefficient) = first_free(step)?;
    let is_negated = turning(coefficient)?;
    Some(NewColumn { column, is_negated })
}
