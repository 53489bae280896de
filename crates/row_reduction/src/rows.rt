//! Rows over the same columns.

ghost use Rattle.std.specs.List.{All};
ghost use Rattle.cone_arithmetic.specs.Sparse.{IsInRange};

use cone_arithmetic::SparseRow;

/// A list of rows. Invariant: each of `rows` has columns below `columns`.
#[derive(Drop)]
pub(crate) struct RowList {
    pub columns: u32,
    pub rows: Vec<SparseRow>,
    pub ghost in_range: { All (IsInRange columns) rows.items },
}
