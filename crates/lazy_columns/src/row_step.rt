//! The input of a row's step.

ghost use Rattle.std.specs.Prelude.{◌≡◌};
ghost use Rattle.cone_arithmetic.specs.Sparse.{IsInRange};

use crate::late_rays::LateRays;
use cone_arithmetic::SparseRow;
use ray_steps::{Clashes, Compatible};

/// A row to process, after those of which `late` has the rays. The union of the supports of an adjacent pair has at
/// most `most` columns. Invariant: the row and `late` are over the columns of `clashes`.
#[derive(Drop)]
pub struct RowStep<'a, C: Compatible> {
    pub clashes: &'a Clashes<C>,
    pub row: &'a SparseRow,
    pub late: LateRays,
    pub most: u64,
    pub ghost in_range: { IsInRange clashes.now.columns row.now },
    pub ghost width: { late.columns ≡ clashes.now.columns },
}
