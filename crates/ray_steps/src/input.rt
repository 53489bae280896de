//! The input of a step.

ghost use Rattle.cone_arithmetic.specs.Sparse.{IsInRange};

use crate::compatible::{Clashes, Compatible};
use crate::rays::RayWithSupport;
use cone_arithmetic::SparseRow;

/// The input of a step: the clashing pairs, the row to process, and the rays so far. The union of the supports of an
/// adjacent pair has at most `most` columns.
#[derive(Drop)]
pub struct StepInput<'a, C: Compatible> {
    pub clashes: &'a Clashes<C>,
    pub row: &'a SparseRow,
    pub ray_list: Vec<RayWithSupport>,
    pub most: u64,
    pub ghost in_range: { IsInRange clashes.now.columns row.now },
}
