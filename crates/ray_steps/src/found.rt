//! Pairs of rays of a step that are found by residuals.

ghost use Rattle.std.specs.Prelude.{◌<◌, length};

use crate::compatible::Compatible;
use crate::step::Step;

/// Two rays of a step, by their indices.
#[derive(Drop)]
pub struct FoundPair<'a, 'b, C: Compatible> {
    pub step: &'b Step<'a, C>,
    pub i: usize,
    pub j: usize,
    pub ghost first: { i < length step.now.rays },
    pub ghost second: { j < length step.now.rays },
}
