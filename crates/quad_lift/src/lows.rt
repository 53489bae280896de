//! The least height of each vertex class.

ghost use Rattle.std.specs.Prelude.{IfOk};
ghost use Rattle.quad_lift.specs.Agreements.{AreLeastHeights};

use crate::quad_vector::Heights;
use std::alloc::{AllocError, Global};

impl Heights<'_> {
    /// The least height of each vertex class.
    pub fn lows(&self, alloc: Global) -> Result<Vec<u128>, AllocError>
        ensures { IfOk result (λ lows. AreLeastHeights self.now.vector.skeleton.now self.now.values.now lows.items) }
    {
        let skeleton = self.vector.skeleton;
        let mut lows = vec![in alloc; u128::MAX; skeleton.vertices() as usize]?;
        for vertex in 0..4 * skeleton.table().len() {
            let class = skeleton.vertex_class(vertex / 4, (vertex % 4) as u8);
            if self.values[vertex as usize] < lows[class as usize] {
                lows[class as usize] = self.values[vertex as usize];
            }
        }
        Ok(lows)
    }
}
