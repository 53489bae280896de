//! Heights of vertices, for which height plus quads are equal on both sides of each gluing. They spread from one vertex
//! of each class, whose height is so great that none falls below 0.

ghost use Rattle.std.specs.Prelude.{◌≡◌, ℕ, ◌+◌, ◌*◌, ◌<◌, Bool, true, false, List, [], length, slice_index_or, IfOk, OnOk};
ghost use Rattle.table_walk_laws.specs.Search.{IsMarked, IsClosed, IsSearch, IsSearchStep, work_left};
ghost use Rattle.skeleton_definitions.specs.Skeleton.{IsSkeleton};
ghost use Rattle.quad_lift.specs.Spreads.{vertices_around, neighbours_before, AreSpread, AreAllSpread};

use crate::crossing::VertexWithFace;
use crate::quad_vector::QuadVector;
use std::alloc::{AllocError, Global};

impl QuadVector<'_> {
    /// Sets the height of the vertex across the face `at`, and appends it to `pending`, unless it is marked.
    fn cross(
        &self,
        marked: &mut [bool],
        heights: &mut [u128],
        pending: &mut Vec<u32>,
        at: VertexWithFace,
    ) -> Result<(), AllocError>
        requires spread { AreSpread self.now.skeleton.now self.now.entries.now marked.old heights.old }
        requires marked { IsMarked marked.old at.vertex }
        ensures spread { OnOk result (AreSpread self.now.skeleton.now self.now.entries.now marked.new heights.new) }
        ensures kept { OnOk result ((i : ℕ) → IsMarked marked.old i → IsMarked marked.new i) }
        ensures turn { OnOk result ((first : List Bool)
            → IsSearchStep (vertices_around self.now.skeleton.now.rows) first at.vertex
            (neighbours_before self.now.skeleton.now.rows at.vertex at.face) marked.old pending.old.items
            → IsSearchStep (vertices_around self.now.skeleton.now.rows) first at.vertex
            (neighbours_before self.now.skeleton.now.rows at.vertex (at.face + 1)) marked.new pending.new.items) }
        ensures work { OnOk result (work_left marked.new pending.new.items ≡ work_left marked.old pending.old.items) }
    {
        let Some(step) = self.across(at) else {
            return Ok(());
        };
        let other = step.other as usize;
        if marked[other] {
            return Ok(());
        }
        pending.push(step.other)?;
        heights[other] = heights[at.vertex as usize] + step.up - step.down;
        marked[other] = true;
        Ok(())
    }

    /// As `cross`, for all faces at `vertex`.
    fn cross_all(
        &self,
        marked: &mut [bool],
        heights: &mut [u128],
        pending: &mut Vec<u32>,
        vertex: u32,
    ) -> Result<(), AllocError>
        requires spread { AreSpread self.now.skeleton.now self.now.entries.now marked.old heights.old }
        requires marked { IsMarked marked.old vertex }
        ensures spread { OnOk result (AreSpread self.now.skeleton.now self.now.entries.now marked.new heights.new) }
        ensures turn { OnOk result ((first : List Bool)
            → IsSearchStep (vertices_around self.now.skeleton.now.rows) first vertex [] marked.old pending.old.items
            → IsSearch (vertices_around self.now.skeleton.now.rows) first marked.new pending.new.items) }
        ensures work { OnOk result (work_left marked.new pending.new.items ≡ work_left marked.old pending.old.items) }
    {
        for face in 0..4 {
            let at = VertexWithFace { vertex, face };
            self.cross(marked, heights, pending, at)?;
        }
        Ok(())
    }

    /// Spreads heights over the class of `root`, which has none.
    fn spread(
        &self,
        alloc: Global,
        marked: &mut [bool],
        heights: &mut [u128],
        root: u32,
    ) -> Result<(), AllocError>
        requires skeleton { IsSkeleton self.now.skeleton.now }
        requires spread { AreSpread self.now.skeleton.now self.now.entries.now marked.old heights.old }
        requires closed { IsClosed (vertices_around self.now.skeleton.now.rows) marked.old }
        requires in_range { root < 4 * length self.now.skeleton.now.rows }
        requires unmarked { slice_index_or marked.old root false ≡ false }
        ensures spread { OnOk result (AreSpread self.now.skeleton.now self.now.entries.now marked.new heights.new) }
        ensures closed { OnOk result (IsClosed (vertices_around self.now.skeleton.now.rows) marked.new) }
        ensures kept { OnOk result ((i : ℕ) → IsMarked marked.old i → IsMarked marked.new i) }
        ensures root { OnOk result (IsMarked marked.new root) }
    {
        heights[root as usize] = self.start;
        marked[root as usize] = true;
        let mut pending = Vec::new(alloc);
        pending.push(root)?;
        while let Some(vertex) = pending.pop() {
            self.cross_all(marked, heights, &mut pending, vertex)?;
        }
        Ok(())
    }

    /// The heights of all vertices of the quad vector.
    pub fn heights(&self, alloc: Global) -> Result<Vec<u128>, AllocError>
        ensures { IfOk result (λ heights. AreAllSpread self.now.skeleton.now self.now.entries.now heights.items) }
    {
        let count = 4 * self.skeleton.table().len();
        let mut marked = vec![in alloc; false; count as usize]?;
        let mut heights = vec![in alloc; self.start; count as usize]?;
        for root in 0..count {
            if !marked[root as usize] {
                self.spread(alloc, &mut marked, &mut heights, root)?;
            }
        }
        Ok(heights)
    }
}
