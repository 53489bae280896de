//! One step of the double description method: its data, and the rays after it.

ghost use Rattle.std.specs.Prelude.{◌≡◌, ◌<◌, IfOk, IfErr};
ghost use Rattle.ray_steps.specs.Faults.{IfLarge, IsFirstLargeValue};
ghost use Rattle.ray_steps.specs.Rays.{rays_of, AreOfWidth};
ghost use Rattle.ray_steps.specs.Signs.{IsNextFrom};
ghost use Rattle.ray_steps.specs.Steps.{AreStepRays, IsStepOf, AreCombinedOf, IsFirstLargeOf, IsFirstLargeEitherWay, negated_step};

use crate::combinations::Combinations;
use crate::compatible::{Clashes, Compatible};
use crate::input::StepInput;
use crate::negated::{has_more_positives, negated_signs};
use crate::rays::{RayWithSupport, StepFault};
use crate::signs::{RowAndRays, Sign, signs_at};
use crate::zeros::keep_zeros;
use cone_arithmetic::Limit;
use out_of_memory::NoMemory;
use std::alloc::Global;
use std::marker::Model;

/// The rays so far with their supports, the sign of the step's row at each, and the clashing columns. The union of the
/// supports of an adjacent pair has at most `most` columns, and no number may exceed `limit`. Two rays are adjacent if
/// the union of their supports contains no clashing pair and the support of no third ray.
#[derive(Drop)]
pub struct Step<'a, C: Compatible> {
    pub(crate) clashes: &'a Clashes<C>,
    pub(crate) ray_list: Vec<RayWithSupport>,
    pub(crate) signs: Vec<Sign>,
    pub(crate) most: u64,
    pub(crate) limit: Limit,
}

impl<'a, C: Compatible> Model for Step<'a, C> {
    ghost use Rattle.ray_steps.specs.Rays.{rays_of};
    ghost use Rattle.ray_steps.specs.Steps.{StepData, IsStep};

    ghost Value = { StepData };

    ghost view = { λ s. record { columns = s.clashes.now.columns; pairs = s.clashes.now.pairs; rays = rays_of s.ray_list.items; signs = s.signs.items; limit = s.limit.number } };

    ghost invariant = { λ s. IsStep s.clashes.now.columns s.clashes.now.pairs s.ray_list.items s.signs.items s.most s.limit.number };
}

impl<'a, C: Compatible> Step<'a, C> {
    /// The step for `input.row`. Fails with `Large` and the first ray at which a part of the row exceeds `limit`.
    pub fn of(
        alloc: Global,
        input: StepInput<'a, C>,
        limit: Limit,
    ) -> Result<Step<'a, C>, StepFault>
        requires { AreStepRays input.clashes.now.columns input.most input.clashes.now.pairs input.ray_list.items }
        ensures ok { IfOk result (IsStepOf limit.number input.entry.clashes.now input.entry.row.now
            (rays_of input.entry.ray_list.items)) }
        ensures err { IfErr result (IfLarge
            (IsFirstLargeValue limit.number input.entry.row.now (rays_of input.entry.ray_list.items))) }
    {
        let row_and_rays = RowAndRays {
            row: input.row,
            ray_list: &input.ray_list,
        };
        let signs = signs_at(alloc, row_and_rays, limit.number)?;
        Ok(Step {
            clashes: input.clashes,
            ray_list: input.ray_list,
            signs,
            most: input.most,
            limit,
        })
    }

    /// The step for the negated row, and the former signs.
    pub fn negated(self, alloc: Global) -> Result<(Step<'a, C>, Vec<Sign>), NoMemory>
        ensures step { IfOk result (λ both. both.0 ≡ negated_step self.entry) }
        ensures signs { IfOk result (λ both. both.1.items ≡ self.entry.signs) }
    {
        let signs = negated_signs(alloc, &self.signs)?;
        let negated = Step {
            clashes: self.clashes,
            ray_list: self.ray_list,
            signs,
            most: self.most,
            limit: self.limit,
        };
        Ok((negated, self.signs))
    }

    /// The combinations of all adjacent pairs in any order, with the rays and signs of the step. Iterates over the rays
    /// of the rarer sign, since compatible rays are gathered once for each. Fails with a pair of which an entry exceeds
    /// the limit.
    pub fn combinations_by_fewer(self, alloc: Global) -> Result<Combinations, StepFault>
        ensures ok { IfOk result (AreCombinedOf self.entry) }
        ensures err { IfErr result (IfLarge (IsFirstLargeEitherWay self.entry)) }
    {
        if has_more_positives(&self.signs) {
            let (step, signs) = self.negated(alloc)?;
            let made = step.combine_all(alloc)?;
            return Ok(Combinations {
                ray_list: step.ray_list,
                signs,
                made,
            });
        }
        let made = self.combine_all(alloc)?;
        Ok(Combinations {
            ray_list: self.ray_list,
            signs: self.signs,
            made,
        })
    }

    /// The rays after this step: the combinations of all adjacent pairs, then the rays of sign zero. Fails with `Large`
    /// at the first pair of which an entry exceeds the limit.
    pub fn next(self, alloc: Global) -> Result<Vec<RayWithSupport>, StepFault>
        ensures ok { IfOk result (λ next.
            IsNextFrom self.entry.limit self.entry.pairs self.entry.rays self.entry.signs 0 (rays_of next.items)) }
        ensures widths { IfOk result (λ next. AreOfWidth self.entry.columns next.items) }
        ensures err { IfErr result (IfLarge (IsFirstLargeOf self.entry)) }
    {
        let mut next = self.combine_all(alloc)?;
        keep_zeros(self.ray_list, &self.signs, &mut next)?;
        Ok(next)
    }

    /// The rays after this step, in any order. Fails with a pair of which an entry exceeds the limit, not always the
    /// first.
    pub fn next_by_fewer(self, alloc: Global) -> Result<Vec<RayWithSupport>, StepFault>
        ensures ok { IfOk result (λ next.
            IsNextFrom self.entry.limit self.entry.pairs self.entry.rays self.entry.signs 0 (rays_of next.items)) }
        ensures widths { IfOk result (λ next. AreOfWidth self.entry.columns next.items) }
        ensures err { IfErr result (IfLarge (IsFirstLargeEitherWay self.entry)) }
    {
        let parts = self.combinations_by_fewer(alloc)?;
        let mut next = parts.made;
        keep_zeros(parts.ray_list, &parts.signs, &mut next)?;
        Ok(next)
    }
}
