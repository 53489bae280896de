//! Eliminates a row all of whose columns have entered.

ghost use Rattle.std.specs.Prelude.{◌∷◌, [], ◌++◌, List, IfOk, IfErr};
ghost use Rattle.cone_definitions.specs.Rows.{Row};
ghost use Rattle.cone_definitions.specs.Unordered.{HasSurfaces};
ghost use Rattle.ray_steps.specs.Faults.{IfLarge};
ghost use Rattle.ray_steps.specs.Steps.{AreStepRays};
ghost use Rattle.ray_steps.specs.Rays.{rays_of};
ghost use Rattle.lazy_columns.specs.Passing.{PassesAt};

use cone_arithmetic::Limit;
use ray_steps::{Compatible, RayWithSupport, Step, StepFault, StepInput};
use std::alloc::Global;

/// The vertex surfaces of the rows so far together with `input.row`, in any order. Fails with `Large` at a ray or pair
/// at which a number exceeds `MAX_ENTRY`.
pub fn next_rays<C: Compatible>(
    alloc: Global,
    input: StepInput<C>,
) -> Result<Vec<RayWithSupport>, StepFault>
    requires { AreStepRays input.clashes.now.columns input.most input.clashes.now.pairs input.ray_list.items }
    ensures ok { IfOk result (λ next.
        (before : List Row) → HasSurfaces input.entry.clashes.now.columns before input.entry.clashes.now.pairs
        (rays_of input.entry.ray_list.items)
        → HasSurfaces input.entry.clashes.now.columns (before ++ input.entry.row.now ∷ []) input.entry.clashes.now.pairs
        (rays_of next.items)) }
    ensures err { IfErr result (IfLarge
        (PassesAt input.entry.clashes.now input.entry.row.now (rays_of input.entry.ray_list.items))) }
{
    let step = Step::of(alloc, input, Limit::MAX)?;
    step.next_by_fewer(alloc)
}
