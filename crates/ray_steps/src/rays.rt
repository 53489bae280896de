//! The rays of a step with their supports, and the errors of a step.

ghost use Rattle.std.specs.Prelude.{◌≡◌, ◌<◌, IfOk};
ghost use Rattle.cone_definitions.specs.Vectors.{unit};
ghost use Rattle.support_bits.specs.Columns.{support_of};

use cone_arithmetic::{PackedRay, Ray};
use out_of_memory::NoMemory;
use std::alloc::{AllocError, AllocFailed, Global};
use support_bits::Support;

/// A ray and its support. Invariant: the support is that of the ray.
#[derive(Drop)]
pub struct RayWithSupport {
    pub ray: PackedRay,
    pub support: Support,
    ghost matches: { support ≡ support_of ray },
}

impl RayWithSupport {
    /// The unit vector with `columns` entries whose entry `place` is 1, and its support.
    pub fn unit(alloc: Global, columns: u32, place: u32) -> Result<RayWithSupport, NoMemory>
        requires { place < columns }
        ensures { IfOk result (λ kept. kept.ray ≡ unit columns place) }
    {
        let ray = PackedRay::unit(alloc, columns, place)?;
        let mut support = Support::none(alloc, columns)?;
        support.insert(place);
        Ok(RayWithSupport { ray, support })
    }
}

/// What exceeds the limit: the positive or negative part of the row at a ray (`Value`), or an entry of the combination
/// of two rays (`Pair`).
pub type LargeKind = cone_definitions::LargeKind<Ray>;

/// Why a step fails: a number exceeds the limit, or memory ran out.
#[derive(Drop)]
pub enum StepFault {
    Large(LargeKind),
    NoMemory,
}

impl From<NoMemory> for StepFault {
    ghost use Rattle.std.specs.Prelude.{◌≡◌};
    ghost use Rattle.ray_steps.specs.declared.rays.StepFault.TheVariants.{NoMemory};

    ghost from_gives = { λ _ fault. fault ≡ NoMemory };

    fn from(_error: NoMemory) -> StepFault {
        StepFault::NoMemory
    }
}

impl From<AllocError> for StepFault {
    ghost use Rattle.std.specs.Prelude.{◌≡◌};
    ghost use Rattle.ray_steps.specs.declared.rays.StepFault.TheVariants.{NoMemory};

    ghost from_gives = { λ _ fault. fault ≡ NoMemory };

    fn from(_error: AllocError) -> StepFault {
        StepFault::NoMemory
    }
}

impl<T: Drop> From<AllocFailed<T>> for StepFault {
    ghost use Rattle.std.specs.Prelude.{◌≡◌};
    ghost use Rattle.ray_steps.specs.declared.rays.StepFault.TheVariants.{NoMemory};

    ghost from_gives = { λ _ fault. fault ≡ NoMemory };

    fn from(_failed: AllocFailed<T>) -> StepFault {
        StepFault::NoMemory
    }
}
