//! The combination of a pair of rays.

ghost use Rattle.std.specs.Prelude.{◌≡◌, ◌≤◌, length, IfOk, IfErr};
ghost use Rattle.cone_arithmetic.specs.Combinations.{IsReducedBy};
ghost use Rattle.ray_steps.specs.Faults.{IfLarge, IsLargeSumOf};

use crate::rays::{LargeKind, RayWithSupport, StepFault};
use cone_arithmetic::{CombineFault, Limit, RayPair, combine_inside};
use std::alloc::Global;

/// Two rays with equally many entries. The row has the positive value `at_u` at `u`, and the negative value `-at_w` at
/// `w`.
#[derive(Clone, Copy)]
pub struct SignedPair<'a> {
    pub u: &'a RayWithSupport,
    pub w: &'a RayWithSupport,
    pub at_u: u128,
    pub at_w: u128,
    pub ghost lengths: { length u.now.ray ≡ length w.now.ray },
    pub ghost some_u: { 1 ≤ at_u },
    pub ghost some_w: { 1 ≤ at_w },
}

/// The combination `(at_u / d) * w + (at_w / d) * u`, where `d` is the greatest common divisor of `at_u` and `at_w`,
/// divided by the common divisor of its entries; its support is the union of the supports of `u` and `w`. Fails with
/// `Large` and both rays if an entry exceeds `limit` before that last division.
pub fn combine_pair(
    alloc: Global,
    pair: SignedPair,
    limit: Limit,
) -> Result<RayWithSupport, StepFault>
    ensures ok { IfOk result (λ kept.
        IsReducedBy limit.number pair.entry.at_u pair.entry.at_w pair.entry.u.now.ray pair.entry.w.now.ray kept.ray) }
    ensures err { IfErr result (IfLarge
        (IsLargeSumOf limit.number pair.entry.at_u pair.entry.at_w pair.entry.u.now.ray pair.entry.w.now.ray)) }
{
    let SignedPair { u, w, at_u, at_w } = pair;
    let _columns = u.ray.columns();
    let mut support = u.support.copy(alloc)?;
    support.add(&w.support);
    let inside = RayPair {
        u: &u.ray,
        w: &w.ray,
        support: &support,
        at_u,
        at_w,
    };
    match combine_inside(alloc, inside, limit) {
        Ok(ray) => Ok(RayWithSupport { ray, support }),
        Err(CombineFault::Passed { column: _ }) => {
            let first = u.ray.to_ray(alloc)?;
            let second = w.ray.to_ray(alloc)?;
            Err(StepFault::Large(LargeKind::Pair(first, second)))
        }
        Err(CombineFault::NoMemory) => Err(StepFault::NoMemory),
    }
}
