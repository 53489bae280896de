//! The rays that a step keeps: those of sign zero.

ghost use Rattle.std.specs.Prelude.{◌≡◌, ℕ, List, length, IfErr, OnOk};
ghost use Rattle.cone_definitions.specs.Surfaces.{Clash};
ghost use Rattle.ray_steps.specs.Appended.{AppendsIfZero};
ghost use Rattle.ray_steps.specs.Rays.{rays_of, AreOfWidth};
ghost use Rattle.ray_steps.specs.Signs.{IsMadeUpTo, IsNextFrom};

use crate::rays::{RayWithSupport, StepFault};
use crate::signs::Sign;

/// Appends the ray `kept` to `next` if its sign is zero. Fails only with `NoMemory`.
fn keep_if_zero(
    kept: RayWithSupport,
    sign: Sign,
    next: &mut Vec<RayWithSupport>,
) -> Result<(), StepFault>
    ensures ok { OnOk result (AppendsIfZero sign kept next.old.items next.new.items) }
    ensures err { IfErr result (λ fault. fault ≡ StepFault.NoMemory) }
{
    if let Sign::Zero = sign {
        next.push(kept)?;
    }
    Ok(())
}

/// Moves the rays of `ray_list` whose entry in `signs` is zero to the end of `next`, last one first, and drops the
/// others. Fails only with `NoMemory`.
pub fn keep_zeros(
    mut ray_list: Vec<RayWithSupport>,
    signs: &[Sign],
    next: &mut Vec<RayWithSupport>,
) -> Result<(), StepFault>
    requires { length signs.now ≡ length ray_list.items }
    ensures keeps { OnOk result ((limit : ℕ) (pairs : List Clash)
        → IsMadeUpTo limit pairs (rays_of ray_list.items) signs.now (length ray_list.items) 0 (rays_of next.old.items)
        → IsNextFrom limit pairs (rays_of ray_list.items) signs.now 0 (rays_of next.new.items)) }
    ensures widths { OnOk result ((columns : ℕ) → AreOfWidth columns ray_list.items → AreOfWidth columns next.old.items
        → AreOfWidth columns next.new.items) }
    ensures err { IfErr result (λ fault. fault ≡ StepFault.NoMemory) }
{
    while let Some(kept) = ray_list.pop() {
        keep_if_zero(kept, signs[ray_list.len()], next)?;
    }
    Ok(())
}
