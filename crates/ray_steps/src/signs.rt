//! The sign of a step's row at each ray.

ghost use Rattle.std.specs.Prelude.{◌≡◌, ◌↔◌, IsTrue, ◌<◌, length, ◌-◌, IfOk, IfErr, OnOk, OnErr};
ghost use Rattle.cone_arithmetic.specs.Sparse.{IsInRange};
ghost use Rattle.cone_definitions.specs.Elimination.{HasPartsWithin, HasLargePart};
ghost use Rattle.ray_steps.specs.Signs.{IsNegative, IsSignAt, AreSigns};
ghost use Rattle.ray_steps.specs.Rays.{rays_of};
ghost use Rattle.ray_steps.specs.Faults.{IfLarge, IsFirstLargeValue};
ghost use Rattle.std.specs.List.{All};

use crate::rays::{LargeKind, RayWithSupport, StepFault};
use cone_arithmetic::{Passed, PlusMinus, SparseRow};
use std::alloc::Global;

/// The sign of a row at a ray, with the absolute value of the row there.
#[derive(Clone, Copy)]
pub enum Sign {
    Zero,
    Positive(u128),
    Negative(u128),
}

/// Whether `sign` is negative.
pub fn is_negative(sign: Sign) -> bool
    ensures { IsTrue result ↔ IsNegative sign }
{
    matches!(sign, Sign::Negative(_))
}

/// The sign of a row whose positive and negative parts are `parts`.
fn sign_of(parts: PlusMinus) -> Sign
    ensures zero { parts.plus ≡ parts.minus → result ≡ Sign.Zero }
    ensures positive { parts.minus < parts.plus → result ≡ Sign.Positive (parts.plus - parts.minus) }
    ensures negative { parts.plus < parts.minus → result ≡ Sign.Negative (parts.minus - parts.plus) }
{
    if parts.minus < parts.plus {
        Sign::Positive(parts.plus - parts.minus)
    } else if parts.plus < parts.minus {
        Sign::Negative(parts.minus - parts.plus)
    } else {
        Sign::Zero
    }
}

/// The sign of `row` at a ray. Fails if its positive or negative part there exceeds `limit`.
fn sign_at(row: &SparseRow, kept: &RayWithSupport, limit: u128) -> Result<Sign, Passed>
    requires in_range { IsInRange (length kept.now.ray) row.now }
    ensures sign { IfOk result (IsSignAt row.now kept.now.ray) }
    ensures within { OnOk result (HasPartsWithin limit row.now kept.now.ray) }
    ensures passed { OnErr result (HasLargePart limit row.now kept.now.ray) }
{
    let parts = kept.ray.parts(row, limit)?;
    Ok(sign_of(parts))
}

/// A row and rays. Invariant: the columns of the row are below the number of entries of each ray.
#[derive(Clone, Copy)]
pub struct RowAndRays<'a> {
    pub row: &'a SparseRow,
    pub ray_list: &'a [RayWithSupport],
    pub ghost in_range: { All (λ kept. IsInRange (length kept.ray) row.now) ray_list.now },
}

/// The sign of the row of `input` at each of its rays. Fails with `Large` and the first ray at which a part of the row
/// exceeds `limit`.
pub fn signs_at(alloc: Global, input: RowAndRays, limit: u128) -> Result<Vec<Sign>, StepFault>
    ensures ok { IfOk result (λ signs.
        AreSigns limit input.entry.row.now (rays_of input.entry.ray_list.now) signs.items) }
    ensures err { IfErr result (IfLarge
        (IsFirstLargeValue limit input.entry.row.now (rays_of input.entry.ray_list.now))) }
{
    let RowAndRays { row, ray_list } = input;
    let mut signs = Vec::with_capacity(alloc, ray_list.len())?;
    for kept in ray_list {
        match sign_at(row, kept, limit) {
            Ok(sign) => signs.push(sign)?,
            Err(Passed) => {
                let ray = kept.ray.to_ray(alloc)?;
                return Err(StepFault::Large(LargeKind::Value(ray)));
            }
        }
    }
    Ok(signs)
}
