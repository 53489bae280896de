//! The step of a row with a free column, whose entry is what the row leaves for it; rays for which that is negative are
//! dropped.

ghost use Rattle.std.specs.Prelude.{◌≡◌, ◌<◌, ◌≤◌, List, length, slice_set, IfOk, IfErr, OnOk};
ghost use Rattle.std.specs.List.{All};
ghost use Rattle.cone_definitions.specs.Surfaces.{Clash};
ghost use Rattle.ray_steps.specs.Faults.{IfLarge, IsFirstLargeValue};
ghost use Rattle.ray_steps.specs.Rays.{rays_of};
ghost use Rattle.ray_steps.specs.Signs.{IsBoundedSign, IsMadeUpTo};
ghost use Rattle.ray_steps.specs.Steps.{AreStepRays, IsStepOf};
ghost use Rattle.lazy_columns.specs.Fresh.{oriented};
ghost use Rattle.lazy_columns.specs.Passing.{PassesAt};
ghost use Rattle.lazy_columns.specs.Raised.{HasRoom, AppendsRaised, IsRaisedFrom, AreRaised};

use crate::fresh::NewColumn;
use cone_arithmetic::{Limit, MAX_ENTRY};
use out_of_memory::NoMemory;
use ray_steps::{Compatible, RayWithSupport, Sign, Step, StepFault, StepInput};
use std::alloc::Global;
use support_bits::Support;

/// The step of the row, or of the negated row if `is_negated`. Fails with the first ray at which a part of the row
/// exceeds `MAX_ENTRY`.
fn oriented_step<'a, C: Compatible>(
    alloc: Global,
    input: StepInput<'a, C>,
    is_negated: bool,
) -> Result<Step<'a, C>, StepFault>
    requires { AreStepRays input.clashes.now.columns input.most input.clashes.now.pairs input.ray_list.items }
    ensures ok { IfOk result (IsStepOf MAX_ENTRY input.entry.clashes.now (oriented is_negated input.entry.row.now)
        (rays_of input.entry.ray_list.items)) }
    ensures err { IfErr result (IfLarge
        (IsFirstLargeValue MAX_ENTRY input.entry.row.now (rays_of input.entry.ray_list.items))) }
{
    let step = Step::of(alloc, input, Limit::MAX)?;
    if !is_negated {
        return Ok(step);
    }
    let (negated, _signs) = step.negated(alloc)?;
    Ok(negated)
}

/// A ray, and a column whose entry a row leaves. Invariant: the ray has that entry, and it is 0.
#[derive(Drop)]
struct RayToRaise {
    kept: RayWithSupport,
    column: u32,
    ghost room: { HasRoom column kept },
}

/// The ray of `before` with entry `left` in its column.
fn raise_ray(alloc: Global, before: RayToRaise, left: u128) -> Result<RayWithSupport, NoMemory>
    requires some { 1 ≤ left }
    requires most { left ≤ MAX_ENTRY }
    ensures { IfOk result (λ after. after.ray ≡ slice_set before.kept.ray before.column left) }
{
    let RayToRaise { kept, column } = before;
    let RayWithSupport { ray, mut support } = kept;
    let ray = ray.with_new_entry(alloc, column, left)?;
    support.insert(column);
    Ok(RayWithSupport { ray, support })
}

/// Appends the ray of `before` with the entry that the row leaves for its column, unless that is negative.
fn raise(
    alloc: Global,
    before: RayToRaise,
    sign: Sign,
    next: &mut Vec<RayWithSupport>,
) -> Result<(), NoMemory>
    requires bounded { IsBoundedSign MAX_ENTRY sign }
    ensures { OnOk result (AppendsRaised before.column sign before.kept next.old.items next.new.items) }
{
    match sign {
        Sign::Zero => {
            next.push(before.kept)?;
            Ok(())
        }
        Sign::Positive(_) => Ok(()),
        Sign::Negative(left) => {
            let after = raise_ray(alloc, before, left)?;
            next.push(after)?;
            Ok(())
        }
    }
}

/// Appends each ray with the entry that the row leaves for `column`, except those for which that is negative.
fn raise_all(
    alloc: Global,
    mut ray_list: Vec<RayWithSupport>,
    signs: &[Sign],
    column: u32,
    next: &mut Vec<RayWithSupport>,
) -> Result<(), NoMemory>
    requires count { length signs.now ≡ length ray_list.items }
    requires room { All (HasRoom column) ray_list.items }
    requires bounded { All (IsBoundedSign MAX_ENTRY) signs.now }
    ensures { OnOk result ((pairs : List Clash)
        → IsMadeUpTo MAX_ENTRY pairs (rays_of ray_list.items) signs.now (length ray_list.items) 0
        (rays_of next.old.items)
        → IsRaisedFrom MAX_ENTRY pairs (rays_of ray_list.items) signs.now column 0 (rays_of next.new.items)) }
{
    while let Some(kept) = ray_list.pop() {
        let before = RayToRaise { kept, column };
        raise(alloc, before, signs[ray_list.len()], next)?;
    }
    Ok(())
}

/// The vertex surfaces of the rows so far together with `input.row`, whose column `fresh` is free, in any order. Fails
/// with `Large` at a ray or pair at which a number exceeds `MAX_ENTRY`.
pub fn raised_rays<C: Compatible>(
    alloc: Global,
    input: StepInput<C>,
    fresh: NewColumn,
) -> Result<Vec<RayWithSupport>, StepFault>
    requires rays { AreStepRays input.clashes.now.columns input.most input.clashes.now.pairs input.ray_list.items }
    requires room { All (HasRoom fresh.column) input.ray_list.items }
    ensures ok { IfOk result (λ next.
        AreRaised MAX_ENTRY input.entry.clashes.now.pairs (oriented fresh.is_negated input.entry.row.now) fresh.column
        (rays_of input.entry.ray_list.items) (rays_of next.items)) }
    ensures err { IfErr result (IfLarge
        (PassesAt input.entry.clashes.now input.entry.row.now (rays_of input.entry.ray_list.items))) }
{
    let step = oriented_step(alloc, input, fresh.is_negated)?;
    let parts = step.combinations_by_fewer(alloc)?;
    let mut next = parts.made;
    raise_all(alloc, parts.ray_list, &parts.signs, fresh.column, &mut next)?;
    Ok(next)
}
