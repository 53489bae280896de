//! Rays after the last step: sorts them, drops their supports, and converts packed rays.

ghost use Rattle.std.specs.Prelude.{◌≡◌, IfOk, OnOk};
ghost use Rattle.std.specs.Ordering.{nat_cmp};
ghost use Rattle.std.specs.Cmp.Lexicographic.{slice_cmp};
ghost use Rattle.std.specs.List.Sorted.{IsPermutation, IsSorted};
ghost use Rattle.ray_steps.specs.Rays.{rays_of};

use crate::rays::RayWithSupport;
use cone_arithmetic::{PackedRay, Ray};
use out_of_memory::NoMemory;
use std::alloc::{AllocError, Global};

/// Sorts `ray_list` in lexicographic order. Those that the last step retained come in descending order, a run that the
/// stable sort finds at once.
pub fn sort_rays(ray_list: &mut Vec<RayWithSupport>) -> Result<(), AllocError>
    ensures permutation { IsPermutation ray_list.old.items ray_list.new.items }
    ensures sorted { OnOk result (IsSorted (slice_cmp nat_cmp) (rays_of ray_list.new.items)) }
{
    ray_list.sort_by(|a, b| a.ray.compare(&b.ray))
}

/// The rays of `ray_list` without their supports.
pub fn without_supports(
    alloc: Global,
    ray_list: Vec<RayWithSupport>,
) -> Result<Vec<PackedRay>, NoMemory>
    ensures { IfOk result (λ rays. rays.items ≡ rays_of ray_list.items) }
{
    let mut rays = Vec::with_capacity(alloc, ray_list.len())?;
    for kept in ray_list {
        rays.push(kept.ray)?;
    }
    Ok(rays)
}

/// The rays of `list`, with 128 bits for each entry. Frees each packed ray once it is converted.
pub fn wide_rays(alloc: Global, list: Vec<PackedRay>) -> Result<Vec<Ray>, NoMemory>
    ensures { IfOk result (λ rays. rays.items ≡ list.items) }
{
    let mut rays = Vec::with_capacity(alloc, list.len())?;
    for packed in list {
        let ray = packed.into_ray(alloc)?;
        rays.push(ray)?;
    }
    Ok(rays)
}
