//! The rays that are compatible with a given ray: only these can be the third ray of a pair with it.

ghost use Rattle.std.specs.Prelude.{◌≡◌, ◌<◌, length, IfOk};
ghost use Rattle.std.specs.List.{All};
ghost use Rattle.ray_steps.specs.Rays.{rays_of, AreOfWidth};
ghost use Rattle.ray_steps.specs.CompatibleLists.{AreCompatible, HasSupportsOf, HasAllSupports, HaveCompatible};

use crate::ray_list::RayList;
use crate::rays::RayWithSupport;
use out_of_memory::NoMemory;
use std::alloc::Global;
use support_bits::Support;
use support_table::SupportTable;

/// The columns that clash with a given ray, and the indices and supports of all rays that contain none of them.
#[derive(Drop)]
pub struct CompatibleRays {
    pub joined: Support,
    pub places: Vec<usize>,
    pub table: SupportTable,
}

/// The indices of the rays whose supports contain none of `columns`.
fn compatible_indices(
    alloc: Global,
    ray_list: &[RayWithSupport],
    columns: &Support,
) -> Result<Vec<usize>, NoMemory>
    requires widths { AreOfWidth (length columns.now) ray_list.now }
    ensures { IfOk result (λ places.
        AreCompatible (rays_of ray_list.now) columns.now (length ray_list.now) places.items) }
{
    let mut places = Vec::new(alloc);
    for (k, kept) in ray_list.iter().enumerate() {
        if !kept.support.meets(columns) {
            places.push(k)?;
        }
    }
    Ok(places)
}

/// The supports of the rays with the indices `places`.
pub fn supports_at(alloc: Global, rays: RayList, places: &[usize]) -> Result<SupportTable, NoMemory>
    requires { All (λ k. k < length rays.items.now) places.now }
    ensures { IfOk result (HasSupportsOf (rays_of rays.entry.items.now) rays.entry.columns places.now) }
{
    let mut table = SupportTable::new(alloc, rays.columns);
    for place in places {
        let kept = &rays.items[*place];
        table.push(&kept.support)?;
    }
    Ok(table)
}

/// Gathers the rays whose supports contain none of the columns `joined`.
pub fn compatible_rays(
    alloc: Global,
    rays: RayList,
    joined: Support,
) -> Result<CompatibleRays, NoMemory>
    requires { length joined ≡ rays.columns }
    ensures joined { IfOk result (λ compatible_list. compatible_list.joined ≡ joined) }
    ensures compatible_list { IfOk result (HaveCompatible (rays_of rays.entry.items.now) rays.entry.columns) }
{
    let places = compatible_indices(alloc, rays.items, &joined)?;
    let table = supports_at(alloc, rays, &places)?;
    Ok(CompatibleRays {
        joined,
        places,
        table,
    })
}

/// The supports of all rays of `rays`.
pub fn all_supports(alloc: Global, rays: RayList) -> Result<SupportTable, NoMemory>
    ensures { IfOk result (HasAllSupports (rays_of rays.entry.items.now) rays.entry.columns) }
{
    let mut table = SupportTable::new(alloc, rays.columns);
    for kept in rays.items {
        table.push(&kept.support)?;
    }
    Ok(table)
}
