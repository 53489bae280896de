//! Runs all steps, in the order of the rows.

ghost use Rattle.std.specs.Prelude.{◌≡◌, ℕ, List, IfOk, OnOk, IfErr, IfSome, IfNone};
ghost use Rattle.std.specs.Ordering.{nat_cmp};
ghost use Rattle.std.specs.Cmp.Lexicographic.{slice_cmp};
ghost use Rattle.std.specs.List.Sorted.{IsPermutation, IsSorted};
ghost use Rattle.cone_definitions.specs.Rows.{Row};
ghost use Rattle.cone_definitions.specs.Surfaces.{Clash, IsSurfaceList};
ghost use Rattle.cone_definitions.specs.Unordered.{HasSurfaces};
ghost use Rattle.ray_steps.specs.Faults.{IfLarge};
ghost use Rattle.ray_steps.specs.Rays.{rays_of};
ghost use Rattle.lazy_columns.specs.Late.{AreBoundedLate, AreNextLate};
ghost use Rattle.lazy_columns.specs.Fresh.{IsFreeColumn};
ghost use Rattle.lazy_columns.specs.Passing.{PassesNext, HasPassedStep};

use crate::elimination::next_rays;
use crate::entering::{enter_all, enter_others, enter_row, none_seen};
use crate::fresh::{NewColumn, free_column};
use crate::late_rays::LateRays;
use crate::raising::raised_rays;
use crate::row_step::RowStep;
use cone_arithmetic::{PackedRay, System};
use out_of_memory::NoMemory;
use ray_steps::{Clashes, Compatible, RayWithSupport, StepFault, StepInput, without_supports};
use std::alloc::{AllocError, Global};

/// Processes the row of `step`, all of whose columns enter before. Fails with `Large` at a ray or pair at which a number
/// exceeds `MAX_ENTRY`.
fn eliminate_row<C: Compatible>(alloc: Global, step: RowStep<C>) -> Result<LateRays, StepFault>
    requires late { AreBoundedLate step.clashes.now.columns step.most step.clashes.now.pairs step.late }
    ensures ok { IfOk result (AreNextLate step.entry.clashes.now.columns step.entry.clashes.now.pairs step.entry.row.now
        step.entry.late) }
    ensures err { IfErr result (IfLarge (PassesNext step.entry.clashes.now step.entry.row.now step.entry.late)) }
{
    let RowStep {
        clashes,
        row,
        mut late,
        most,
    } = step;
    enter_row(alloc, row, &mut late)?;
    let LateRays {
        columns,
        ray_list,
        seen,
    } = late;
    let input = StepInput {
        clashes,
        row,
        ray_list,
        most,
    };
    let next = next_rays(alloc, input)?;
    Ok(LateRays {
        columns,
        ray_list: next,
        seen,
    })
}

/// Processes the row of `step`, whose column `fresh` is free, after its other columns have entered. Fails as
/// `eliminate_row`.
fn eliminate_with_fresh<C: Compatible>(
    alloc: Global,
    step: RowStep<C>,
    fresh: NewColumn,
) -> Result<LateRays, StepFault>
    requires late { AreBoundedLate step.clashes.now.columns step.most step.clashes.now.pairs step.late }
    requires fresh { IsFreeColumn step.clashes.now.columns step.row.now step.clashes.now.pairs step.late.seen.items
        fresh }
    ensures ok { IfOk result (AreNextLate step.entry.clashes.now.columns step.entry.clashes.now.pairs step.entry.row.now
        step.entry.late) }
    ensures err { IfErr result (IfLarge (PassesNext step.entry.clashes.now step.entry.row.now step.entry.late)) }
{
    let RowStep {
        clashes,
        row,
        mut late,
        most,
    } = step;
    enter_others(alloc, row, fresh.column, &mut late)?;
    let LateRays {
        columns,
        ray_list,
        mut seen,
    } = late;
    let input = StepInput {
        clashes,
        row,
        ray_list,
        most,
    };
    let next = raised_rays(alloc, input, fresh)?;
    seen[fresh.column as usize] = true;
    Ok(LateRays {
        columns,
        ray_list: next,
        seen,
    })
}

/// Processes the row of `step`, by a free column if it has one. Fails as `eliminate_row`.
fn next_late<C: Compatible>(alloc: Global, step: RowStep<C>) -> Result<LateRays, StepFault>
    requires late { AreBoundedLate step.clashes.now.columns step.most step.clashes.now.pairs step.late }
    ensures ok { IfOk result (AreNextLate step.entry.clashes.now.columns step.entry.clashes.now.pairs step.entry.row.now
        step.entry.late) }
    ensures err { IfErr result (IfLarge (PassesNext step.entry.clashes.now step.entry.row.now step.entry.late)) }
{
    match free_column(&step) {
        Some(fresh) => eliminate_with_fresh(alloc, step, fresh),
        None => eliminate_row(alloc, step),
    }
}

/// The vertex surfaces of all rows of `system`, in any order. Fails with `Large` if a number of a step exceeds
/// `MAX_ENTRY`.
fn all_rows<C: Compatible>(
    alloc: Global,
    system: &System,
    clashes: &Clashes<C>,
) -> Result<Vec<RayWithSupport>, StepFault>
    requires columns { clashes.now.columns ≡ system.now.columns }
    ensures ok { IfOk result (λ ray_list.
        HasSurfaces clashes.now.columns system.now.rows clashes.now.pairs (rays_of ray_list.items)) }
    ensures err { IfErr result (IfLarge (λ _. HasPassedStep clashes.now system.now.rows)) }
{
    let _pairs = clashes.pairs();
    let mut late = none_seen(alloc, clashes.columns())?;
    for number in 0..system.len() {
        // the union of an adjacent pair has at most two columns more than rows were processed
        let most = u64::from(number) + 2;
        let step = RowStep {
            clashes,
            row: system.row(number),
            late,
            most,
        };
        late = next_late(alloc, step)?;
    }
    enter_all(alloc, &mut late)?;
    let LateRays { ray_list, .. } = late;
    Ok(ray_list)
}

/// Sorts `rays` in lexicographic order.
fn sort(rays: &mut Vec<PackedRay>) -> Result<(), AllocError>
    ensures permutation { IsPermutation rays.old.items rays.new.items }
    ensures sorted { OnOk result (IsSorted (slice_cmp nat_cmp) rays.new.items) }
{
    rays.sort_by(|a, b| a.compare(b))
}

/// The rays of `ray_list` in lexicographic order, without their supports. These are dropped before the sort, which then
/// moves half of the bytes.
fn ascending(alloc: Global, ray_list: Vec<RayWithSupport>) -> Result<Vec<PackedRay>, NoMemory>
    ensures { IfOk result (λ rays. (columns : ℕ) (rows : List Row) (pairs : List Clash)
        → HasSurfaces columns rows pairs (rays_of ray_list.items) → IsSurfaceList columns rows pairs rays.items) }
{
    let mut rays = without_supports(alloc, ray_list)?;
    sort(&mut rays)?;
    Ok(rays)
}

/// All vertex surfaces of `system` by the pairs of `clashes`, in lexicographic order, its rows processed by number.
/// `None` only if a number of a step exceeds `MAX_ENTRY`.
pub fn vertex_surfaces<C: Compatible>(
    alloc: Global,
    system: &System,
    clashes: &Clashes<C>,
) -> Result<Option<Vec<PackedRay>>, NoMemory>
    requires columns { clashes.now.columns ≡ system.now.columns }
    ensures some { IfOk result (λ answer.
        IfSome answer (λ list. IsSurfaceList system.now.columns system.now.rows clashes.now.pairs list.items)) }
    ensures none { IfOk result (λ answer. IfNone answer (HasPassedStep clashes.now system.now.rows)) }
{
    match all_rows(alloc, system, clashes) {
        Ok(ray_list) => {
            let rays = ascending(alloc, ray_list)?;
            Ok(Some(rays))
        }
        Err(StepFault::Large(_)) => Ok(None),
        Err(StepFault::NoMemory) => Err(NoMemory),
    }
}
