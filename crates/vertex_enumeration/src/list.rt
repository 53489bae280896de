//! The two ways to a list: from solved rows if all numbers are bounded, otherwise row by row in a named order.

ghost use Rattle.std.specs.Prelude.{◌≡◌, IsTrue, IfOk, IfErr, IfSome};
ghost use Rattle.cone_definitions.specs.Listings.{IsListed};
ghost use Rattle.cone_definitions.specs.Surfaces.{IsSurfaceList};
ghost use Rattle.vertex_enumeration.specs.Lists.{enumeration_of, AreAlwaysWithin, IsOnlyListing, AreRefused};

use cone_arithmetic::{Limit, PackedRay, System};
use double_description::{EnumFault, NamedOrder, PackedRays, Picker, choice, eliminate};
use lazy_columns::vertex_surfaces;
use out_of_memory::NoMemory;
use ray_steps::{Clashes, Compatible};
use row_reduction::{SolveFault, solve};
use std::alloc::Global;

/// The order of the rows, the limit on numbers, and whether no number exceeds it in any order of the rows.
#[derive(Clone, Copy)]
pub struct Terms {
    pub order: NamedOrder,
    pub limit: Limit,
    pub is_bounded: bool,
}

/// The vertex surfaces of `system`, found from its rows solved for `pivots`; `None` if a coefficient or a number gets
/// too large. `each` is the number of columns of a block.
fn list_by_solving<C: Compatible>(
    alloc: Global,
    system: &System,
    clashes: &Clashes<C>,
    each: u32,
    pivots: &[u32],
) -> Result<Option<Vec<PackedRay>>, NoMemory>
    requires columns { clashes.now.columns ≡ system.now.columns }
    ensures { IfOk result (λ answer.
        IfSome answer (λ list. IsSurfaceList system.now.columns system.now.rows clashes.now.pairs list.items)) }
{
    match solve(alloc, system, each, pivots) {
        Ok(solved) => vertex_surfaces(alloc, &solved, clashes),
        Err(SolveFault::Passed) => Ok(None),
        Err(SolveFault::NoMemory) => Err(NoMemory),
    }
}

/// The vertex surfaces of `system`, found by eliminating its rows in the order `order`. Fails with `LargeStep` at the
/// first step at which a number exceeds `limit`.
fn list_by_elimination<C: Compatible>(
    alloc: Global,
    system: &System,
    clashes: &Clashes<C>,
    order: NamedOrder,
    limit: Limit,
) -> Result<PackedRays, EnumFault>
    requires columns { clashes.now.columns ≡ system.now.columns }
    ensures ok { IfOk result (λ rays.
        IsListed (enumeration_of system.now clashes.now.pairs order.rule limit.number) rays.order.items
        rays.list.items) }
    ensures err { IfErr result (AreRefused (enumeration_of system.now clashes.now.pairs order.rule limit.number)) }
{
    let rule = order.rule;
    let picker = Picker::new(rule, |s: &System, rows: &[u32]| choice(rule, s, rows));
    eliminate(alloc, system, clashes, &picker, limit.number)
}

/// The list from solved rows if all numbers are bounded, otherwise by elimination in the order of `terms`. Fails as
/// `list_by_elimination`.
fn quickest_list<C: Compatible>(
    alloc: Global,
    system: &System,
    clashes: &Clashes<C>,
    each: u32,
    pivots: &[u32],
    terms: Terms,
) -> Result<Vec<PackedRay>, EnumFault>
    requires columns { clashes.now.columns ≡ system.now.columns }
    requires bounded { IsTrue terms.is_bounded → AreAlwaysWithin terms.limit.number system.now clashes.now.pairs }
    ensures ok { IfOk result (λ list.
        IsOnlyListing (enumeration_of system.now clashes.now.pairs terms.order.rule terms.limit.number) list.items) }
    ensures err { IfErr result (AreRefused
        (enumeration_of system.now clashes.now.pairs terms.order.rule terms.limit.number)) }
{
    // if no number can exceed the limit, it does not matter how the list was found
    if terms.is_bounded
        && let Some(known) = list_by_solving(alloc, system, clashes, each, pivots)?
    {
        return Ok(known);
    }
    let rays = list_by_elimination(alloc, system, clashes, terms.order, terms.limit)?;
    let PackedRays { list, order: _ } = rays;
    Ok(list)
}

/// All vertex surfaces of `system`, in strictly ascending order, with its rows processed in the order of `terms`. Fails
/// with `LargeStep` at the first step at which a number exceeds the limit of `terms`. `pivots` are columns that rows
/// may be solved for, and `each` is the number of columns of a block; both affect speed alone.
pub fn vertex_list<C: Compatible>(
    alloc: Global,
    system: &System,
    test: C,
    each: u32,
    pivots: &[u32],
    terms: Terms,
) -> Result<Vec<PackedRay>, EnumFault>
    requires columns { C.width test ≡ system.now.columns }
    requires decides { C.decides test }
    requires bounded { IsTrue terms.is_bounded → AreAlwaysWithin terms.limit.number system.now (C.clashing test) }
    ensures ok { IfOk result (λ list.
        IsOnlyListing (enumeration_of system.now (C.clashing test) terms.order.rule terms.limit.number) list.items) }
    ensures err { IfErr result (AreRefused
        (enumeration_of system.now (C.clashing test) terms.order.rule terms.limit.number)) }
{
    let clashes = Clashes::new(alloc, test)?;
    quickest_list(alloc, system, &clashes, each, pivots, terms)
}
