//! The candidates among given rays whose residual contains that of no other candidate.

ghost use Rattle.std.specs.Prelude.{ℕ, List, Bool, ◌≡◌, ◌+◌, ◌<◌, ◌↔◌, false, length, IfOk, IsTrue, IsFalse, slice_index_or};
ghost use Rattle.std.specs.List.{All};
ghost use Rattle.support_table.specs.Groups.{IsSelectedAlone, AreSelectedAlone, AreAloneAmong};
ghost use Rattle.support_table.specs.Pairs.{ArePartners};
ghost use Rattle.support_table.specs.Residuals.{AreMinimalOf};
ghost use Rattle.support_table.specs.Candidates.{AreCandidates, AreFound, HasUnionSize};

use crate::candidates::Candidate;
use crate::groups::{GroupMemory, ListMemory, SearchMemory, fill_in_groups, fill_ranges};
use crate::lists::{Family, FoundCandidates, GroupedList};
use crate::others::has_other;
use crate::outer::OuterRay;
use crate::pairs::{PairSearch, fill_kept, fill_partners, fill_tested, greatest_size, pair_size};
use out_of_memory::NoMemory;
use std::alloc::Global;

/// Whether `candidate` is `true` in `selected` and its residual contains that of no other entry of `family`.
fn is_selected_alone(family: Family, selected: &[bool], candidate: Candidate) -> bool
    requires place { candidate.place < length family.table.now.supports }
    requires size { HasUnionSize family.table.now.supports family.outer.now candidate }
    requires selected { length selected.now ≡ length family.table.now.supports }
    ensures { IsTrue result ↔ IsSelectedAlone family.entry.table.now.supports family.entry.outer.now
        family.entry.list.now selected.now candidate.place }
{
    selected[candidate.place] && !has_other(family, candidate)
}

/// The indices of the candidates of `list` that are `true` in `selected` and whose residual contains that of no other
/// entry of `family`.
fn selected_alone(
    alloc: Global,
    family: Family,
    list: &[Candidate],
    selected: &[bool],
) -> Result<Vec<usize>, NoMemory>
    requires found { AreFound family.table.now.supports list.now }
    requires sized { All (HasUnionSize family.table.now.supports family.outer.now) list.now }
    requires selected { length selected.now ≡ length family.table.now.supports }
    ensures { IfOk result (λ places.
        AreSelectedAlone family.entry.table.now.supports family.entry.outer.now family.entry.list.now selected.now
        list.now (length list.now) places.items) }
{
    let mut places = Vec::new(alloc);
    for candidate in list {
        if is_selected_alone(family, selected, *candidate) {
            places.push(candidate.place)?;
        }
    }
    Ok(places)
}

/// Whether a candidate of `list` is `true` in `selected`.
fn has_selected(list: &[Candidate], selected: &[bool]) -> bool
    requires { All (λ r. r.place < length selected.now) list.now }
    ensures { IsFalse result → All (λ r. slice_index_or selected.now r.place false ≡ false) list.now }
{
    for candidate in list {
        if selected[candidate.place] {
            return true;
        }
    }
    false
}

/// The indices of the candidates of `tested` that are `true` in `selected` and whose residual contains that of no other
/// candidate of `kept`.
fn alone_among(
    alloc: Global,
    kept: FoundCandidates,
    tested: &[Candidate],
    selected: &[bool],
    memory: &mut GroupMemory,
) -> Result<Vec<usize>, NoMemory>
    requires found { AreFound kept.table.now.supports tested.now }
    requires sized { All (HasUnionSize kept.table.now.supports kept.outer.now) tested.now }
    requires selected { length selected.now ≡ length kept.table.now.supports }
    ensures { IfOk result (λ places. AreAloneAmong kept.entry.table.now.supports kept.entry.outer.now
        kept.entry.list.now selected.now tested.now places.items) }
{
    let FoundCandidates {
        table,
        outer,
        list: _list,
    } = kept;
    fill_in_groups(kept, &mut memory.by_group)?;
    let list = &memory.by_group;
    let groups = table.columns() as usize + 1;
    fill_ranges(GroupedList { list, groups }, &mut memory.ranges)?;
    let ranges = &memory.ranges;
    let family = Family {
        table,
        outer,
        list,
        ranges,
    };
    selected_alone(alloc, family, tested, selected)
}

/// As `minimal_of`, by the pairs of candidates of `pairs`.
fn minimal_by_pairs(
    alloc: Global,
    pairs: PairSearch,
    selected: &[bool],
    memory: &mut ListMemory,
) -> Result<Vec<usize>, NoMemory>
    requires selected { length selected.now ≡ length pairs.found.table.now.supports }
    requires partners { ArePartners pairs.found.table.now.supports pairs.found.outer.now pairs.found.list.now
        pairs.partners.now }
    ensures { IfOk result (λ places. (joined : List Bool) (own most : ℕ)
        → AreCandidates pairs.entry.found.table.now.supports pairs.entry.found.outer.now joined own most
        pairs.entry.found.list.now
        → AreMinimalOf pairs.entry.found.table.now.supports pairs.entry.found.outer.now joined own most selected.now
        places.items) }
{
    fill_tested(pairs, selected, &mut memory.tested)?;
    if memory.tested.is_empty() {
        return Ok(Vec::new(alloc));
    }
    fill_kept(pairs, greatest_size(&memory.tested), &mut memory.kept)?;
    let kept = FoundCandidates {
        table: pairs.found.table,
        outer: pairs.found.outer,
        list: &memory.kept,
    };
    alone_among(alloc, kept, &memory.tested, selected, &mut memory.groups)
}

/// The indices, ascending, of the candidates for adjacency to `ray` that are `true` in `selected` and whose residual
/// contains that of no other, given candidates among which are all of minimal residual. `memory` may hold anything.
pub fn minimal_of<'a>(
    alloc: Global,
    ray: OuterRay<'a>,
    selected: &[bool],
    list: &'a [Candidate],
    memory: &mut SearchMemory,
) -> Result<Vec<usize>, NoMemory>
    requires selected { length selected.now ≡ length ray.rays.now.supports }
    requires candidates { AreCandidates ray.rays.now.supports ray.support.now ray.joined.now ray.own ray.most list.now }
    ensures { IfOk result (λ places.
        AreMinimalOf ray.entry.rays.now.supports ray.entry.support.now ray.entry.joined.now ray.entry.own ray.entry.most
        selected.now places.items) }
{
    if !has_selected(list, selected) {
        return Ok(Vec::new(alloc));
    }
    let table = ray.rays;
    let outer = ray.support;
    let found = FoundCandidates { table, outer, list };
    fill_partners(found, &mut memory.partners)?;
    let pairs = PairSearch {
        found,
        partners: &memory.partners,
        size: pair_size(outer),
    };
    minimal_by_pairs(alloc, pairs, selected, &mut memory.lists)
}
