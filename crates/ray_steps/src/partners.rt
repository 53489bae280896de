//! For each column the set of columns that clash with it.

ghost use Rattle.std.specs.Prelude.{◌<◌, [], length, slice_index_or, IfOk};
ghost use Rattle.ray_steps.specs.Clashes.{AreClashes};
ghost use Rattle.ray_steps.specs.Partners.{IsInserted, AreClashSets};

use out_of_memory::NoMemory;
use std::alloc::Global;
use support_bits::Support;

/// One empty set for each of `columns` columns.
fn empty_clash_sets(alloc: Global, columns: u32) -> Result<Vec<Support>, NoMemory>
    ensures { IfOk result (λ partners. AreClashSets columns [] partners.items) }
{
    let mut partners = Vec::with_capacity(alloc, columns as usize)?;
    for _number in 0..columns {
        partners.push(Support::none(alloc, columns)?)?;
    }
    Ok(partners)
}

/// Inserts `other` into the set of column `one`.
fn insert_clash(partners: &mut Vec<Support>, one: u32, other: u32)
    requires one { one < length partners.old.items }
    requires other { other < length (slice_index_or partners.old.items one []) }
    ensures { IsInserted one other partners.old.items partners.new.items }
{
    partners[one as usize].insert(other);
}

/// The pairs of columns that clash. Invariant: each consists of two different columns below `columns`.
#[derive(Clone, Copy)]
pub struct ClashPairs<'a> {
    pub columns: u32,
    pub items: &'a [(u32, u32)],
    pub ghost different: { AreClashes columns items.now },
}

/// For each column the set of columns that clash with it by `clashes`.
pub fn clash_sets(alloc: Global, clashes: ClashPairs) -> Result<Vec<Support>, NoMemory>
    ensures { IfOk result (λ partners. AreClashSets clashes.entry.columns clashes.entry.items.now partners.items) }
{
    let mut partners = empty_clash_sets(alloc, clashes.columns)?;
    for pair in clashes.items {
        insert_clash(&mut partners, pair.0, pair.1);
        insert_clash(&mut partners, pair.1, pair.0);
    }
    Ok(partners)
}
