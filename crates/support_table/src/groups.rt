//! Candidates in groups by a column of their residual, so that only the groups of a residual's own columns are tested.

ghost use Rattle.std.specs.Prelude.{◌≡◌, ◌+◌, ◌<◌, ◌^◌, length, OnOk};
ghost use Rattle.std.specs.List.{All};
ghost use Rattle.std.specs.List.Sorted.{IsPermutation};
ghost use Rattle.support_table.specs.Groups.{IsColumnOutside, AreGrouped, AreRanges};

use crate::candidates::Candidate;
use crate::lists::{FoundCandidates, GroupedList};
use out_of_memory::NoMemory;
use std::alloc::Global;

/// A candidate by its index, its group: one more than the last column of its residual, or 0 if that is empty, and the
/// number of columns in its union with the outer ray.
#[derive(Clone, Copy)]
pub struct Grouped {
    pub place: usize,
    pub group: usize,
    pub size: u64,
}

/// For each group an index range in a list, which contains all of the group: from its start to before its end.
#[derive(Drop)]
pub struct Ranges {
    pub starts: Vec<usize>,
    pub ends: Vec<usize>,
}

/// Memory for candidates in groups, and for the ranges of these.
#[derive(Drop)]
pub struct GroupMemory {
    pub by_group: Vec<Grouped>,
    pub ranges: Ranges,
}

/// Memory for the candidates of one outer ray that are tested, for those that are kept, and for these in groups.
#[derive(Drop)]
pub struct ListMemory {
    pub tested: Vec<Candidate>,
    pub kept: Vec<Candidate>,
    pub groups: GroupMemory,
}

/// Memory for the partners of columns and the candidates of one outer ray, that is used again for the next.
#[derive(Drop)]
pub struct SearchMemory {
    pub partners: Vec<u64>,
    pub lists: ListMemory,
}

impl SearchMemory {
    /// Memory that holds nothing.
    pub fn new(alloc: Global) -> SearchMemory {
        let ranges = Ranges {
            starts: Vec::new(alloc),
            ends: Vec::new(alloc),
        };
        let by_group = Vec::new(alloc);
        SearchMemory {
            partners: Vec::new(alloc),
            lists: ListMemory {
                tested: Vec::new(alloc),
                kept: Vec::new(alloc),
                groups: GroupMemory { by_group, ranges },
            },
        }
    }
}

/// One more than the last column that is set in `words` but not in `outer`, or 0 if there is none.
pub fn group_of(words: &[u64], outer: &[u64]) -> usize
    requires lengths { length outer.now ≡ length words.now }
    requires short { length words.now < 2 ^ 32 }
    ensures { IsColumnOutside words.now outer.now result }
{
    let mut group = 0usize;
    for (k, word) in words.iter().enumerate() {
        let outside = *word & !outer[k];
        if outside != 0 {
            group = 64 * k + (64 - outside.leading_zeros()) as usize;
        }
    }
    group
}

/// One more than the first column that is set in `words` but not in `outer`, or 0 if `outer` has all of them.
pub fn first_of(words: &[u64], outer: &[u64]) -> usize
    requires lengths { length outer.now ≡ length words.now }
    requires short { length words.now < 2 ^ 32 }
    ensures { IsColumnOutside words.now outer.now result }
{
    for (k, word) in words.iter().enumerate() {
        let left = *word & !outer[k];
        if left != 0 {
            return 64 * k + left.trailing_zeros() as usize + 1;
        }
    }
    0
}

/// Replaces the entries of `grouped` by the candidates of `found` with their groups, in order.
fn fill_with_groups(found: FoundCandidates, grouped: &mut Vec<Grouped>) -> Result<(), NoMemory>
    ensures { OnOk result (AreGrouped found.entry.table.now.supports found.entry.outer.now found.entry.list.now
        (length found.entry.list.now) grouped.new.items) }
{
    let FoundCandidates { table, outer, list } = found;
    let _columns = outer.columns();
    let words = outer.words();
    grouped.clear();
    for candidate in list {
        let place = candidate.place;
        let group = group_of(table.words_at(place), words);
        let size = candidate.size;
        grouped.push(Grouped { place, group, size })?;
    }
    Ok(())
}

/// Brings each group together, with the smallest residuals first: they are inside others more often. The order inside a
/// group affects speed alone, so the contract says nothing of it.
fn sort_by_group(list: &mut Vec<Grouped>)
    ensures { IsPermutation list.old.items list.new.items }
{
    list.sort_unstable_by_key(|it| (it.group, it.size));
}

/// Replaces the entries of `list` by the candidates of `found`, group after group.
pub fn fill_in_groups(found: FoundCandidates, list: &mut Vec<Grouped>) -> Result<(), NoMemory>
    ensures { OnOk result (AreGrouped found.entry.table.now.supports found.entry.outer.now found.entry.list.now
        (length found.entry.list.now) list.new.items) }
{
    fill_with_groups(found, list)?;
    sort_by_group(list);
    Ok(())
}

/// Replaces the entries of `list` by `count` zeros.
fn set_zeros(list: &mut Vec<usize>, count: usize) -> Result<(), NoMemory>
    ensures count { OnOk result (length list.new.items ≡ count) }
    ensures zeros { OnOk result (All (λ n. n ≡ 0) list.new.items) }
{
    list.clear();
    list.resize(count, 0)?;
    Ok(())
}

/// Extends the range of the group of `list` at index `k` by that index.
fn extend(list: GroupedList, k: usize, ranges: &mut Ranges)
    requires in_range { k < length list.list.now }
    requires so_far { AreRanges list.list.now list.groups k ranges.old }
    ensures { AreRanges list.entry.list.now list.entry.groups (k + 1) ranges.new }
{
    let group = list.list[k].group;
    if ranges.ends[group] == 0 {
        ranges.starts[group] = k;
    }
    ranges.ends[group] = k + 1;
}

/// Replaces the ranges of `ranges` by those of the groups of `list`.
pub fn fill_ranges(list: GroupedList, ranges: &mut Ranges) -> Result<(), NoMemory>
    ensures { OnOk result (AreRanges list.entry.list.now list.entry.groups (length list.entry.list.now) ranges.new) }
{
    set_zeros(&mut ranges.starts, list.groups)?;
    set_zeros(&mut ranges.ends, list.groups)?;
    for k in 0..list.list.len() {
        extend(list, k, ranges);
    }
    Ok(())
}
