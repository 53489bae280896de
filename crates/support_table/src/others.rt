//! Whether a candidate's residual contains that of another.

ghost use Rattle.std.specs.Prelude.{◌≡◌, ℕ, ◌+◌, ◌<◌, ◌^◌, ◌↔◌, length, IsTrue, IsFalse};
ghost use Rattle.std.specs.Int.{bit_at};
ghost use Rattle.support_table.specs.Groups.{HasOtherInside, HasNoneOfGroup};
ghost use Rattle.support_table.specs.Candidates.{HasUnionSize};

use crate::candidates::Candidate;
use crate::lists::Family;
use support_bits::are_covered;

/// Whether an entry of group `group`, other than `candidate`, has a residual inside that of `candidate`. May return
/// `true` if one of another group has. Reads no support of an entry of greater size, since its residual is not inside.
fn has_of_group(family: Family, candidate: Candidate, group: usize) -> bool
    requires place { candidate.place < length family.table.now.supports }
    requires size { HasUnionSize family.table.now.supports family.outer.now candidate }
    ensures yes { IsTrue result → HasOtherInside family.entry.table.now.supports family.entry.outer.now
        family.entry.list.now candidate.place }
    ensures no { IsFalse result → HasNoneOfGroup family.entry.table.now.supports family.entry.outer.now
        family.entry.list.now candidate.place group }
{
    let Family {
        table,
        outer,
        list,
        ranges,
    } = family;
    if group >= ranges.ends.len() {
        return false;
    }
    let Candidate { place, size } = candidate;
    let words = table.words_at(place);
    for k in ranges.starts[group]..ranges.ends[group] {
        let entry = list[k];
        let other = entry.place;
        if other != place
            && entry.size <= size
            && are_covered(table.words_at(other), outer.words(), words)
        {
            return true;
        }
    }
    false
}

/// As `has_of_group`, for the groups of the columns whose bits are set in `word`, the first of which is `first`.
fn has_of_word(family: Family, candidate: Candidate, first: usize, word: u64) -> bool
    requires place { candidate.place < length family.table.now.supports }
    requires size { HasUnionSize family.table.now.supports family.outer.now candidate }
    requires first { first + 65 < 2 ^ 64 }
    ensures yes { IsTrue result → HasOtherInside family.entry.table.now.supports family.entry.outer.now
        family.entry.list.now candidate.place }
    ensures no { IsFalse result → (i : ℕ) → bit_at word i ≡ 1
        → HasNoneOfGroup family.entry.table.now.supports family.entry.outer.now family.entry.list.now candidate.place
        (first + i + 1) }
{
    let mut rest = word;
    let mut column = first;
    while rest != 0 {
        let skip = rest.trailing_zeros();
        let next = column + skip as usize + 1;
        if has_of_group(family, candidate, next) {
            return true;
        }
        rest = (rest >> skip) >> 1;
        column = next;
    }
    false
}

/// Whether an entry of `family` other than `candidate` has a residual inside that of `candidate`. Such a residual is
/// empty, or its last column is in the residual of `candidate`.
pub fn has_other(family: Family, candidate: Candidate) -> bool
    requires place { candidate.place < length family.table.now.supports }
    requires size { HasUnionSize family.table.now.supports family.outer.now candidate }
    ensures { IsTrue result ↔ HasOtherInside family.entry.table.now.supports family.entry.outer.now
        family.entry.list.now candidate.place }
{
    if has_of_group(family, candidate, 0) {
        return true;
    }
    let outer = family.outer;
    let _columns = outer.columns();
    let outside = outer.words();
    let table = family.table;
    for (k, word) in table.words_at(candidate.place).iter().enumerate() {
        if has_of_word(family, candidate, 64 * k, *word & !outside[k]) {
            return true;
        }
    }
    false
}
