//! Pairs of columns that are the residual of a candidate: a larger residual that contains both is not minimal.

ghost use Rattle.std.specs.Prelude.{◌≡◌, ℕ, ◌+◌, ◌*◌, ◌/◌, ◌<◌, ◌≤◌, ◌^◌, length, Contains, IsTrue, IsFalse, OnOk};
ghost use Rattle.std.specs.Int.{bit_at};
ghost use Rattle.std.specs.List.{All};
ghost use Rattle.support_bits.specs.Columns.{HasColumn};
ghost use Rattle.support_table.specs.Pairs.{pair_size, ArePartners, AreTested, AreKept, HasPair, IsBeyondPair};
ghost use Rattle.support_table.specs.Residuals.{support_at};

use crate::blocks::part;
use crate::candidates::Candidate;
use crate::counts::union_count;
use crate::groups::{first_of, group_of};
use crate::lists::FoundCandidates;
use out_of_memory::NoMemory;
use support_bits::{Support, have_common};

/// Candidates, words for each column with the bits of its partners (see `fill_partners`), and the size of a candidate
/// whose residual has two columns.
#[derive(Clone, Copy)]
pub struct PairSearch<'a, 'b> {
    pub found: FoundCandidates<'a>,
    pub partners: &'b [u64],
    pub size: u64,
    pub ghost pair_size: { size ≡ pair_size found.outer.now },
}

/// The number of columns of `outer`, plus 2.
pub fn pair_size(outer: &Support) -> u64
    ensures { result ≡ pair_size outer.now }
{
    let _columns = outer.columns();
    union_count(outer.words(), outer.words()) + 2
}

/// Makes the two columns of the residual of `candidate`, which has two, partners in `partners`: the first becomes one of
/// the last.
fn add_pair(found: FoundCandidates, candidate: Candidate, partners: &mut Vec<u64>)
    requires listed { Contains found.list.now candidate }
    requires size { candidate.size ≡ pair_size found.outer.now }
    requires partners { ArePartners found.table.now.supports found.outer.now found.list.now partners.old.items }
    ensures { ArePartners found.entry.table.now.supports found.entry.outer.now found.entry.list.now partners.new.items }
{
    let FoundCandidates {
        table,
        outer,
        list: _list,
    } = found;
    let _columns = outer.columns();
    let words = table.words_at(candidate.place);
    let outside = outer.words();
    let last = group_of(words, outside);
    let first = first_of(words, outside);
    if first > 0 && first < last {
        let column = first - 1;
        partners[(last - 1) * words.len() + column / 64] |= 1 << (column % 64);
    }
}

/// Replaces the words of `partners`: for each column they have the bits of some others, with each of which it is the
/// residual of a candidate of `found`.
pub fn fill_partners(found: FoundCandidates, partners: &mut Vec<u64>) -> Result<(), NoMemory>
    ensures { OnOk result
        (ArePartners found.entry.table.now.supports found.entry.outer.now found.entry.list.now partners.new.items) }
{
    let outer = found.outer;
    let columns = outer.columns() as usize;
    partners.clear();
    partners.resize(columns * columns.div_ceil(64), 0)?;
    let size = pair_size(outer);
    for candidate in found.list {
        if candidate.size == size {
            add_pair(found, *candidate, partners);
        }
    }
    Ok(())
}

/// Whether the ray with index `place`, which has `column` in its residual, contains a partner of it.
fn has_partner(pairs: PairSearch, place: usize, column: usize) -> bool
    requires partners { ArePartners pairs.found.table.now.supports pairs.found.outer.now pairs.found.list.now
        pairs.partners.now }
    requires place { place < length pairs.found.table.now.supports }
    requires column { HasColumn (support_at pairs.found.table.now.supports place) column }
    ensures { IsTrue result → HasPair pairs.entry.found.table.now.supports pairs.entry.found.outer.now
        pairs.entry.found.list.now place }
{
    let words = pairs.found.table.words_at(place);
    let width = words.len();
    have_common(words, part(pairs.partners, column * width, width))
}

/// As `has_partner`, for the columns whose bits are set in `word`, the first of which is `first`.
fn has_partner_of_word(pairs: PairSearch, place: usize, first: usize, word: u64) -> bool
    requires partners { ArePartners pairs.found.table.now.supports pairs.found.outer.now pairs.found.list.now
        pairs.partners.now }
    requires place { place < length pairs.found.table.now.supports }
    requires first { first + 65 < 2 ^ 64 }
    requires columns { (i : ℕ) → bit_at word i ≡ 1
        → HasColumn (support_at pairs.found.table.now.supports place) (first + i) }
    ensures { IsTrue result → HasPair pairs.entry.found.table.now.supports pairs.entry.found.outer.now
        pairs.entry.found.list.now place }
{
    let mut rest = word;
    let mut column = first;
    while rest != 0 {
        let skip = rest.trailing_zeros();
        let next = column + skip as usize;
        if has_partner(pairs, place, next) {
            return true;
        }
        rest = (rest >> skip) >> 1;
        column = next + 1;
    }
    false
}

/// Whether the residual of the ray with index `place` contains a pair. May return `false` if it does.
fn has_pair(pairs: PairSearch, place: usize) -> bool
    requires partners { ArePartners pairs.found.table.now.supports pairs.found.outer.now pairs.found.list.now
        pairs.partners.now }
    requires place { place < length pairs.found.table.now.supports }
    ensures { IsTrue result → HasPair pairs.entry.found.table.now.supports pairs.entry.found.outer.now
        pairs.entry.found.list.now place }
{
    let FoundCandidates {
        table,
        outer,
        list: _list,
    } = pairs.found;
    let _columns = outer.columns();
    let outside = outer.words();
    for (k, word) in table.words_at(place).iter().enumerate() {
        if has_partner_of_word(pairs, place, 64 * k, *word & !outside[k]) {
            return true;
        }
    }
    false
}

/// Whether the residual of `candidate` has more than two columns and contains a pair. May return `false` if so.
fn is_beyond_pair(pairs: PairSearch, candidate: Candidate) -> bool
    requires partners { ArePartners pairs.found.table.now.supports pairs.found.outer.now pairs.found.list.now
        pairs.partners.now }
    requires place { candidate.place < length pairs.found.table.now.supports }
    ensures { IsTrue result → IsBeyondPair pairs.entry.found.table.now.supports pairs.entry.found.outer.now
        pairs.entry.found.list.now candidate }
{
    candidate.size > pairs.size && has_pair(pairs, candidate.place)
}

/// Replaces the entries of `tested` by the candidates that are `true` in `selected` and can be minimal.
pub fn fill_tested(
    pairs: PairSearch,
    selected: &[bool],
    tested: &mut Vec<Candidate>,
) -> Result<(), NoMemory>
    requires partners { ArePartners pairs.found.table.now.supports pairs.found.outer.now pairs.found.list.now
        pairs.partners.now }
    requires selected { length selected.now ≡ length pairs.found.table.now.supports }
    ensures { OnOk result (AreTested pairs.entry.found.table.now.supports pairs.entry.found.outer.now selected.now
        pairs.entry.found.list.now (length pairs.entry.found.list.now) tested.new.items) }
{
    tested.clear();
    for candidate in pairs.found.list {
        if selected[candidate.place] && !is_beyond_pair(pairs, *candidate) {
            tested.push(*candidate)?;
        }
    }
    Ok(())
}

/// The greatest size of a candidate of `list`, or 0 if `list` is empty.
pub fn greatest_size(list: &[Candidate]) -> u64
    ensures { All (λ r. r.size ≤ result) list.now }
{
    let mut most = 0u64;
    for candidate in list {
        if candidate.size > most {
            most = candidate.size;
        }
    }
    most
}

/// Replaces the entries of `kept` by the candidates of at most `most` columns that can be minimal.
pub fn fill_kept(pairs: PairSearch, most: u64, kept: &mut Vec<Candidate>) -> Result<(), NoMemory>
    requires partners { ArePartners pairs.found.table.now.supports pairs.found.outer.now pairs.found.list.now
        pairs.partners.now }
    ensures { OnOk result (AreKept pairs.entry.found.table.now.supports pairs.entry.found.outer.now most
        pairs.entry.found.list.now (length pairs.entry.found.list.now) kept.new.items) }
{
    kept.clear();
    for candidate in pairs.found.list {
        if candidate.size <= most && !is_beyond_pair(pairs, *candidate) {
            kept.push(*candidate)?;
        }
    }
    Ok(())
}
