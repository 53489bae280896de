//! Lists of candidates with the table that their indices refer to.

ghost use Rattle.std.specs.Prelude.{◌≡◌, ◌+◌, ◌/◌, ◌<◌, length};
ghost use Rattle.std.specs.List.{All};
ghost use Rattle.support_table.specs.Groups.{AreFamily};
ghost use Rattle.support_table.specs.Candidates.{AreFound, HasUnionSize};

use crate::candidates::Candidate;
use crate::groups::{Grouped, Ranges};
use crate::table::SupportTable;
use support_bits::Support;

/// Candidates for adjacency to a ray of support `outer`. Invariant: their indices are those of supports of `table`,
/// which has the columns of `outer`, and their sizes those of their unions with `outer`.
#[derive(Clone, Copy)]
pub struct FoundCandidates<'a> {
    pub table: &'a SupportTable,
    pub outer: &'a Support,
    pub list: &'a [Candidate],
    pub ghost columns: { length outer.now ≡ table.now.columns },
    pub ghost found: { AreFound table.now.supports list.now },
    pub ghost sized: { All (HasUnionSize table.now.supports outer.now) list.now },
}

/// Candidates with their groups, which are below `groups`.
#[derive(Clone, Copy)]
pub struct GroupedList<'a> {
    pub list: &'a [Grouped],
    pub groups: usize,
    pub ghost below: { All (λ it. it.group < groups) list.now },
}

/// Candidates in groups. Invariant: they are rays of `table`, which has the columns of `outer`, with the sizes of their
/// unions with `outer`; each group but 0 is one more than a column of its residuals, and `ranges` has the range of each
/// group.
#[derive(Clone, Copy)]
pub struct Family<'a> {
    pub table: &'a SupportTable,
    pub outer: &'a Support,
    pub list: &'a [Grouped],
    pub ranges: &'a Ranges,
    pub ghost columns: { length outer.now ≡ table.now.columns },
    pub ghost family: { AreFamily table.now.supports outer.now list.now ranges.now },
}
