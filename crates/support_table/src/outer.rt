//! The rays whose adjacent rays are looked for.

ghost use Rattle.std.specs.Prelude.{◌≡◌, length};
ghost use Rattle.support_table.specs.Parts.{AreOuters};

use crate::table::SupportTable;
use support_bits::Support;

/// The support of a ray whose adjacent rays are looked for. Candidates are the rays of `rays` other than the one with
/// index `own` that contain none of the columns `joined` and whose union with `support` has at most `most` columns.
/// Invariant: `support` and `joined` have the columns of `rays`.
#[derive(Clone, Copy)]
pub struct OuterRay<'a> {
    pub rays: &'a SupportTable,
    pub support: &'a Support,
    pub joined: &'a Support,
    pub own: usize,
    pub most: u64,
    pub ghost columns: { length support.now ≡ rays.now.columns },
    pub ghost joined_columns: { length joined.now ≡ rays.now.columns },
}

/// A ray whose adjacent rays are looked for: its index, its support, and the columns that clash with it.
#[derive(Drop)]
pub struct Outer {
    pub place: usize,
    pub support: Support,
    pub joined: Support,
}

/// Outer rays among the rays of a table. Of the rays adjacent to one, those that are `true` in `selected` are looked
/// for. The union of the supports of an adjacent pair has at most `most` columns. Invariant: `selected` has a flag for
/// each ray, and each outer ray is one of the table, with its columns.
#[derive(Clone, Copy)]
pub struct PartSearch<'a> {
    pub rays: &'a SupportTable,
    pub selected: &'a [bool],
    pub outers: &'a [Outer],
    pub most: u64,
    pub ghost flags: { length selected.now ≡ length rays.now.supports },
    pub ghost are_outers: { AreOuters rays.now.columns (length rays.now.supports) outers.now },
}
