//! Quad vectors with their skeleton, and heights over them.

ghost use Rattle.std.specs.Prelude.{◌≡◌, ◌*◌, ◌≤◌, length, sum};
ghost use Rattle.text_definitions.specs.Written.{limit};
ghost use Rattle.table_definitions.specs.Table.{max_tets};
ghost use Rattle.quad_lift.specs.Spreads.{AreAllSpread};

use skeleton::Skeleton;

/// A vector in quad coordinates with its skeleton. Invariant: `start` is four times the sum of the entries, at most
/// 2^127 - 1; heights begin with it.
#[derive(Clone, Copy)]
pub struct QuadVector<'a> {
    pub skeleton: &'a Skeleton,
    pub entries: &'a [u128],
    pub start: u128,
    pub ghost limited: { length skeleton.now.rows ≤ max_tets },
    pub ghost width: { length entries.now ≡ 3 * length skeleton.now.rows },
    pub ghost four_times: { start ≡ 4 * sum entries.now },
    pub ghost fits: { 4 * sum entries.now ≤ limit },
}

/// A quad vector with heights of all vertices. Invariant: `values` are spread over the vector, so any heights of a
/// class differ from them by one number.
#[derive(Clone, Copy)]
pub struct Heights<'a> {
    pub vector: QuadVector<'a>,
    pub values: &'a [u128],
    pub ghost spread: { AreAllSpread vector.skeleton.now vector.entries.now values.now },
}
