//! The limit on numbers.

ghost use Rattle.std.specs.Prelude.{◌≤◌};
ghost use Rattle.cone_arithmetic.specs.declared.numbers.TheConstants.{MAX_ENTRY};

use crate::numbers::MAX_ENTRY;

/// The greatest number allowed for an entry of a ray, and for the positive and the negative part of a row at a ray.
/// Invariant: at most `MAX_ENTRY`.
#[derive(Clone, Copy)]
pub struct Limit {
    pub number: u128,
    pub ghost fits: { number ≤ MAX_ENTRY },
}

impl Limit {
    /// The greatest limit.
    pub const MAX: Limit = Limit { number: MAX_ENTRY };
}
