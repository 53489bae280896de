//! A solution as a sum of listed rays, and the check of such a sum. The definitions are in `specs/`.
#![tactic(auto)]

/// A vector with its factor.
#[derive(Drop)]
pub struct Term<V> {
    pub count: u128,
    pub vector: V,
}

/// Why a solution is not answered as a sum: at step `turn`, counted from 0, a multiple of an entry exceeds the limit,
/// first at column `column`.
#[derive(Clone, Copy)]
pub struct LargeTurn {
    pub turn: u32,
    pub column: u32,
}

/// Why given terms do not add up to a vector.
#[derive(Clone, Copy)]
pub enum AddFault {
    /// The factor of the vector is 0.
    ZeroTimes,
    /// The entry at this column, times the factor, exceeds the limit.
    Large { column: u32 },
    /// The terms do not add up to the multiple of the vector at this column.
    NotEqual { column: u32 },
}
