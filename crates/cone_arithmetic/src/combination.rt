//! Combinations of two vectors of equal length.

ghost use Rattle.std.specs.Prelude.{◌≡◌, ◌<◌, ◌^◌, length};
ghost use Rattle.cone_definitions.specs.Vectors.{multiple, sum_of};
ghost use Rattle.cone_arithmetic.specs.Filled.{NameColumns};
ghost use Rattle.cone_arithmetic.specs.NarrowEntries.{narrow_numbers};

use crate::narrow::Narrow;

/// The combination `a * w + b * u` of two vectors of equal length.
#[derive(Clone, Copy)]
pub(crate) struct Combination<'a> {
    pub a: u128,
    pub w: &'a [u128],
    pub b: u128,
    pub u: &'a [u128],
    pub ghost lengths: { length u.now ≡ length w.now },
    pub ghost width: { length w.now < 2 ^ 32 },
}

/// As `Combination`, in at most 64 bits, with words that name columns. Invariant: the combination is 0 in the other
/// columns.
#[derive(Clone, Copy)]
pub(crate) struct SmallCombination<'a> {
    pub a: u64,
    pub w: Narrow<'a>,
    pub b: u64,
    pub u: Narrow<'a>,
    pub words: &'a [u64],
    pub ghost lengths: { length (narrow_numbers u) ≡ length (narrow_numbers w) },
    pub ghost width: { length (narrow_numbers w) < 2 ^ 32 },
    pub ghost names: { NameColumns (sum_of (multiple a (narrow_numbers w)) (multiple b (narrow_numbers u))) words.now },
}

/// As `SmallCombination`, in 8 bits.
#[derive(Clone, Copy)]
pub(crate) struct ByteCombination<'a> {
    pub a: u8,
    pub w: &'a [u8],
    pub b: u8,
    pub u: &'a [u8],
    pub words: &'a [u64],
    pub ghost lengths: { length u.now ≡ length w.now },
    pub ghost width: { length w.now < 2 ^ 32 },
    pub ghost names: { NameColumns (sum_of (multiple a w.now) (multiple b u.now)) words.now },
}
