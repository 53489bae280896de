//! Theorems on what crushing along a vector keeps: whether a table is closed or orientable, and the table itself if the
//! vector has no quads. The functions have empty bodies: their contracts are theorems.
//!
//! A table is *crushed along* a vector in standard coordinates by removing each tetrahedron at which the vector has a
//! quad, and gluing the others across the removed ones. A table is *closed* if no face is a boundary face. A vector has
//! *no quads* if it is 0 at each quad of the table.
#![tactic(auto)]

ghost use Rattle.surface_crushing_laws.specs.Laws.{CrushedToItself, NothingElseIsCrushed, LinkingCrushesNothing, FitAreCrushedToItself};
ghost use Rattle.surface_crushing_laws.specs.Invariants.{CrushingKeepsClosed, CrushingKeepsOrientable};

/// Theorem: let x be a vector in standard coordinates. A table T is crushed to T along x if and only if x has no quads.
pub fn crushed_to_itself()
    ensures { CrushedToItself }
{}

/// Theorem: let T be a table, and x a vector in standard coordinates.
///
/// 1. If x has no quads, T is crushed along x to no other table than T.
/// 2. If x is vertex linking, T is crushed along x to a table if and only if this is T.
/// 3. If x has no quads and is an admissible solution within 2^127 - 1, the one answer of `crush` to T and x is T.
pub fn nothing_is_crushed()
    ensures without_quads { NothingElseIsCrushed }
    ensures linking { LinkingCrushesNothing }
    ensures answer { FitAreCrushedToItself }
{}

/// Theorem: let a table T be crushed along a vector in standard coordinates, which need not be a solution.
///
/// 1. If T is closed, the result is closed.
/// 2. If T is orientable, the result is orientable.
pub fn crushing_keeps()
    ensures closed { CrushingKeepsClosed }
    ensures orientable { CrushingKeepsOrientable }
{}
