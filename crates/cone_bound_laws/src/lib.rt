//! Bounds on all rays and all numbers of an elimination that follow from the equations alone, whatever the order of the
//! rows.
//!
//! Words: rows, vertex surfaces, eliminations and the numbers of their steps are those of `cone_definitions`. The
//! *magnitude* of a row at a column is the sum of the absolute values of its coefficients there.
#![tactic(auto)]

ghost use Rattle.cone_bound_laws.specs.Laws.{EntriesAreBounded, NumbersAreBounded};

/// Theorem: let S be a system of rows, P clashing pairs, and let certain columns be *free*. In the free columns, let
/// each row's positive coefficients add up to at most 1, and its negative ones to at least -1. Let the other columns
/// fall into groups in which any two columns are a pair of P. For each group g let q(g) >= 1 be at least the sum of the
/// magnitudes of all coefficients in each column of g. Let Q be the product of all q(g), and let the magnitudes of each
/// row add up to at most s.
///
/// 1. No entry of a vertex surface exceeds Q.
/// 2. If s Q^2 is at most the limit, no number of an elimination exceeds it, in any order of the rows.
pub fn numbers_are_bounded()
    ensures entries { EntriesAreBounded }
    ensures numbers { NumbersAreBounded }
{}
