//! Bounds on all rays and all numbers of an elimination by sums of squares in the columns (Hadamard 1893), whatever the
//! order of the rows.
//!
//! Words: rows, vertex surfaces, eliminations and the numbers of their steps are those of `cone_definitions`. The
//! *magnitude* of a row at a column is the sum of the absolute values of its coefficients there.
#![tactic(auto)]

ghost use Rattle.cone_square_laws.specs.Determinants.{DeterminantsAreBounded};
ghost use Rattle.cone_square_laws.specs.WorkedDeterminant.{WorkedIs, WorkedMost};
ghost use Rattle.cone_square_laws.specs.Laws.{SquaresAreLess, WeightsSuffice, EntriesAreBoundedBySquares, NumbersAreBoundedBySquares};

/// Theorem (Hadamard 1893): let A be a square matrix of integers. Then det(A)^2 is at most the product, over the
/// columns of A, of the sums of the squares of their entries.
pub fn determinants_are_bounded()
    ensures { DeterminantsAreBounded }
{}

/// Example: let A have the rows (1, 1) and (1, -1).
///
/// 1. det(A) = -2.
/// 2. The product of the sums of squares of the columns of A is 4.
pub fn worked_determinant()
    ensures is { WorkedIs }
    ensures most { WorkedMost }
{}

/// Theorem (after Hadamard 1893): let S be a system of rows, and P clashing pairs. Let the columns fall into groups in
/// which any two columns are a pair of P. For each group g let q(g) >= 1 be such that in each column of g the squares
/// of the magnitudes of all rows add up to at most q(g). Let Q be the product of all q(g), and let the magnitudes of
/// each row add up to at most s.
///
/// 1. For each entry x(j) of a vertex surface x, x(j)^2 <= Q.
/// 2. If s Q is at most the limit, no number of an elimination exceeds it, in any order of the rows.
pub fn squares_bound_numbers()
    ensures entries { EntriesAreBoundedBySquares }
    ensures numbers { NumbersAreBoundedBySquares }
{}

/// Theorem.
///
/// 1. Let S be a system of rows, and c a column. The sum over all rows of the squared magnitudes at c is at most the
///    square of the sum of the magnitudes at c.
/// 2. Let S satisfy the hypotheses of `numbers_are_bounded` without free columns, with numbers q(g) and s, and let s
///    Q^2 be at most the limit. Then S satisfies those of `squares_bound_numbers` with the numbers q(g)^2 and s, and s
///    times their product is at most the limit.
pub fn squares_are_less()
    ensures columns { SquaresAreLess }
    ensures suffice { WeightsSuffice }
{}
