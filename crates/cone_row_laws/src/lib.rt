//! Operations on rows that keep the solutions, and so the list of vertex surfaces, and the steps and bounds by which
//! such a list may be found in other ways.
//!
//! Words: rows, solutions, vertex surfaces, surface lists, adjacent pairs and their reduced combinations, and what is
//! named above a limit, are those of `cone_definitions`. Two systems *have the same solutions* if the same vectors of n
//! entries solve both.
#![tactic(auto)]

ghost use Rattle.cone_row_laws.specs.Laws.{SameZerosSuffice, SameSolutionsAreReflexive, SameSolutionsAreSymmetric, SameSolutionsAreTransitive, MultiplesAreAdded, AppendedIsSum, AppendedIsDifference, SignsAreNegated, OrderIsChanged, EmptyRowsAreDropped, EqualRowsAreDropped, NegatedRowsAreDropped, ExtremeOnesAgree, VertexSurfacesAgree, SurfaceListsAgree};
ghost use Rattle.cone_row_laws.specs.RedundantRows.{OneListOfSolutions, RedundantRowsAreFree, SumsAreRedundant, DifferencesAreRedundant};
ghost use Rattle.cone_row_laws.specs.Singles.{SinglesHaveNoThird};
ghost use Rattle.cone_row_laws.specs.Fresh.{UntouchedColumnsAreUnits, UntouchedUnitsAreRays, FreshStepGivesNext};
ghost use Rattle.cone_row_laws.specs.Listings.{ListsOfBoundedAreListed, BoundedDoesNotExceed};

/// Theorem: let R, S and S' be systems of rows in the same columns.
///
/// 1. If R and S are 0 at the same vectors, of any length, they have the same solutions.
/// 2. R has the solutions of R.
/// 3. If R has the solutions of S, S has those of R.
/// 4. If R has the solutions of S, and S those of S', R has those of S'.
pub fn same_solutions()
    ensures zeros { SameZerosSuffice }
    ensures reflexive { SameSolutionsAreReflexive }
    ensures symmetric { SameSolutionsAreSymmetric }
    ensures transitive { SameSolutionsAreTransitive }
{}

/// Theorem: let r and q be rows, and k an integer.
///
/// 1. In a system in which r occurs, and q at another place, r can be replaced by a row with the value r(x) + k q(x) at
///    each vector x; the solutions stay the same.
/// 2. The terms of r followed by those of q are such a row for k = 1.
/// 3. The terms of r followed by those of q with their signs changed are such a row for k = -1.
pub fn multiples_are_added()
    ensures added { MultiplesAreAdded }
    ensures sum { AppendedIsSum }
    ensures difference { AppendedIsDifference }
{}

/// Theorem: let S be a system of rows.
///
/// 1. If a row of S is negated, the solutions stay the same.
/// 2. If the rows of S are reordered, the solutions stay the same.
pub fn rows_are_negated()
    ensures signs { SignsAreNegated }
    ensures order { OrderIsChanged }
{}

/// Theorem: let r be a row of a system S. If one of the following holds, S without r has the same solutions as S.
///
/// 1. r has no terms.
/// 2. r occurs again in S.
/// 3. The negative of r occurs among the other rows of S.
pub fn rows_are_dropped()
    ensures empty { EmptyRowsAreDropped }
    ensures equal { EqualRowsAreDropped }
    ensures negated { NegatedRowsAreDropped }
{}

/// Theorem: let R and S be systems with the same solutions, and P any set of clashing pairs.
///
/// 1. A vector is an extreme solution of R if and only if it is one of S.
/// 2. A vector is a vertex surface of R if and only if it is one of S.
/// 3. A list is the surface list of R if and only if it is that of S.
pub fn surface_lists_agree()
    ensures extreme { ExtremeOnesAgree }
    ensures surfaces { VertexSurfacesAgree }
    ensures lists { SurfaceListsAgree }
{}

/// Theorem: let S be a system of rows. A row is *redundant* if it is 0 at each solution of S.
///
/// 1. If R has the solutions of S, the surface list of S, for any clashing pairs, is that of R.
/// 2. If redundant rows are put before the rows of S, the solutions stay the same.
/// 3. A row whose value at each vector is the sum of the values of two redundant rows is redundant.
/// 4. A row whose value at each vector is the difference of their values is redundant.
pub fn solutions_decide()
    ensures one { OneListOfSolutions }
    ensures free { RedundantRowsAreFree }
    ensures sums { SumsAreRedundant }
    ensures differences { DifferencesAreRedundant }
{}

/// Lemma: let S be a system of rows, c a column, and u, w and v primitive extreme solutions of S, with u 0 at each
/// column but c. If the support of v lies in the union of those of u and w, then v = u or v = w.
pub fn singles_have_no_third()
    ensures { SinglesHaveNoThird }
{}

/// Theorem: let P be a set of clashing pairs, and c a column in which all rows of S have the coefficient 0.
///
/// 1. Each vertex surface of S that is nonzero at c is the unit vector of c.
/// 2. If each pair of P has two different columns, this unit vector is a vertex surface of S.
/// 3. Let r be a row with coefficient 1 at c, and let c be in no pair of P. The vertex surfaces of S with r are exactly
///    the following: each vertex surface v of S with v(c) = 0 and r(v) <= 0, with its entry at c set to -r(v); and the
///    reduced combination of each adjacent pair u, w of S for r with u(c) = w(c) = 0.
pub fn fresh_steps()
    ensures columns { UntouchedColumnsAreUnits }
    ensures units { UntouchedUnitsAreRays }
    ensures next { FreshStepGivesNext }
{}

/// Theorem: let a system S, clashing pairs P, an order and a limit be given. Let S satisfy the hypotheses of
/// `numbers_are_bounded`, and let s Q^2 be at most the limit. Let L be the surface list of S, and let all rows be
/// listed as the order names them.
///
/// 1. L is the list of the enumeration in this order: no number of a step exceeds the limit.
/// 2. If the order is `given`, `short` or `zeros`, nothing is named as the first number above the limit.
pub fn bounded_lists()
    ensures listed { ListsOfBoundedAreListed }
    ensures none { BoundedDoesNotExceed }
{}
