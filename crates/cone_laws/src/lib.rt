//! Theorems on the double description method that follow from the definitions of a cone alone: bounds on the union of
//! an adjacent pair, adjacency by residuals, and that each enumeration ends.
//!
//! Words: rows, solutions, supports, vertex surfaces, adjacent pairs, next lists and eliminations are those of
//! `cone_definitions`. The *union* of vectors u and w is the union of their supports; it *contains* a vector if it
//! contains the vector's support. Vectors u and t are *compatible* if no clashing pair has one column in the support of
//! u and the other in that of t.
#![tactic(auto)]

ghost use Rattle.cone_laws.specs.Laws.{FacesAreSmall, PairsAreSmall, PairsOfStepsAreSmall, LargeUnionsAreNoPairs, LargeUnionsHaveThird, UnionsWithNoThirdAreSmall};
ghost use Rattle.cone_laws.specs.Cuts.{UnitVectorsAreOfNoRow, FlatStepsKeepTheList, StepsNeedOneRow, PairUnionsAreSmall, LargeUnionsOfBoundedHaveThird, PairsAreSmallByCuts};
ghost use Rattle.cone_laws.specs.Meeting.{EnoughRowsBoundUnions, MeetingRowsBoundUnions, MeetingRowsBoundPairs, UnionsExceedingMeetingRowsHaveThird, StepsAddTheirRow};
ghost use Rattle.cone_laws.specs.WorkedUnion.{WorkedPair, WorkedNoPair, WorkedCuts, WorkedMeeting};
ghost use Rattle.cone_laws.specs.Enumerations.{RowsAreTaken, EnumerationsEnd};
ghost use Rattle.cone_laws.specs.Residuals.{ResidualsDecide, MinimalResidualsHaveNoThird, InsideAreCompatible, CompatibleDecide, SmallerResidualsAlone, EqualResidualsSpoil};

/// Theorem: let S be a system of rows.
///
/// 1. Let u and w be primitive extreme solutions of S such that the union of their supports contains the support of no
///    third one. Then the union has at most two columns more than S has rows.
/// 2. The union of the supports of an adjacent pair of S, for a further row r, has at most two columns more than S has
///    rows.
/// 3. The union of the supports of an adjacent pair of the first k rows, for row k, has at most k + 2 columns.
pub fn unions_are_small()
    ensures faces { FacesAreSmall }
    ensures pairs { PairsAreSmall }
    ensures steps { PairsOfStepsAreSmall }
{}

/// Theorem: let S be a system of rows, and P a set of clashing pairs. In 2 and 3, let u and w be members of the surface
/// list L of S, and let the union of their supports contain no pair of P.
///
/// 1. Vectors whose union of supports has more than k + 2 columns are no adjacent pair of the first k rows for row k.
/// 2. If the union has more than two columns more than S has rows, it contains the support of a third member of L.
/// 3. If the union contains the support of no third member, it has at most two columns more than S has rows.
pub fn large_unions_are_no_pairs()
    ensures none { LargeUnionsAreNoPairs }
    ensures third { LargeUnionsHaveThird }
    ensures small { UnionsWithNoThirdAreSmall }
{}

/// Theorem: let P be a set of clashing pairs; in 1 and 6, let each have two different columns. A list *needs at most k
/// rows* if it is the surface list of at most k rows. Let L be a surface list.
///
/// 1. The list of unit vectors needs no row.
/// 2. If r is 0 at each member of L, its next list for r is L.
/// 3. If L needs at most k rows, its next list needs at most k + 1.
/// 4. If L needs at most k rows, the union of an adjacent pair has at most k + 2 columns.
/// 5. In 4, a larger union of two members without a clashing pair contains a third member's support.
/// 6. In an elimination, 4 holds with k the number of earlier cuts: rows that are nonzero at a member of their list.
pub fn cuts_bound_unions()
    ensures first { UnitVectorsAreOfNoRow }
    ensures flat { FlatStepsKeepTheList }
    ensures cut { StepsNeedOneRow }
    ensures pairs { PairUnionsAreSmall }
    ensures third { LargeUnionsOfBoundedHaveThird }
    ensures lists { PairsAreSmallByCuts }
{}

/// Theorem: let S be a system of rows, and U the union of the supports of u and w; in 1 and 2, let these be primitive
/// extreme solutions of S without a third one in U. A row *meets* U if it has a term there.
///
/// 1. If rows R are 0 at u and w, and each solution of R in U solves S, then U has at most two columns more than R has
///    rows.
/// 2. U has at most two columns more than rows of S meet it.
/// 3. If u and w are an adjacent pair of S, 2 holds.
/// 4. Let u and w be in the surface list of S. If 2 fails and U contains no clashing pair, U contains a third member.
/// 5. If L is the surface list of S and S', its next list for r is that of S' with r.
pub fn meeting_rows_bound_unions()
    ensures enough { EnoughRowsBoundUnions }
    ensures faces { MeetingRowsBoundUnions }
    ensures pairs { MeetingRowsBoundPairs }
    ensures third { UnionsExceedingMeetingRowsHaveThird }
    ensures steps { StepsAddTheirRow }
{}

/// Example.
///
/// 1. At the second of the rows x + y - 2z and x - y, the vectors (2,0,1) and (0,2,1) are an adjacent pair; their union
///    has 3 columns.
/// 2. The second of the rows x + y - z - t and x - y + z - t is positive at (1,0,1,0) and negative at (0,1,0,1). Their
///    union has 4 columns; they are no adjacent pair.
/// 3. Of the rows x + y - 2z, 2x + 2y - 4z and x - y, the first and the third are nonzero at a member of their list;
///    the second is not.
/// 4. Of x + y - z - t and p - q, one row meets the union of (1,0,1,0,0,0) and (0,1,0,1,0,0), which has 4 columns. They
///    are no adjacent pair for the row x - y + z - t.
pub fn small_unions()
    ensures pair { WorkedPair }
    ensures none { WorkedNoPair }
    ensures cuts { WorkedCuts }
    ensures meeting { WorkedMeeting }
{}

/// Lemma: for each of the orders `given`, `short`, `zeros` and any order, all rows of a system can be listed, each
/// once, such that each row is the one that the order names among the rows left.
pub fn rows_are_taken()
    ensures { RowsAreTaken }
{}

/// Theorem: let a system of rows, clashing pairs, an order of the rows and a limit be given. Let each clashing pair
/// have two different columns. Then the rows can be listed as the order names them, with a surface list and no number
/// of a step above the limit, or a ray or pair is named at the last step of such a list of some of the rows.
pub fn enumerations_end()
    ensures { EnumerationsEnd }
{}

/// Theorem: let u, w and t be vectors of n entries, in 2 and 4 members of a list L. The *residual* of t is t where u is
/// 0, and 0 elsewhere. Let U be the union of the supports of u and w; in 3 and 4, let it contain no clashing pair.
///
/// 1. U contains the support of t if and only if the residual of w contains that of t.
/// 2. U contains no third member if and only if the residual of w contains that of no third member.
/// 3. If U contains t, t is compatible with u.
/// 4. In 2, members incompatible with u can be left out.
/// 5. If U contains t, the union of u and t has at most as many columns as U.
/// 6. If it has as many, it contains w.
pub fn residuals_decide()
    ensures inside { ResidualsDecide }
    ensures minimal { MinimalResidualsHaveNoThird }
    ensures compatible_list { InsideAreCompatible }
    ensures among { CompatibleDecide }
    ensures smaller { SmallerResidualsAlone }
    ensures equal { EqualResidualsSpoil }
{}
