//! Normal surfaces as sums of vertex surfaces, and the list of vertex surfaces as the union of independent lists. The
//! functions have empty bodies: their contracts are theorems.
//!
//! Coordinates are standard, quad or octagon. A *vector* of T has one entry for each disc type of each tetrahedron. It
//! is *admissible* if it is 0 in one column of each clashing pair. The *surface list* of T has exactly the vertex
//! surfaces of T: the admissible vectors that are primitive extreme solutions of the equations of T. Two vectors are
//! *compatible* if the union of their supports contains no clashing pair. A *sum* of vectors has a nonnegative integer
//! coefficient for each term. A *choice* for some tetrahedra has one of the types 01/23, 02/13 and 03/12 for each of
//! them. Its *part* is the face of the solution cone on which all quads and octagons of these tetrahedra of other types
//! are 0; its vertex surfaces and their list have the clashing pairs of T.
#![tactic(auto)]

ghost use Rattle.surface_sum_laws.specs.Laws.{SolutionsAreSums, SupportsAreInside, SumsAreSolutions, SumsOfCompatibleAreAdmissible, OneTermIsMultiple, OthersHaveTwoTerms, ListsExist};
ghost use Rattle.surface_sum_laws.specs.Parts.{VertexSurfacesAreInParts, ListsAreUnionsOfParts, PartsHaveLists, ChoicesAreCounted, CommonSurfacesHaveNoDisc};
ghost use Rattle.surface_sum_laws.specs.WorkedSum.{AloneHasList, AloneIsSum, AloneHasPart};

/// Theorem (Haken 1961; Jaco and Oertel 1984; Burton 2009): let L be the surface list of T in standard, quad or octagon
/// coordinates, and x a vector of T.
///
/// 1. x is an admissible solution of the equations of T if and only if a positive multiple of x is a sum of different
///    members of L, with positive coefficients, any two of which are compatible.
/// 2. If a positive multiple of x is a sum of different members of L, with positive coefficients, the support of each
///    of these lies in that of x.
pub fn solutions_are_sums()
    ensures both { SolutionsAreSums }
    ensures inside { SupportsAreInside }
{}

/// Theorem: let L be the surface list of T in standard, quad or octagon coordinates. Let y be a sum of members of L,
/// which need not be different.
///
/// 1. y solves the equations of T.
/// 2. Let all coefficients be positive. y is admissible if and only if any two of its terms are compatible.
pub fn sums_are_solutions()
    ensures solve { SumsAreSolutions }
    ensures admissible { SumsOfCompatibleAreAdmissible }
{}

/// Theorem: let L be the surface list of T in standard, quad or octagon coordinates, and x a vector of T. Let a
/// positive multiple of x be a sum of different members of L with positive coefficients.
///
/// 1. The sum has exactly one term if and only if x is a positive multiple of a member of L.
/// 2. If x is nonzero and no positive multiple of a member of L, the sum has at least two terms.
pub fn one_term_is_multiple()
    ensures one { OneTermIsMultiple }
    ensures others { OthersHaveTwoTerms }
{}

/// Theorem: let T be a table, and let its equations be given, in standard, quad or octagon coordinates. Then T has a
/// surface list in these coordinates.
pub fn lists_exist()
    ensures { ListsExist }
{}

/// Theorem: let T be a table, in standard, quad or octagon coordinates, and choose k tetrahedra of T.
///
/// 1. A vector is a vertex surface of T if and only if it is one of the part of some choice for these tetrahedra.
/// 2. The surface list of T is the union of the surface lists of the parts of all choices.
/// 3. Each part has a surface list.
/// 4. There are 3^k choices.
/// 5. Let two choices differ in the type of one tetrahedron t alone. A vector is a vertex surface of both parts if and
///    only if it is one of the part of the choice without t, and has no quads and octagons in t.
pub fn lists_are_unions_of_parts()
    ensures surfaces { VertexSurfacesAreInParts }
    ensures lists { ListsAreUnionsOfParts }
    ensures exist { PartsHaveLists }
    ensures count { ChoicesAreCounted }
    ensures common { CommonSurfacesHaveNoDisc }
{}

/// Example: let T be one tetrahedron without gluings, in standard coordinates.
///
/// 1. The surface list of T consists of the unit vectors: one disc of each of the 7 types.
/// 2. Two triangles of different types and two quads of one type are pairwise compatible, and their sum is an
///    admissible solution.
/// 3. The surface list of the part of the type 01/23 consists of the triangles and the quad 01/23.
pub fn one_tetrahedron()
    ensures list { AloneHasList }
    ensures sum { AloneIsSum }
    ensures part { AloneHasPart }
{}
