//! Octagon coordinates by their quads and octagons: Tollefson's theorem for surfaces with octagons (Tollefson 1998;
//! Burton 2010b). The functions have empty bodies: their contracts are theorems.
//!
//! An *octagon solution* is a solution of the matching equations in octagon coordinates, a *standard solution* one in
//! standard coordinates. The *quad-octagon part* of a vector in octagon coordinates, of 6n entries for n tetrahedra,
//! consists of its entries at quads and octagons. A quad-octagon vector solves the quad equations *by its quads* if the
//! quad vector does in which each octagon is replaced by two quads, one of each other type. It is *admissible* if at
//! most one of the six types of each tetrahedron, and one octagon in all tetrahedra, is nonzero. A *combination of
//! vertex links* has nonnegative integer coefficients. A vector is *canonical* if each vertex class has a vertex around
//! which it has no triangle.
#![tactic(auto)]

ghost use Rattle.surface_octagon_laws.specs.Laws.{OctagonsMatchAsQuads, QuadsAndOctagonsSolve, QuadsAndOctagonsDecideAdmissibility, OctagonSolutionsAreCanonicalAndLinks, LiftedAreOfOctagonSolutions, OctagonSolutionsCorrespond, OneCanonicalOctagonSolution, QuadOctagonSurfacesLift};

/// Theorem: let y be a vector of T in octagon coordinates, and z the standard vector in which each octagon of y is
/// replaced by two quads, one of each other type. Then y is an octagon solution if and only if z is a standard
/// solution.
pub fn octagons_match_as_quads()
    ensures { OctagonsMatchAsQuads }
{}

/// Theorem: the quad-octagon part of an octagon solution of T, with each octagon replaced by two quads, one of each
/// other type, solves the quad equations of T.
pub fn quads_and_octagons_solve()
    ensures { QuadsAndOctagonsSolve }
{}

/// Theorem: a vector in octagon coordinates is admissible if and only if its quad-octagon part is. That is, at most one
/// quad or octagon type of each tetrahedron, and at most one octagon type in all, is nonzero.
pub fn quads_and_octagons_decide_admissibility()
    ensures { QuadsAndOctagonsDecideAdmissibility }
{}

/// Theorem: let y be an octagon solution of T. Then y is a canonical octagon solution plus a combination of vertex
/// links with nonnegative integer coefficients. The canonical solution and the coefficients are unique.
pub fn octagon_solutions_are_canonical_and_links()
    ensures { OctagonSolutionsAreCanonicalAndLinks }
{}

/// Theorem: let T have n tetrahedra, and x be a quad-octagon vector of 6n entries. Replace each octagon of x by two
/// quads, one of each other type. This quad vector has a lift if and only if x is the quad-octagon part of an octagon
/// solution.
pub fn lifted_are_of_octagon_solutions()
    ensures { LiftedAreOfOctagonSolutions }
{}

/// Theorem: let each vertex link of T be a sphere or a disc. Let x be a vector of 6n entries, where T has n tetrahedra,
/// and replace each octagon by two quads, one of each other type.
///
/// 1. This quad vector solves the quad equations of T if and only if x is the quad-octagon part of an octagon solution.
/// 2. If it solves them, exactly one canonical octagon solution has the quad-octagon part x.
pub fn octagon_solutions_correspond()
    ensures parts { OctagonSolutionsCorrespond }
    ensures one { OneCanonicalOctagonSolution }
{}

/// Theorem: let each vertex link of T be a sphere or a disc. Let x be an admissible quad-octagon vector of 6n entries
/// that, with each octagon replaced by two quads, one of each other type, solves the quad equations of T. Exactly one
/// canonical octagon solution has the quad-octagon part x, and it is admissible.
pub fn quad_octagon_surfaces_lift()
    ensures { QuadOctagonSurfacesLift }
{}
