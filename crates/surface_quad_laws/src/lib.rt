//! Standard coordinates and quad coordinates (Tollefson 1998; Burton 2009). The functions have empty bodies: their
//! contracts are theorems.
//!
//! A *standard solution* is a solution of the matching equations in standard coordinates. The *quad part* of a standard
//! vector consists of its entries at quads. The *vertex link* of a vertex class is 1 at each triangle around a vertex
//! of the class, and 0 elsewhere. A vector is *canonical* if each vertex class has a vertex around which it has no
//! triangle. A *lift* of a quad vector is a canonical standard solution with this quad part. A *combination of vertex
//! links* has nonnegative integer coefficients.
#![tactic(auto)]

ghost use Rattle.surface_quad_laws.specs.QuadLaws.{QuadsSolve, QuadsDecideAdmissibility};
ghost use Rattle.surface_quad_laws.specs.LinkLaws.{NoLinkIsCanonical, LinksAreSurfaces, LinkingSolutionsAreLinks};
ghost use Rattle.surface_quad_laws.specs.EulerLaws.{ComponentCharacteristicsAddUp};
ghost use Rattle.surface_quad_laws.specs.SolutionLaws.{TrianglesDifferByClass, SolutionsAreLiftsAndLinks, QuadsHaveLifts, CanonicalAreLifts, SameQuadsDifferByLinks, LiftedAreQuads, LiftedSolveQuads};

/// Theorem: the quad part of a standard solution of T solves the quad equations of T, one for each internal edge, also
/// at invalid edges.
pub fn quads_solve()
    ensures { QuadsSolve }
{}

/// Theorem: a vector in standard coordinates is admissible if and only if its quad part is: at most one quad type of
/// each tetrahedron is nonzero.
pub fn quads_decide_admissibility()
    ensures { QuadsDecideAdmissibility }
{}

/// Theorem: let coordinates be standard or octagon.
///
/// 1. The vertex link of each vertex class is an admissible solution of the matching equations, and 0 at each quad and
///    octagon.
/// 2. No vertex link is canonical: the vertices of its class all have a triangle.
pub fn links_are_surfaces()
    ensures linking { LinksAreSurfaces }
    ensures no_canonical { NoLinkIsCanonical }
{}

/// Theorem: in standard or octagon coordinates, each solution of the matching equations that is 0 at each quad and
/// octagon is a combination of vertex links with nonnegative integer coefficients.
pub fn linking_solutions_are_links()
    ensures { LinkingSolutionsAreLinks }
{}

/// Theorem: let y and z be standard solutions with the same quad part, and c a vertex class. There is an integer d such
/// that, at each vertex of c, the number of triangles in y minus that in z is d.
pub fn triangles_differ_by_class()
    ensures { TrianglesDifferByClass }
{}

/// Theorem: let y be a standard solution. Then y is a lift of its quad part plus a combination of vertex links with
/// nonnegative integer coefficients. The lift and the coefficients are unique.
pub fn solutions_are_lifts_and_links()
    ensures { SolutionsAreLiftsAndLinks }
{}

/// Theorem: the quad part of each standard solution has a lift.
pub fn quads_have_lifts()
    ensures { QuadsHaveLifts }
{}

/// Theorem: let y be a standard solution. Then y is a lift of its quad part if and only if y is canonical: each vertex
/// class has a vertex around which y has no triangle.
pub fn canonical_are_lifts()
    ensures { CanonicalAreLifts }
{}

/// Theorem: let y and z be standard solutions with the same quad part. There are combinations a and b of vertex links,
/// with nonnegative integer coefficients, such that y + a = z + b.
pub fn same_quads_differ_by_links()
    ensures { SameQuadsDifferByLinks }
{}

/// Theorem: let x be a vector in any coordinates, and let its components be listed. The Euler characteristics of these
/// components add up to that of x.
pub fn component_characteristics_add_up()
    ensures { ComponentCharacteristicsAddUp }
{}

/// Theorem: let x be a vector of 3n entries, where T has n tetrahedra. Then x has a lift if and only if it is the quad
/// part of a standard solution.
pub fn lifted_are_quads()
    ensures { LiftedAreQuads }
{}

/// Theorem: let x be a vector of 3n entries, where T has n tetrahedra. If x has a lift, it solves the quad equations of
/// T.
pub fn lifted_solve_quads()
    ensures { LiftedSolveQuads }
{}
