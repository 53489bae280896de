//! Tollefson's theorem: if all vertex links are spheres or discs, the solutions of the quad equations are the quad
//! parts of standard solutions (Tollefson 1998). The functions have empty bodies: their contracts are theorems.
//!
//! A *lift* of a quad vector is a standard vector with these quads that solves the matching equations and has, for each
//! vertex class, a vertex with no triangle. It is a *lift at* a vertex class if both hold for this class: the matching
//! equations there, and the vertex with no triangle. The *quad part* of a standard vector consists of its entries at
//! quads.
#![tactic(auto)]

ghost use Rattle.surface_quad_lift_laws.specs.Laws.{QuadSolutionsLift, SolutionsCorrespond, SolutionsHaveOneLift, QuadSurfacesLift, NoneWithoutLift};

/// Theorem (Tollefson 1998): let the link of a vertex class c be a sphere or a disc. Then each solution of the quad
/// equations of T has a lift at c.
pub fn quad_solutions_lift()
    ensures { QuadSolutionsLift }
{}

/// Theorem (Tollefson 1998): let each vertex link of T be a sphere or a disc.
///
/// 1. A vector solves the quad equations of T if and only if it is the quad part of a solution of the matching
///    equations in standard coordinates.
/// 2. Each solution of the quad equations, admissible or not, has exactly one lift. The lift solves the matching
///    equations in standard coordinates, and its quad part is the given solution.
pub fn solutions_correspond()
    ensures parts { SolutionsCorrespond }
    ensures one { SolutionsHaveOneLift }
{}

/// Theorem (Tollefson 1998): let each vertex link of T be a sphere or a disc. Each admissible solution of the quad
/// equations has exactly one lift. The lift is an admissible solution of the matching equations in standard
/// coordinates, and its quad part is the given solution.
pub fn quad_surfaces_lift()
    ensures { QuadSurfacesLift }
{}

/// Theorem: let each vertex link of T be a sphere or a disc, and let x solve the quad equations of T. For no limit and
/// no vertex class c is it the correct answer for x that c is the first vertex class without a lift (`no-lift`).
pub fn none_without_lift()
    ensures { NoneWithoutLift }
{}
