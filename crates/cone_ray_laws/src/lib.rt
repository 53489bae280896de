//! Extreme rays of a cone in the usual terms: solutions that are not sums of solutions outside their ray. Extreme
//! rays of the faces of a cone.
//!
//! Words: rows, solutions, supports, extreme solutions and vertex surfaces are those of `cone_definitions`. The *face*
//! of a system on which a list of columns is 0 has the rows of the system and, for each of these columns, the row whose
//! value at a vector is its entry there.
#![tactic(auto)]

ghost use Rattle.cone_ray_laws.specs.Rays.{ExtremeSolutionsSpanRays, SpanningSolutionsAreExtreme, OnRayHaveOneRay, OneRayIsOnRay, SurfacesAreRays, RaysAreSurfaces, SumsOfOneAreOnRay, OneIsNotExtreme};
ghost use Rattle.cone_ray_laws.specs.Faces.{FaceSolutionsAreZero, SummandsAreInFace, FacesHaveExtremeSolutions, FacesHaveSurfaces, FaceListsAreFiltered};

/// Theorem: let S be a system of rows, and x a nonzero solution of S. A vector y is *on the ray* of x if a positive
/// multiple of y is a multiple of x, 0 included.
///
/// 1. If x is extreme, and two solutions add up to a positive multiple of x, both are on its ray.
/// 2. If any two solutions that add up to a positive multiple of x are on its ray, x is extreme.
/// 3. Each solution on the ray of x is, with x, a multiple of one primitive solution.
/// 4. If x and y are multiples of one primitive solution, y is on the ray of x.
pub fn rays_in_words()
    ensures forth { ExtremeSolutionsSpanRays }
    ensures back { SpanningSolutionsAreExtreme }
    ensures one_ray { OnRayHaveOneRay }
    ensures on_ray { OneRayIsOnRay }
{}

/// Theorem: let S be a system of rows, without clashing pairs.
///
/// 1. Each vertex surface of S is a primitive extreme solution of S.
/// 2. Each primitive extreme solution of S is a vertex surface of S.
pub fn no_clashes()
    ensures forth { SurfacesAreRays }
    ensures back { RaysAreSurfaces }
{}

/// Theorem: let S be a system of rows, with clashing pairs, and F its face on which the columns Z are 0.
///
/// 1. A vector solves F if and only if it solves S and is 0 on Z.
/// 2. If the sum of two solutions of S solves F, both do.
/// 3. A vector is an extreme solution of F if and only if it is one of S and is 0 on Z.
/// 4. A vector is a vertex surface of F if and only if it is one of S and is 0 on Z.
/// 5. The surface list of F consists of the members of that of S that are 0 on Z.
pub fn faces_have_rays_of_cone()
    ensures solutions { FaceSolutionsAreZero }
    ensures summands { SummandsAreInFace }
    ensures rays { FacesHaveExtremeSolutions }
    ensures surfaces { FacesHaveSurfaces }
    ensures lists { FaceListsAreFiltered }
{}

/// Example: let S be the row x + y - 2z in three columns.
///
/// 1. If (1, 1, 1) is the sum of two solutions of S, both lie on the ray of (1, 1, 1).
/// 2. The vector (1, 1, 1) is a nonzero solution of S and is not extreme.
///
/// This is why `rays_in_words` speaks of positive multiples.
pub fn sums_are_not_enough()
    ensures sums { SumsOfOneAreOnRay }
    ensures not_extreme { OneIsNotExtreme }
{}
