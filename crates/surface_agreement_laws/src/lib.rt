//! Vertex surfaces in standard, quad and octagon coordinates compared (Burton 2009). The functions have empty bodies:
//! their contracts are theorems.
//!
//! A *vertex surface* of T is a primitive extreme solution of its equations, in the coordinates named, that is nonzero
//! in no clashing pair of columns; a *list* of T has exactly these, in ascending lexicographic order. The *quad part*
//! of a standard vector consists of its entries at quads. The *vertex link* of a vertex class is 1 at each triangle
//! around a vertex of the class, and 0 elsewhere. A vector is *canonical* if each vertex class has a vertex around
//! which it has no triangle. A *lift* of a quad vector is a canonical standard solution with this quad part. A quad
//! vector is *on an extreme ray* if a positive multiple of it is a positive multiple of an extreme solution of the quad
//! equations. A standard vector is *taken into* octagon coordinates with 0 at each octagon.
#![tactic(auto)]

ghost use Rattle.surface_agreement_laws.specs.Laws.{LiftsAreVertexSurfaces, LinksAreVertexSurfaces, QuadVertexSurfacesLift, StandardAreInOctagons, WithoutOctagonsAreStandard, CharacteristicsAgree};
ghost use Rattle.surface_agreement_laws.specs.SurfaceKinds.{LiftsHaveVertexQuads, LiftsHaveExtremeQuads, ListedAreOfOneKind, OtherQuadsAreOnNoRay, StandardListIsCounted};
ghost use Rattle.surface_agreement_laws.specs.WorkedTable.{TwoQuadsAreVertexSurface, TwoQuadsAreCanonical, TheirQuadsAreNone};
ghost use Rattle.surface_agreement_laws.specs.Laws.{ListedLiftsAreListed, ListedQuadsLift, LinksAreListed, StandardListIsLong, OneListedLinkEach, ListedLinksAreCounted, ListsAgree, VertexSurfacesAreLinksOrCanonical, LinkingAreLinks, VertexSurfacesAreLinksOrLifts, QuadsAreSums, OneTermIsListed};

/// Theorem (Burton 2009): if a quad vertex surface of T has a lift, the lift is a standard vertex surface.
pub fn lifts_are_vertex_surfaces()
    ensures { LiftsAreVertexSurfaces }
{}

/// Theorem: the vertex link of each vertex class of T is a vertex surface in standard and in octagon coordinates.
pub fn links_are_vertex_surfaces()
    ensures { LinksAreVertexSurfaces }
{}

/// Theorem (Burton 2009): let each vertex link of T be a sphere or a disc. Each quad vertex surface of T is the quad
/// part of exactly one canonical standard solution. This solution is a standard vertex surface.
pub fn quad_vertex_surfaces_lift()
    ensures { QuadVertexSurfacesLift }
{}

/// Theorem: take standard vectors of T into octagon coordinates with 0 at each octagon.
///
/// 1. A standard vector of T is a standard vertex surface if and only if it is taken to an octagon vertex surface.
/// 2. The octagon vertex surfaces that are 0 at each octagon are exactly the vectors to which standard vertex surfaces
///    are taken.
/// 3. A standard vector of T is taken to a vector of the same Euler characteristic.
pub fn surfaces_without_octagons_are_standard()
    ensures as_they_are { StandardAreInOctagons }
    ensures all { WithoutOctagonsAreStandard }
    ensures characteristic { CharacteristicsAgree }
{}

/// Theorem:
///
/// 1. The standard list of T contains each lift of a surface in the quad list.
/// 2. Let each vertex link of T be a sphere or a disc. Each surface of the quad list is the quad part of exactly one
///    canonical standard solution, which is in the standard list.
/// 3. The standard list and the octagon list contain the vertex link of each vertex class.
/// 4. Let each vertex link be a sphere or a disc. The length of the standard list is at least the length of the quad
///    list plus the number of vertex classes.
pub fn lifts_are_listed()
    ensures lifts { ListedLiftsAreListed }
    ensures one_each { ListedQuadsLift }
    ensures links { LinksAreListed }
    ensures number { StandardListIsLong }
{}

/// Theorem: let L be the list of T in standard or octagon coordinates.
///
/// 1. For each vertex class c, exactly one member of L consists of triangles alone and has a triangle around a vertex
///    of c: the vertex link of c.
/// 2. The number of members of L that consist of triangles alone is the number of vertex classes.
pub fn links_are_counted()
    ensures one_each { OneListedLinkEach }
    ensures number { ListedLinksAreCounted }
{}

/// Theorem: the standard list of T, taken into octagon coordinates with 0 at each octagon, is the list of those
/// surfaces in the octagon list that are 0 at each octagon, in the same order.
pub fn lists_agree()
    ensures { ListsAgree }
{}

/// Theorem:
///
/// 1. Each vertex surface of T in standard or octagon coordinates is a vertex link or canonical.
/// 2. Such a vertex surface is 0 at each quad and octagon if and only if it is a vertex link.
/// 3. Each standard vertex surface is a vertex link, or it is the lift of its quad part, and this is a primitive
///    admissible solution of the quad equations.
pub fn vertex_surfaces_are_links_or_lifts()
    ensures either { VertexSurfacesAreLinksOrCanonical }
    ensures linking { LinkingAreLinks }
    ensures lifts { VertexSurfacesAreLinksOrLifts }
{}

/// Theorem (Burton 2009): let y be a standard vertex surface of T, and q its quad part.
///
/// 1. y is the lift of a quad vertex surface if and only if q is a quad vertex surface.
/// 2. y is the lift of a quad vertex surface if and only if q is on an extreme ray.
/// 3. Let y be in the standard list, and L the quad list. Exactly one holds: y is a vertex link; y is the lift of a
///    surface in L; y is the lift of q, q is on no extreme ray, and a positive multiple of q is a sum of two or more
///    different members of L with positive integer coefficients.
pub fn standard_surfaces_are_lifts()
    ensures quads { LiftsHaveVertexQuads }
    ensures rays { LiftsHaveExtremeQuads }
    ensures listed { ListedAreOfOneKind }
{}

/// Theorem: let R consist of the surfaces in the standard list of T that have quads, and whose quad part is not in the
/// quad list.
///
/// 1. A surface in the standard list is in R if and only if it is the lift of its quad part, this is on no extreme ray,
///    and a positive multiple of it is a sum of two or more different members of the quad list, each with a positive
///    integer coefficient.
/// 2. Let each vertex link be a sphere or a disc. The length of the standard list is the length of the quad list, plus
///    the number of vertex classes, plus the length of R.
pub fn standard_lists_are_counted()
    ensures kinds { OtherQuadsAreOnNoRay }
    ensures number { StandardListIsCounted }
{}

/// Theorem: let L be the quad list of T.
///
/// 1. Let y be an admissible solution in standard coordinates. Some positive multiple of the quad part of y is a sum of
///    members of L, each with a positive integer coefficient.
/// 2. Let y be a canonical standard vertex surface, and let a positive multiple of its quad part be such a sum, of
///    different members. The sum has exactly one term if and only if L contains the quad part of y.
pub fn quads_are_sums()
    ensures sums { QuadsAreSums }
    ensures one_term { OneTermIsListed }
{}

/// Example: let T be two tetrahedra, glued along one face by the identity, and x one quad of each that meet in this
/// face.
///
/// 1. x is a standard vertex surface.
/// 2. x is canonical.
/// 3. The quad part of x is no quad vertex surface.
pub fn quads_need_be_no_vertex_surface()
    ensures standard { TwoQuadsAreVertexSurface }
    ensures is_canonical { TwoQuadsAreCanonical }
    ensures no_quad { TheirQuadsAreNone }
{}
