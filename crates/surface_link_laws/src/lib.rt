//! Vertex links as normal surfaces, and sidedness in orientable tables. The functions have empty bodies: their
//! contracts are theorems.
//!
//! The *vertex link* of a vertex class is the vector, in standard or octagon coordinates, that is 1 at each triangle
//! around a vertex of the class, and 0 elsewhere. The *link* of the class is the surface that consists of one triangle
//! for each of its vertices, with its own numbers of vertices, edges and triangles. A *surface* is an admissible
//! solution of the matching equations in standard or octagon coordinates.
#![tactic(auto)]

ghost use Rattle.surface_link_laws.specs.Laws.{LinksHaveEdgesAndTriangles, LinksHaveVertices, LinkCharacteristicsAgree, LinksAreOneComponent};
ghost use Rattle.surface_link_laws.specs.Orientation.{SidesDetermineOrientation, OneAnswerToBoth, DescribedAlike};

/// Theorem: let c be a vertex class. In standard or octagon coordinates, its vertex link has as many arcs as the link
/// of c has edges, and as many discs as that has triangles. It meets the boundary if and only if the link is not
/// closed.
pub fn links_have_edges_and_triangles()
    ensures { LinksHaveEdgesAndTriangles }
{}

/// Theorem: let k be the number of invalid edge classes whose ends are at a vertex class c. In standard or octagon
/// coordinates, the vertex link of c has k points more than the link of c has vertices, and its Euler characteristic is
/// that of the link plus k.
pub fn links_have_vertices()
    ensures { LinksHaveVertices }
{}

/// Theorem: let no edge of T be invalid, and let coordinates be standard or octagon. The vertex link of each class has
/// as many points as the link of the class has vertices, and the same Euler characteristic.
pub fn link_characteristics_agree()
    ensures { LinkCharacteristicsAgree }
{}

/// Theorem: let c be a vertex class. In standard or octagon coordinates, the vertex link of c has exactly one
/// component, which is the whole. It is two-sided, and orientable if and only if the link of c is.
pub fn links_are_one_component()
    ensures { LinksAreOneComponent }
{}

/// Theorem: let T be orientable, and x be a surface in standard or octagon coordinates.
///
/// 1. A component of x is two-sided if and only if it is orientable.
/// 2. The same is listed for both of each component of x.
/// 3. `describe` prints the same for both, for each component of a vector that it describes.
pub fn sides_determine_orientation()
    ensures signs { SidesDetermineOrientation }
    ensures reported { OneAnswerToBoth }
    ensures described { DescribedAlike }
{}
