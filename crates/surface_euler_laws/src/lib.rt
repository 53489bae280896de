//! Connected normal surfaces have Euler characteristic at most 2, as has each connected complex of polygons that are
//! glued along sides. The functions here have no code: their contracts are laws over the definitions.
//!
//! A *surface* is an admissible solution of the matching equations of T in standard or octagon coordinates; 0 is one.
//! It is *connected* if it has exactly one component. T is *0-efficient by its numbers* if each connected surface of
//! positive Euler characteristic, in standard coordinates, is a vertex link. An *octagonal almost normal sphere, by its
//! numbers* is a connected surface in octagon coordinates with exactly one octagon and Euler characteristic 2.
#![tactic(auto)]

ghost use Rattle.surface_euler_laws.specs.Laws.{SurfacesHaveAtMostTwoEach, ConnectedHaveAtMostTwo, ComponentsAreConnected, ComponentsHaveAtMostTwo, VertexSurfacesHaveAtMostTwo, LinksHaveAtMostTwo, PositiveIsOneOrTwo, OctagonalSphereNumbersAreOneAndTwo, AlmostNormalSphereIsListed};
ghost use Rattle.surface_euler_laws.specs.Polygons.{PolygonsHaveAtMostTwo};

/// Lemma: let finitely many polygons, arcs and points be given. Each arc lies between two polygons, which may be equal,
/// and joins two points. Let the polygons fall into at most k parts, each connected across arcs, and the points into at
/// most k parts, each connected by arcs. For each side of a polygon that lies between two different polygons, let the
/// other sides of the polygon join the ends of this side. Then points + polygons <= arcs + 2k.
pub fn polygons_have_at_most_two()
    ensures { PolygonsHaveAtMostTwo }
{}

/// Theorem: let x be a surface in standard or octagon coordinates. The vector of each of its components is a surface
/// with exactly one component.
pub fn components_are_connected()
    ensures { ComponentsAreConnected }
{}

/// Theorem: let no edge of T be invalid. Surfaces are in standard or octagon coordinates.
///
/// 1. The Euler characteristic of a surface with k components is at most 2k.
/// 2. That of a connected surface is at most 2.
/// 3. That of each component of a surface is at most 2.
/// 4. That of each vertex surface is at most 2.
/// 5. The link of each vertex class has Euler characteristic at most 2.
pub fn surfaces_have_at_most_two_each()
    ensures each { SurfacesHaveAtMostTwoEach }
    ensures connected { ConnectedHaveAtMostTwo }
    ensures component { ComponentsHaveAtMostTwo }
    ensures vertex { VertexSurfacesHaveAtMostTwo }
    ensures links { LinksHaveAtMostTwo }
{}

/// Theorem: let no edge of T be invalid.
///
/// 1. A connected surface of positive Euler characteristic, in standard or octagon coordinates, has Euler
///    characteristic 1 or 2.
/// 2. A connected surface in octagon coordinates with k >= 1 octagons and Euler characteristic at least 2k has k = 1
///    and Euler characteristic 2.
pub fn positive_surfaces_have_one_or_two()
    ensures positive { PositiveIsOneOrTwo }
    ensures octagons { OctagonalSphereNumbersAreOneAndTwo }
{}

/// Theorem (Rubinstein 1995; Thompson 1994): let no edge of T be invalid, and let T be 0-efficient by its numbers: each
/// connected surface of positive Euler characteristic, in standard coordinates, is a vertex link. Then T has a
/// connected surface in octagon coordinates with exactly one octagon and Euler characteristic 2 if and only if such a
/// surface is a vertex surface of T in these coordinates. Almost normal surfaces with a tube are not meant.
pub fn almost_normal_sphere_is_listed()
    ensures { AlmostNormalSphereIsListed }
{}
