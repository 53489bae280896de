//! The listed vertex surfaces of a table decide by their Euler characteristics whether it is 0-efficient, and whether
//! it has a surface with octagons that has the numbers of an octagonal almost normal sphere. The functions here have no
//! code: their contracts are theorems.
//!
//! A *surface* is an admissible solution of the matching equations of T in standard or octagon coordinates; 0 is one.
//! It is *connected* if it has exactly one component. The *listed* surfaces are all vertex surfaces of T in the
//! coordinates named. The *vertex link* of a vertex class is 1 at each triangle around a vertex of the class, and 0
//! elsewhere. A vector is *canonical* if each vertex class has a vertex around which it has no triangle. A *lift* of a
//! quad vector is a canonical standard solution with these quads. T is *0-efficient by its numbers* if each connected
//! surface of positive Euler characteristic, in standard coordinates, is a vertex link.
#![tactic(auto)]

ghost use Rattle.surface_efficiency_laws.specs.Laws.{CharacteristicIsAnswered, PositiveSurfacesHaveListed, PositiveComponentsHaveListed, ComponentsAreLinksOrCanonical, VertexSurfacesAreConnected, ListDecidesEfficiency, PositiveNonLinkIsListed, EfficiencyIsDecided};
ghost use Rattle.surface_efficiency_laws.specs.Octagons.{OctagonListDecidesEfficiency, OctagonSurfacesHaveListed, OctagonalSphereNumbersAreListed, PositiveSurfacesHaveOctagons};
ghost use Rattle.surface_efficiency_laws.specs.Quads.{PositiveSurfacesHaveLifts, QuadListDecidesEfficiency};

/// Lemma: let p be the properties of a vector x in any coordinates. The Euler characteristic in p is the number of
/// points in which x meets the edges, minus the number of its normal arcs, plus the number of its discs.
pub fn characteristic_is_answered()
    ensures { CharacteristicIsAnswered }
{}

/// Theorem: let L be the list of vertex surfaces of T in standard or octagon coordinates. Let x be a vector in these
/// coordinates, of positive Euler characteristic. Then L contains a canonical surface of positive Euler characteristic
/// whose support lies in that of x, in each of two cases:
///
/// 1. x is a canonical surface;
/// 2. x is a component of a surface, and no vertex link.
pub fn positive_surfaces_have_listed()
    ensures surfaces { PositiveSurfacesHaveListed }
    ensures components { PositiveComponentsHaveListed }
{}

/// Theorem: let x be a surface in standard or octagon coordinates. Then each component of x is a vertex link or
/// canonical: each vertex class has a vertex around which it has no triangle.
pub fn components_are_links_or_canonical()
    ensures { ComponentsAreLinksOrCanonical }
{}

/// Theorem: in standard or octagon coordinates, each vertex surface of T is an admissible solution of the matching
/// equations with exactly one component.
pub fn vertex_surfaces_are_connected()
    ensures { VertexSurfacesAreConnected }
{}

/// Theorem (Jaco and Oertel 1984; Jaco and Rubinstein 2003): let L be the list of vertex surfaces of T in standard or
/// octagon coordinates.
///
/// 1. Each connected surface of positive Euler characteristic is a vertex link if and only if each surface of L of
///    positive Euler characteristic is one.
/// 2. A connected surface of positive Euler characteristic that is not a vertex link exists if and only if L contains
///    one.
/// 3. Each connected surface of positive Euler characteristic is a vertex link, or one exists that is not.
///
/// In standard coordinates this is 0-efficiency by the numbers of T: that of Jaco and Rubinstein if T is connected,
/// closed and orientable, with sphere links. In octagon coordinates a 0-efficient T may fail it.
pub fn list_decides_efficiency()
    ensures all { ListDecidesEfficiency }
    ensures some { PositiveNonLinkIsListed }
    ensures decided { EfficiencyIsDecided }
{}

/// Theorem (Rubinstein 1995; Thompson 1994): let L be the list of vertex surfaces of T in octagon coordinates.
///
/// 1. T is 0-efficient by its numbers if and only if each surface of L of positive Euler characteristic and without
///    octagons is a vertex link.
///
/// Suppose this of L. Call a surface in octagon coordinates *spherical* if it has k >= 1 octagons and Euler
/// characteristic at least 2k.
///
/// 2. The support of each canonical spherical surface contains that of a spherical surface of L.
/// 3. A connected spherical surface exists if and only if L contains one.
/// 4. The support of each canonical surface of positive Euler characteristic contains that of a surface of L with
///    octagons and positive Euler characteristic.
pub fn octagon_spheres_are_listed()
    ensures efficient { OctagonListDecidesEfficiency }
    ensures twice { OctagonSurfacesHaveListed }
    ensures sphere { OctagonalSphereNumbersAreListed }
    ensures positive { PositiveSurfacesHaveOctagons }
{}

/// Theorem: let each vertex link of T be a sphere or a disc, and let L be the list of vertex surfaces of T in quad
/// coordinates.
///
/// 1. Let x be a canonical surface of positive Euler characteristic in standard coordinates. Then a quad surface in L
///    has its support in that of the quads of x, and a lift of positive Euler characteristic.
/// 2. T is 0-efficient by its numbers if and only if no quad surface in L has a lift of positive Euler characteristic.
pub fn quad_list_decides_efficiency()
    ensures surfaces { PositiveSurfacesHaveLifts }
    ensures all { QuadListDecidesEfficiency }
{}
