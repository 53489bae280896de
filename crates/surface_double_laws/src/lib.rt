//! The double of a connected one-sided surface is connected, and a connected closed orientable surface has an even
//! Euler characteristic. In closed orientable tables, surfaces of Euler characteristic 2 alone decide 0-efficiency. The
//! functions have empty bodies: their contracts are theorems.
//!
//! A *surface* is an admissible solution of the matching equations of T in standard or octagon coordinates; 0 is one.
//! It is *connected* if it has exactly one component. It *meets the boundary* if it has a disc with an arc in a
//! boundary face. T is *closed* if it has no boundary face. T is *0-efficient by its numbers* if each connected surface
//! of positive Euler characteristic, in standard coordinates, is a vertex link.
#![tactic(auto)]

ghost use Rattle.surface_double_laws.specs.Laws.{DoublesAreSurfaces, DoublesAreConnected, DoublesAreTwoCopies, OrientableSurfacesAreEven, OrientableComponentsAreEven, OrientablePartsAreEven, OneIsOneSided, TwoSidedSurfacesAreEven, TwoSidedComponentsAreEven, TwoSidedPartsAreEven, SpheresDecideEfficiency, SpheresDecideLinks, ListDecidesSpheres, PlanesAndSpheresDecide};
ghost use Rattle.surface_double_laws.specs.Copies.{CopiesAreSurfaces, TwoSidedCopiesAreCounted, OneSidedCopiesAreCounted, CharacteristicsAreMultiplied, TwoSidedCopiesAreTheSurface, EvenCopiesAreDoubles, OddCopiesHaveOneCopy};
ghost use Rattle.surface_double_laws.specs.Orientable.{OrientableTwoSidedAreEven, OrientableTwoSidedComponentsAreEven, OrientableTwoSidedPartsAreEven, OrientableOneIsOneSided, OrientableSpheresDecideEfficiency, OrientableSpheresDecideLinks, OrientableListDecidesSpheres, OrientableListedSpheresDecide};
ghost use Rattle.surface_double_laws.specs.Maps.{OrientedMapsAreEven};
ghost use Rattle.surface_double_laws.specs.WorkedOctagon.{OctagonIsOrientable};
ghost use Rattle.surface_double_laws.specs.WorkedPlane.{PlaneIsOneSided, PlaneHasConnectedDouble};

/// Theorem: let x be a surface in standard or octagon coordinates. Then 2x is a surface, with twice the Euler
/// characteristic of x.
pub fn doubles_are_surfaces()
    ensures { DoublesAreSurfaces }
{}

/// Theorem: let x be a connected surface in standard or octagon coordinates.
///
/// 1. If x is one-sided, 2x is connected.
/// 2. If x is two-sided, 2x has exactly two components, and the vector of each is x.
pub fn doubles_are_connected_or_two_copies()
    ensures connected { DoublesAreConnected }
    ensures copies { DoublesAreTwoCopies }
{}

/// Theorem: let x be a connected surface in standard or octagon coordinates, and m a natural number. Then mx is a
/// surface.
///
/// 1. If x is two-sided, mx has exactly m components.
/// 2. If x is one-sided, mx has exactly (m + 1)/2 components, rounded down.
pub fn copies_are_counted()
    ensures surfaces { CopiesAreSurfaces }
    ensures two_sided { TwoSidedCopiesAreCounted }
    ensures one_sided { OneSidedCopiesAreCounted }
{}

/// Theorem: let x be a connected surface in standard or octagon coordinates, and m a natural number.
///
/// 1. The Euler characteristic of mx is m times that of x.
/// 2. If x is two-sided, the vector of each component of mx is x.
/// 3. If x is one-sided and m is even, the vector of each component of mx is 2x.
/// 4. If x is one-sided and m is odd, the vector of one component of mx is x, and that of each other one is 2x.
pub fn multiples_are_copies_and_doubles()
    ensures characteristic { CharacteristicsAreMultiplied }
    ensures two_sided { TwoSidedCopiesAreTheSurface }
    ensures even { EvenCopiesAreDoubles }
    ensures odd { OddCopiesHaveOneCopy }
{}

/// Example: let T be the triangulation `cMcabbgqw` of projective space, with two tetrahedra, and let x be two triangles
/// and a quad of T.
///
/// 1. x is a connected surface, and one-sided.
/// 2. 2x is a connected surface.
pub fn projective_plane_is_doubled()
    ensures one_sided { PlaneIsOneSided }
    ensures double { PlaneHasConnectedDouble }
{}

/// Theorem: let `turn` be a permutation of 2E darts, and `back` an involution of them without fixed points. Let `turn`
/// have V cycles, and `turn` after `back` F cycles. Then V + E + F is even.
///
/// This is the parity of the Euler characteristic V - E + F of an oriented map with V points, E edges and F faces,
/// whose darts are its edges with a direction.
pub fn oriented_maps_are_even()
    ensures { OrientedMapsAreEven }
{}

/// Theorem: let no edge of T be invalid, and let x be a surface in standard or octagon coordinates.
///
/// 1. If x is connected and orientable, and does not meet the boundary, its Euler characteristic is even.
/// 2. If a component of x is orientable, and does not meet the boundary, its Euler characteristic is even.
/// 3. If each component of x is orientable, and x does not meet the boundary, its Euler characteristic is even.
/// 4. Let T be closed and orientable. If x is connected and has Euler characteristic 1, it is one-sided.
pub fn orientable_surfaces_are_even()
    ensures even { OrientableSurfacesAreEven }
    ensures components { OrientableComponentsAreEven }
    ensures whole { OrientablePartsAreEven }
    ensures one { OneIsOneSided }
{}

/// Theorem: let T be closed and orientable, let no edge of T be invalid, and let x be a surface in standard or octagon
/// coordinates.
///
/// 1. If x is connected and two-sided, its Euler characteristic is even.
/// 2. If a component of x is two-sided, its Euler characteristic is even.
/// 3. If each component of x is two-sided, the Euler characteristic of x is even.
pub fn two_sided_surfaces_are_even()
    ensures even { TwoSidedSurfacesAreEven }
    ensures components { TwoSidedComponentsAreEven }
    ensures whole { TwoSidedPartsAreEven }
{}

/// Theorem: let T be closed and orientable, and let x be a surface in standard or octagon coordinates.
///
/// 1. If x is connected and two-sided, its Euler characteristic is even.
/// 2. If a component of x is two-sided, its Euler characteristic is even.
/// 3. If each component of x is two-sided, the Euler characteristic of x is even.
/// 4. If x is connected and has Euler characteristic 1, it is one-sided.
///
/// Nothing is asked of edges: an orientable triangulation has no invalid edge (`orientable_edges_are_valid`).
pub fn closed_orientable_two_sided_are_even()
    ensures even { OrientableTwoSidedAreEven }
    ensures components { OrientableTwoSidedComponentsAreEven }
    ensures whole { OrientableTwoSidedPartsAreEven }
    ensures one { OrientableOneIsOneSided }
{}

/// Example: let T be the triangulation `bkaagj` of the 3-sphere, with one tetrahedron, and let x be two triangles and
/// an octagon of T. Then x is a connected surface, orientable, and does not meet the boundary.
pub fn octagonal_sphere_is_orientable()
    ensures { OctagonIsOrientable }
{}

/// Theorem (after Jaco and Rubinstein 2003): let T be closed and orientable, without invalid edges, and L its list of
/// vertex surfaces in standard or octagon coordinates. Let A say that each connected surface of Euler characteristic 2
/// is a vertex link, and B that each one of positive Euler characteristic is.
///
/// 1. T is 0-efficient by its numbers if and only if A holds in standard coordinates.
/// 2. B holds if and only if A holds.
/// 3. A holds if and only if each member of L of positive Euler characteristic is a vertex link.
/// 4. B holds if and only if no member of L has Euler characteristic 1, and each of Euler characteristic 2 is a vertex
///    link.
pub fn spheres_decide_efficiency()
    ensures spheres { SpheresDecideEfficiency }
    ensures links { SpheresDecideLinks }
    ensures listed { ListDecidesSpheres }
    ensures planes { PlanesAndSpheresDecide }
{}

/// Theorem (after Jaco and Rubinstein 2003): let T be closed and orientable, and L its list of vertex surfaces in
/// standard or octagon coordinates. Let A say that each connected surface of Euler characteristic 2 is a vertex link.
///
/// 1. T is 0-efficient by its numbers if and only if A holds in standard coordinates.
/// 2. A holds if and only if each connected surface of positive Euler characteristic is a vertex link.
/// 3. A holds if and only if each member of L of positive Euler characteristic is a vertex link.
/// 4. A holds if and only if no member of L has Euler characteristic 1, and those of Euler characteristic 2 are vertex
///    links.
pub fn spheres_decide_closed_orientable()
    ensures spheres { OrientableSpheresDecideEfficiency }
    ensures links { OrientableSpheresDecideLinks }
    ensures listed { OrientableListDecidesSpheres }
    ensures planes { OrientableListedSpheresDecide }
{}
