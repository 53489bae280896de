//! Isomorphic tables have corresponding surfaces, vertex surfaces and surface lists, and are crushed to isomorphic
//! tables. The functions have empty bodies: their contracts are theorems.
//!
//! A *relabelling* renumbers the tetrahedra of a table, and the vertices of each. It *carries* T to T' if it carries
//! the gluings of T to those of T'; then T' is *isomorphic* to T. A *vector* of T has one entry for each disc type of
//! each tetrahedron. Its *relabelled vector* has, at the image of each disc type, the same entry. A *surface* is an
//! admissible solution of the matching equations of T in standard or octagon coordinates; 0 is one. The *surface list*
//! of T has exactly its vertex surfaces. A *lift* of a quad vector is a canonical standard solution with these quads. T
//! is *0-efficient by its numbers* if each connected surface of positive Euler characteristic, in standard coordinates,
//! is a vertex link.
#![tactic(auto)]

ghost use Rattle.surface_relabelling_laws.specs.WorkedTable.{FoldedIsRenamed, FoldedLists, FoldedVectorsAreRenamed};
ghost use Rattle.surface_relabelling_laws.specs.Components.{ComponentsAreRelabelled, ComponentCharacteristicsAreKept};
ghost use Rattle.surface_relabelling_laws.specs.LiftLists.{LiftListsAreRelabelled, LiftCharacteristicsPermute, SameSignatureSameLifts, BothQuadListsLift};
ghost use Rattle.surface_relabelling_laws.specs.Crushing.{CrushedAreIsomorphic};
ghost use Rattle.surface_relabelling_laws.specs.SmallTables.{IsomorphicHaveOneSize, BoundedAreBothListed, BoundedStayWithin, SmallIsomorphicPrintAsMany};
ghost use Rattle.surface_relabelling_laws.specs.Laws.{VectorsAreRelabelled, SolutionsAreRelabelled, AdmissibleAreRelabelled, VertexSurfacesAreRelabelled, SurfaceListsAreRelabelled, IsomorphicHaveAsMany, SameSignatureHaveAsMany, SameComponentSignatureHaveAsMany, EnumerationsListAsMany, SurfacesAreRelabelled, CharacteristicsAreKept, PropertiesAreKept, CharacteristicsPermute, SameSignatureSameCharacteristics, LiftsAreRelabelled, LiftCharacteristicsAreKept, ConnectedAreRelabelled, SidesAreKept, OrientationIsKept, EfficiencyIsKept, SameSignatureSameEfficiency};

/// Theorem: let a relabelling carry T to T'. Coordinates are standard, quad or octagon.
///
/// 1. Each vector of T' is the relabelled vector of exactly one vector of T.
/// 2. A vector of T solves the equations of T if and only if its relabelled vector solves those of T'.
/// 3. A vector of T is admissible if and only if its relabelled vector is.
pub fn solutions_are_relabelled()
    ensures vectors { VectorsAreRelabelled }
    ensures solutions { SolutionsAreRelabelled }
    ensures admissible { AdmissibleAreRelabelled }
{}

/// Theorem: let a relabelling carry T to T'. Coordinates are standard, quad or octagon.
///
/// 1. A vector of T is a vertex surface of T if and only if its relabelled vector is one of T'.
/// 2. The surface list of T' is a permutation of the relabelled vectors of the surface list of T.
pub fn lists_are_relabelled()
    ensures vertex { VertexSurfacesAreRelabelled }
    ensures lists { SurfaceListsAreRelabelled }
{}

/// Theorem: let T and T' be tables. Coordinates are standard, quad or octagon.
///
/// 1. If T and T' are isomorphic, their surface lists have the same length.
/// 2. If T and T' have the same signature, their surface lists have the same length.
/// 3. If T and T' have the same component signature, their surface lists have the same length.
/// 4. Let T and T' be isomorphic, and let an enumeration of the vertex surfaces of each have a list, for any orders of
///    the equations and any limits. Both lists have the same length.
pub fn lists_are_as_long()
    ensures isomorphic { IsomorphicHaveAsMany }
    ensures signature { SameSignatureHaveAsMany }
    ensures components { SameComponentSignatureHaveAsMany }
    ensures enumerations { EnumerationsListAsMany }
{}

/// Theorem: let T and T' be isomorphic. Let b(n) and m be as in `tables_are_bounded` and `small_tables_are_bounded`
/// of `surface_equation_laws`, for standard, quad or octagon coordinates.
///
/// 1. T and T' have the same number n of tetrahedra.
/// 2. Let two limits be at least b(n). The enumeration of the vertex surfaces of T with the one limit and that of T'
///    with the other have lists of the same length, for any orders of the equations.
/// 3. No ray and no pair of rays of T' is named as the first to exceed a limit of at least b(n).
/// 4. Let n <= m. Two runs of `surfaces` with the limit 2^127 - 1, whose inputs are read as T and as T', print lists of
///    the same length, for any orders of the equations.
pub fn small_isomorphic_tables_are_listed()
    ensures size { IsomorphicHaveOneSize }
    ensures listed { BoundedAreBothListed }
    ensures within { BoundedStayWithin }
    ensures printed { SmallIsomorphicPrintAsMany }
{}

/// Theorem: coordinates are standard or octagon. In statements 1 to 3, let a relabelling carry T to T'.
///
/// 1. The relabelled vector of a surface of T is a surface of T'.
/// 2. It has the Euler characteristic of the surface.
/// 3. It has as many points, arcs and discs as the surface. It consists of triangles alone if and only if the surface
///    does, and meets the boundary if and only if the surface does.
/// 4. Let T and T' be isomorphic. Their surface lists have equally many members of each Euler characteristic.
/// 5. Let T and T' have the same signature. Their surface lists have equally many members of each Euler characteristic.
pub fn characteristics_are_kept()
    ensures surfaces { SurfacesAreRelabelled }
    ensures each { CharacteristicsAreKept }
    ensures properties { PropertiesAreKept }
    ensures isomorphic { CharacteristicsPermute }
    ensures signature { SameSignatureSameCharacteristics }
{}

/// Theorem: let a relabelling carry T to T', and let x be a surface of T in standard or octagon coordinates.
///
/// 1. x is connected if and only if its relabelled vector is a connected surface of T'.
/// 2. Let x and its relabelled vector be connected. x is two-sided if and only if its relabelled vector is.
/// 3. Let x and its relabelled vector be connected. x is orientable if and only if its relabelled vector is.
pub fn connected_surfaces_are_relabelled()
    ensures connected { ConnectedAreRelabelled }
    ensures sides { SidesAreKept }
    ensures orientation { OrientationIsKept }
{}

/// Theorem: let a relabelling carry T to T', and let x be a surface of T in standard or octagon coordinates. Let the
/// components of x and of its relabelled vector be numbered.
///
/// 1. Both have equally many components, which correspond one to one. The vector of the component that corresponds to a
///    component c of x is the relabelled vector of that of c. It is two-sided if and only if c is, and orientable if
///    and only if c is.
/// 2. Corresponding components have the same Euler characteristic.
pub fn components_are_relabelled()
    ensures components { ComponentsAreRelabelled }
    ensures characteristics { ComponentCharacteristicsAreKept }
{}

/// Theorem: let a relabelling carry T to T', let x be a vector of T in quad coordinates, and y a lift of x.
///
/// 1. The relabelled vector of y is a lift of the relabelled vector of x.
/// 2. Let x be admissible. Each lift of the relabelled vector of x has the Euler characteristic of y.
pub fn lifts_are_relabelled()
    ensures lifts { LiftsAreRelabelled }
    ensures characteristics { LiftCharacteristicsAreKept }
{}

/// Theorem: in statements 1 to 3, let each vector of the quad lists of T and of T' have a lift, and let L and L' be the
/// lists of these lifts.
///
/// 1. If a relabelling carries T to T', L' is a permutation of the relabelled vectors of L.
/// 2. If T and T' are isomorphic, L and L' have equally many members of each Euler characteristic.
/// 3. If T and T' have the same signature, L and L' have equally many members of each Euler characteristic.
/// 4. Let T and T' be isomorphic, and let each vertex link of T be a sphere or a disc. Then each vector of the quad
///    list of T, and each of that of T', has a lift.
pub fn lift_lists_are_relabelled()
    ensures lists { LiftListsAreRelabelled }
    ensures isomorphic { LiftCharacteristicsPermute }
    ensures signature { SameSignatureSameLifts }
    ensures exist { BothQuadListsLift }
{}

/// Theorem: let T and T' be tables.
///
/// 1. Let T and T' be isomorphic. In standard and in octagon coordinates, each connected surface of positive Euler
///    characteristic of T is a vertex link if and only if each one of T' is. In standard coordinates: T is 0-efficient
///    by its numbers if and only if T' is.
/// 2. Let T and T' have the same signature. T is 0-efficient by its numbers if and only if T' is.
pub fn efficiency_is_kept()
    ensures isomorphic { EfficiencyIsKept }
    ensures signature { SameSignatureSameEfficiency }
{}

/// Theorem: let a relabelling carry T to T', and let x be an admissible vector of T in standard coordinates, such as a
/// surface. The tables that result from crushing T along x, and T' along the relabelled vector of x, are isomorphic.
pub fn crushed_tables_are_isomorphic()
    ensures { CrushedAreIsomorphic }
{}

/// Example: let T be one tetrahedron with faces 2 and 3 folded together, and T' one with faces 0 and 1 folded together.
/// Coordinates are standard.
///
/// 1. A relabelling carries T to T'.
/// 2. The surface lists of T and of T' have 4 members each.
/// 3. The relabelled vectors of the surface list of T are those of T', in another order.
pub fn folded_tetrahedron_is_relabelled()
    ensures table { FoldedIsRenamed }
    ensures lists { FoldedLists }
    ensures vectors { FoldedVectorsAreRenamed }
{}
