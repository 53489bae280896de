//! What a legal move keeps: valid edges, and the links of vertex classes. So a table with a certificate, and each that
//! `check` accepts, is a closed 3-manifold's by its numbers; and the Euler characteristic of a closed table by those of
//! its links. The functions here have no code: their contracts are laws over the definitions.
//!
//! A *legal move* is a Pachner move whose condition holds. An edge is *invalid* if it is identified with its own
//! reverse. A link is a *sphere by its numbers* if it is closed and orientable and has Euler characteristic 2. A table
//! is *closed* if no face is a boundary face. A *certificate* of a table is a list of moves from it to the standard
//! sphere.
#![tactic(auto)]

ghost use Rattle.move_link_laws.specs.Valid.{MovesKeepValid, PlaysKeepValid, MovesKeepInvalid};
ghost use Rattle.move_link_laws.specs.BoundaryCurves.{SomeBoundaryCurves, BoundaryCurvesAgree, ClosedWithoutCurves};
ghost use Rattle.move_link_laws.specs.Links.{MovesKeepLinks, TakenAwayAreSpheres, PutInAreSpheres};
ghost use Rattle.move_link_laws.specs.Certified.{CertifiedHaveValidEdges, CertifiedHaveSphereLinks, CertifiedHaveCharacteristicZero};
ghost use Rattle.move_link_laws.specs.ClosedEuler.{ClosedCharacteristicsAreOfLinks, ClosedManifoldsHaveCharacteristicZero};
ghost use Rattle.move_link_laws.specs.Manifolds.{CertifiedHaveManifoldNumbers, AcceptedHaveManifoldNumbers};

/// Theorem:
///
/// 1. Let a legal move carry a table T to T'. No edge of T is invalid if and only if no edge of T' is.
/// 2. Let a list of moves, each legal and within the limit of 1,000 tetrahedra, carry T to T'. No edge of T is invalid
///    if and only if no edge of T' is.
/// 3. If a legal move carries a table T to a table T', both have the same number of invalid edge classes.
pub fn moves_keep_valid()
    ensures moves { MovesKeepValid }
    ensures plays { PlaysKeepValid }
    ensures number { MovesKeepInvalid }
{}

/// Theorem (Pachner 1991, for the moves): let a legal move carry a table T to a table T'. Leave out the vertex class of
/// T that a 4-1 move removes, and the one of T' that a 1-4 move adds.
///
/// 1. The remaining vertex classes of T and T' correspond one to one, the class of a vertex of a retained tetrahedron
///    to the class of the same vertex in T'. Links of corresponding classes have the same Euler characteristic, kind
///    and number of boundary curves; both are closed or neither is, and likewise orientable.
/// 2. The link of a class that a 4-1 move removes is a sphere by its numbers: closed and orientable, with Euler
///    characteristic 2.
/// 3. So is the link of a class that a 1-4 move adds.
pub fn moves_keep_links()
    ensures correspond { MovesKeepLinks }
    ensures taken_away { TakenAwayAreSpheres }
    ensures put_in { PutInAreSpheres }
{}

/// Theorem: let c be a vertex class. Its *boundary curves* are the classes of its boundary arcs, where two arcs are in
/// one class if a chain of meeting boundary arcs joins them.
///
/// 1. The link of c has a number of boundary curves.
/// 2. It has only one such number.
/// 3. The link is closed if and only if this number is 0.
pub fn boundary_curves_are_counted()
    ensures exist { SomeBoundaryCurves }
    ensures one { BoundaryCurvesAgree }
    ensures closed { ClosedWithoutCurves }
{}

/// Theorem: let T be closed, and let no edge of T be invalid.
///
/// 1. Twice the Euler characteristic of T is the sum, over all vertex classes, of 2 minus the Euler characteristic of
///    the link.
/// 2. The Euler characteristic of T is at least 0. It is 0 if and only if each vertex link has Euler characteristic 2.
pub fn closed_characteristics()
    ensures links { ClosedCharacteristicsAreOfLinks }
    ensures zero { ClosedManifoldsHaveCharacteristicZero }
{}

/// Theorem: let a table T have a certificate.
///
/// 1. No edge of T is invalid.
/// 2. Each vertex link of T is closed and orientable and has Euler characteristic 2.
/// 3. The Euler characteristic of T is 0.
pub fn certified_manifolds()
    ensures valid { CertifiedHaveValidEdges }
    ensures links { CertifiedHaveSphereLinks }
    ensures characteristic { CertifiedHaveCharacteristicZero }
{}

/// Theorem: let T be a table. T is connected, closed and orientable, no edge is invalid, each vertex link is a sphere
/// by its numbers, and the Euler characteristic of T is 0, in each of two cases:
///
/// 1. T has a certificate;
/// 2. a run of `check`, on an input of at most 1,048,576 bytes that is read as T and moves, ends with status 0.
pub fn accepted_manifolds()
    ensures certified { CertifiedHaveManifoldNumbers }
    ensures accepted { AcceptedHaveManifoldNumbers }
{}
