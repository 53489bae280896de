//! Isomorphic tables have isomorphic double covers, and a cover of a connected table has two deck transformations. The
//! functions have empty bodies: their contracts are theorems.
//!
//! A *relabelling* renumbers the tetrahedra of a table, and the vertices of each. It *carries* T to T' if it carries
//! the gluings of T to those of T'; then T' is *isomorphic* to T. The *cover* of n tetrahedra is as at `cover_laws`: it
//! has the tetrahedra t and n + t over t, on *sheets* 0 and 1, and its *deck transformation* exchanges the sheets. The
//! *lift* of a relabelling to the cover maps what lies over t to what lies over the image of t. It stays on its sheet
//! if the permutation of the vertices of t is even, and changes it if that is odd. The *identity* relabelling maps each
//! tetrahedron to itself, by the identity; for relabellings f and g of n tetrahedra, fg applies g first.
#![tactic(auto)]

ghost use Rattle.cover_relabelling_laws.specs.Laws.{LiftCarriesCover, LiftLiesOver, LiftCommutes, CoversAreIsomorphic, IdentityIsLifted, CompositionsAreLifted, ExchangeLiesOver, ExchangeFixesNone, ExchangeIsInvolution, DeckTransformationsAreTwo};

/// Theorem: let a relabelling carry a triangulation T to T'.
///
/// 1. Its lift carries the cover of T to the cover of T'.
/// 2. What lies over t is mapped to what lies over the image of t, by the same permutation of vertices.
/// 3. The lift commutes with the deck transformation.
/// 4. Isomorphic triangulations have isomorphic covers.
pub fn covers_are_relabelled()
    ensures carries { LiftCarriesCover }
    ensures over { LiftLiesOver }
    ensures commutes { LiftCommutes }
    ensures isomorphic { CoversAreIsomorphic }
{}

/// Theorem: let f and g be relabellings of n tetrahedra.
///
/// 1. The lift of the identity is the identity.
/// 2. The lift of fg is the lift of f after that of g.
pub fn lifts_compose()
    ensures identity { IdentityIsLifted }
    ensures compositions { CompositionsAreLifted }
{}

/// Theorem: let T be a triangulation of n tetrahedra.
///
/// 1. The deck transformation maps what lies over t to what lies over t, by the identity.
/// 2. It maps no tetrahedron of the cover to itself.
/// 3. Applied twice, it is the identity.
/// 4. Let T be connected. A relabelling that carries the cover of T to itself, and maps what lies over t to what lies
///    over t, by the identity, is the identity or the deck transformation.
pub fn deck_transformations_are_two()
    ensures over { ExchangeLiesOver }
    ensures moves { ExchangeFixesNone }
    ensures twice { ExchangeIsInvolution }
    ensures two { DeckTransformationsAreTwo }
{}
