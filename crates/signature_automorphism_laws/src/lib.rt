//! The automorphisms of a table are a group, and what they say of the texts of its walks, whatever the code.
//!
//! Words: an *automorphism* of T is a relabelling that carries T to itself. The *identity* relabelling maps each
//! tetrahedron to itself, by the identity; for relabellings f and g of n tetrahedra, fg applies g first. The 24n
//! *starts* of a table of n tetrahedra are its tetrahedra with the 24 permutations, numbered in this order. A text
//! *belongs* to a start if it spells the table to which the canonical traversal from the start leads. A *triangulation*
//! is a gluing table as at `table_definitions`; it has at most 1,000 tetrahedra.
#![tactic(auto)]

ghost use Rattle.signature_automorphism_laws.specs.Laws.{IdentityIsAutomorphism, AutomorphismsCompose, AutomorphismsHaveInverses, RelabellingsAssociate, IdentityIsNeutral, InversesCancel, IdentityCarriesStarts, CompositionsCarryStarts, TextsDecideAutomorphisms, StartsDetermineAutomorphisms};
ghost use Rattle.signature_automorphism_laws.specs.Laws.{StartsCarriedHaveOneText, EqualTextsGiveAutomorphisms, MarksKeepNoSmallerText, MarkedStartsNeedNoWalk, SmallerTextsKeepNoSmallerText, LeastTextsAreSignatures};

/// Theorem: the automorphisms of a triangulation are a group, which acts on the starts. Let T be a triangulation of n
/// tetrahedra.
///
/// 1. The identity is an automorphism of T.
/// 2. If f and g are automorphisms of T, so is fg.
/// 3. The inverse of an automorphism of T is one.
/// 4. For relabellings of n tetrahedra, (fg)h = f(gh).
/// 5. The identity is neutral on both sides.
/// 6. The composition of f and its inverse, in either order, is the identity.
/// 7. The identity carries each start to itself.
/// 8. fg carries a start to the start to which f carries the image of the start under g.
pub fn automorphisms_are_a_group()
    ensures identity { IdentityIsAutomorphism }
    ensures compositions { AutomorphismsCompose }
    ensures inverses { AutomorphismsHaveInverses }
    ensures associative { RelabellingsAssociate }
    ensures neutral { IdentityIsNeutral }
    ensures cancels { InversesCancel }
    ensures fixes { IdentityCarriesStarts }
    ensures acts { CompositionsCarryStarts }
{}

/// Theorem: let T be a connected triangulation, and s and s' starts: tetrahedra of T with permutations of four.
///
/// 1. An automorphism of T carries s to s' if and only if one text belongs to both.
/// 2. Two automorphisms of T that carry s to the same start are equal.
pub fn starts_determine_automorphisms()
    ensures texts { TextsDecideAutomorphisms }
    ensures one { StartsDetermineAutomorphisms }
{}

/// Lemma: let T be a triangulation, f an automorphism of T, and s a start: a tetrahedron of T with a permutation of
/// four. A text belongs to s if and only if it belongs to the start to which f carries s.
pub fn starts_carried_have_one_text()
    ensures { StartsCarriedHaveOneText }
{}

/// Theorem: let T be a triangulation, and let one text belong to two starts at tetrahedra of T. Then an automorphism of
/// T carries the first start to the second.
pub fn equal_texts_give_automorphisms()
    ensures { EqualTextsGiveAutomorphisms }
{}

/// Lemma: let T be a triangulation with n tetrahedra, f an automorphism of T, and w a text. Let some of the 24n starts
/// be marked, such that no text of a marked start is before w. If no text of start i is before w, and the start to
/// which f carries start i is marked too, no text of a marked start is before w.
pub fn marks_keep_no_smaller_text()
    ensures { MarksKeepNoSmallerText }
{}

/// Lemma: let T be a list of rows, w a text, and let some starts be marked, such that no text of a marked start is
/// before w. If w is a text of some start, no text of the first k starts is before w, and start k, counted from 0, is
/// marked, then no text of the first k + 1 starts is before w.
pub fn marked_starts_need_no_walk()
    ensures { MarkedStartsNeedNoWalk }
{}

/// Lemma: let T be a list of rows, and let the text v be before the text w. If no text of a marked start is before w,
/// none is before v.
pub fn smaller_texts_keep_no_smaller_text()
    ensures { SmallerTextsKeepNoSmallerText }
{}

/// Theorem: let w be a text of some start of a table T, and let no text of a start of T be before w. Then w is the
/// signature of T.
pub fn least_texts_are_signatures()
    ensures { LeastTextsAreSignatures }
{}
