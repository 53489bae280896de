//! Theorems on permutations of four: they form a group, and each has one index among the 24 words. The functions have
//! empty bodies: their contracts are the theorems.
//!
//! Words: a *permutation of four* is the list of the images of 0, 1, 2 and 3. The 24 *words* are all of them in
//! lexicographic order.
#![tactic(auto)]

ghost use Rattle.table_definitions.specs.Laws.{InversesLeadBack};
ghost use Rattle.table_permutation_laws.specs.Laws.{IsClosed, IsAssociative, HasIdentity, ComposesImages, Undoes, AddsParities, AreAllWords, IndexIsInjective, IndexFindsWords, WordsHaveIndexes};

/// Theorem: the permutations of four are a group. Let p, q and r be permutations of four, as lists of images; pq
/// applies q first.
///
/// 1. The identity, pq and the inverse of p are permutations of four.
/// 2. (pq)r = p(qr).
/// 3. The identity is neutral on both sides.
/// 4. p and its inverse, composed in either order, are the identity.
/// 5. For v < 4, (pq)(v) = p(q(v)); here p may be any list.
/// 6. For v < 4, image and preimage under p undo each other, and the inverse of p maps v to its preimage.
/// 7. pq is odd if and only if exactly one of p and q is odd.
pub fn permutations_compose()
    ensures closed { IsClosed }
    ensures associative { IsAssociative }
    ensures identity { HasIdentity }
    ensures inverses { InversesLeadBack }
    ensures images { ComposesImages }
    ensures undoes { Undoes }
    ensures parities { AddsParities }
{}

/// Theorem.
///
/// 1. A list is a permutation of four if and only if it is one of the 24 words.
/// 2. Let two permutations of four have the same index: the number of words before them in lexicographic order. Then
///    they are equal.
/// 3. The index of a permutation of four is below 24, and the word with this index, counted from 0, is the permutation.
/// 4. For each i < 24, the word with index i is a permutation of four, and its index is i.
pub fn words_are_permutations()
    ensures all { AreAllWords }
    ensures separate { IndexIsInjective }
    ensures found { IndexFindsWords }
    ensures indexed { WordsHaveIndexes }
{}
