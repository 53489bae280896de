//! Existence and uniqueness: all words and all bytes have exactly one outcome, and each table has a component
//! signature. Two tables are isomorphic or not, decidably.
//!
//! A *run* of a command is its outcome, a status and a text, for words that request it and an input. The *component
//! signature* of a table is the list of the signatures of its components in ascending order, joined by full stops.
#![tactic(auto)]

ghost use Rattle.outcome_existence_laws.specs.Laws.{OutcomesAgree, EachRequestIsAnswered, EachIsAnswered, EachIsAnsweredOnce};
ghost use Rattle.outcome_existence_laws.specs.Components.{SomeComponentSignature, SomeLeastRelabelling, SomeSameParts, RelabelledOrNot};
ghost use Rattle.outcome_existence_laws.specs.Answers.{SomeComponentSignatureAnswer, SomeSamePartsAnswer};
ghost use Rattle.outcome_existence_laws.specs.Splits.{ComponentSignaturesSplit};

/// Theorem: all words, accepted or not, and an input have at most one outcome.
pub fn outcomes_agree()
    ensures { OutcomesAgree }
{}

/// Theorem:
///
/// 1. Each request whose numbers are in range has an answer to each input.
/// 2. All words, accepted or not, with any input have an outcome.
/// 3. They have exactly one outcome.
pub fn each_input_is_answered()
    ensures requests { EachRequestIsAnswered }
    ensures words { EachIsAnswered }
    ensures once { EachIsAnsweredOnce }
{}

/// Theorem: each table has a component signature.
pub fn component_signatures_exist()
    ensures { SomeComponentSignature }
{}

/// Theorem: let T and T' be connected and isomorphic tables. Of the isomorphisms from T to T' there is a least one,
/// which `same` prints: no other maps tetrahedron 0 to an earlier tetrahedron, or to the same one by a permutation of
/// smaller index.
pub fn least_relabellings_exist()
    ensures { SomeLeastRelabelling }
{}

/// Theorem: let T and T' be tables.
///
/// 1. T and T' are isomorphic or they are not; this is proved without excluded middle.
/// 2. If they are isomorphic, the isomorphism that `csame` prints exists: component by component, in the order of their
///    signatures, the least isomorphism.
pub fn part_relabellings_exist()
    ensures decided { RelabelledOrNot }
    ensures reported { SomeSameParts }
{}

/// Lemma:
///
/// 1. `csig` has an answer to each table.
/// 2. `csame` has an answer to each two tables.
pub fn answers_exist()
    ensures signature { SomeComponentSignatureAnswer }
    ensures same { SomeSamePartsAnswer }
{}

/// Theorem: let T be a table with at least one tetrahedron. The sections between the full stops of its component
/// signature are the signatures of its components, each as often as it occurs, in ascending order.
pub fn component_signatures_split()
    ensures { ComponentSignaturesSplit }
{}
