//! Uniqueness of answers: for each command, two correct outcomes for the same value of its document are equal. In
//! `outcome_existence_laws` a law for all commands puts these lemmas together.
//!
//! An *outcome* is a status and a text.
#![tactic(auto)]

ghost use Rattle.outcome_laws.specs.Laws.{ListsAgree, VerdictsAgree};

/// Lemma: let T be a table.
///
/// 1. `surfaces` has at most one answer to T, in the order `given`, `short` or `zeros`.
/// 2. `verify` has at most one answer to T and vectors.
pub fn answers_agree()
    ensures lists { ListsAgree }
    ensures verdicts { VerdictsAgree }
{}
