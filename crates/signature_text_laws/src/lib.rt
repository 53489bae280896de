//! Theorems on signatures as text: what a text spells, and what is read from it. The functions have empty bodies: their
//! contracts are the theorems.
//!
//! Words: a text *spells* a table if the table is walk-ordered (numbered as its traversal from tetrahedron 0 visits it)
//! and the text is its code (Burton 2011).
#![tactic(auto)]

ghost use Rattle.signature_text_laws.specs.Laws.{ReadExactlyWhereSpelled, SpellsOneTable};

/// Theorem: let a text be given.
///
/// 1. A table is read from the text if and only if the text spells it.
/// 2. Two tables that the text spells are equal.
pub fn signatures_are_spellings()
    ensures exact { ReadExactlyWhereSpelled }
    ensures one_table { SpellsOneTable }
{}
