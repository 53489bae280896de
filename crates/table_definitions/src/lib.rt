//! Permutations of four, gluing tables and their text, chains of gluings and classes. The definitions, and the errors
//! that definitions and code share, are here and in `specs/`; `proofs/` has worked examples. The functions have empty
//! bodies: their contracts are theorems.
//!
//! Words: a *gluing table* has a row for each tetrahedron, at most 1,000 of them, with four faces; each face is a
//! boundary face or has a gluing, which names a tetrahedron and a permutation of four, reaches another face, and has
//! its inverse there. A list p of images is a *permutation of four* if it has each of 0, 1, 2 and 3 once. A *place* is
//! a tetrahedron with a list of its vertices; a chain of gluings, each across a face that contains these vertices,
//! *joins* it to another place.
#![tactic(auto)]

ghost use Rattle.std.specs.Prelude.{◌≡◌};
ghost use Rattle.text_definitions.specs.Reading.{PassesOn};
ghost use Rattle.table_definitions.specs.declared.TableFault.TheVariants as TableVariants;
ghost use Rattle.table_definitions.specs.declared.TextFault.TheVariants as TextVariants;
ghost use Rattle.table_definitions.specs.Laws.{InversesPermute, CompositesPermute, InversesLeadBack, ImagesAreFound, FaultsDecideTables, ReplacingKeepsTables, TriTablesAreRead, ChainsMakeClasses};

use std::alloc::{AllocError, AllocFailed};
use text_definitions::LexFault;

/// Why rows are no table.
#[derive(Clone, Copy)]
pub enum TableFault {
    NoMemory,
    /// There are more rows than a table may have.
    TooMany,
    /// A face is glued to a tetrahedron that does not exist.
    NoSuchTet { tet: u32, face: u8 },
    /// A face is glued to itself.
    SelfGlued { tet: u32, face: u8 },
    /// The face across is not glued back by the inverse gluing.
    NotMutual { tet: u32, face: u8 },
}

impl From<AllocError> for TableFault {
    ghost from_gives = { λ _ e. e ≡ TableVariants.NoMemory };

    fn from(_error: AllocError) -> TableFault {
        TableFault::NoMemory
    }
}

/// Why a text is no table in the form `tri`.
#[derive(Clone, Copy)]
pub enum TextFault {
    NoMemory,
    /// A line or a word does not have the required form.
    Lex(LexFault),
    /// The rows are no table. Never `NoMemory`.
    Table(TableFault),
}

impl From<LexFault> for TextFault {
    ghost from_gives = { λ f e. e ≡ TextVariants.Lex f };

    fn from(fault: LexFault) -> TextFault {
        TextFault::Lex(fault)
    }
}

impl From<TableFault> for TextFault {
    ghost from_gives = { PassesOn TableVariants.NoMemory TextVariants.NoMemory TextVariants.Table };

    fn from(fault: TableFault) -> TextFault {
        match fault {
            TableFault::NoMemory => TextFault::NoMemory,
            other => TextFault::Table(other),
        }
    }
}

impl From<AllocError> for TextFault {
    ghost from_gives = { λ _ e. e ≡ TextVariants.NoMemory };

    fn from(_error: AllocError) -> TextFault {
        TextFault::NoMemory
    }
}

impl<T: Drop> From<AllocFailed<T>> for TextFault {
    ghost from_gives = { λ _ e. e ≡ TextVariants.NoMemory };

    fn from(_failed: AllocFailed<T>) -> TextFault {
        TextFault::NoMemory
    }
}

/// Theorem: let p and q be permutations of four.
///
/// 1. The inverse of p is a permutation of four.
/// 2. The composition of p and q is a permutation of four.
/// 3. The composition of p and its inverse, in either order, is the identity.
/// 4. For each v < 4, the image p(v) is below 4, v is the preimage of p(v), and p maps the preimage of v to v.
///
/// Associativity and the identity are in `permutations_compose`.
pub fn permutations_are_a_group()
    ensures inverses { InversesPermute }
    ensures composites { CompositesPermute }
    ensures lead_back { InversesLeadBack }
    ensures images { ImagesAreFound }
{}

/// Theorem: let R be a list of rows, each with four faces, in which each gluing is by a permutation of four. Then R is
/// a gluing table if and only if no error is found in it: it has at most 1,000 rows, and each gluing reaches a face of
/// a row, not the face itself, and has its inverse there.
pub fn faults_decide_tables()
    ensures { FaultsDecideTables }
{}

/// Lemma: let R be a gluing table, and let some of its rows be replaceable by new rows with new gluings. Then the rows
/// after the replacement are a gluing table.
///
/// *Replaceable*: the result has at most 1,000 rows; the new gluings are by permutations of four, reach other faces
/// that exist, and have inverses among new rows; in retained rows they reach faces that were glued to removed rows, no
/// two to the same one.
pub fn replacing_keeps_tables()
    ensures { ReplacingKeepsTables }
{}

/// Lemma: let the next lines of an input be given. A gluing table T in the form `tri` is read from them, with a rest of
/// lines left, if and only if the next lines are lines that spell T, followed by this rest. These are `tri N` and N
/// lines of one row each.
pub fn tri_tables_are_read()
    ensures { TriTablesAreRead }
{}

/// Theorem: let R be the rows of a table, and p, q, r places: a tetrahedron with a list of its vertices. Each place is
/// joined to itself. If p is joined to q, and q to r, then p is joined to r. If R is a gluing table, the vertices of p
/// are below 4, and p is joined to q, then the vertices of q are below 4, and q is joined to p. If p is joined to q,
/// then p with its vertices reversed is joined to q with its vertices reversed.
pub fn chains_make_classes()
    ensures { ChainsMakeClasses }
{}
