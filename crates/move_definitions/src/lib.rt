//! Pachner moves: which are legal, the resulting table, moves in text, certificates and the generator. The definitions,
//! and the errors that definitions and code share, are here and in `specs/`; `proofs/` has worked examples. The
//! functions have empty bodies: their contracts are theorems.
//!
//! Words: a *move* has a tetrahedron and a *core*: the vertex, edge, triangle or tetrahedron at which it is made (4-1,
//! 3-2, 2-3, 1-4). It is *legal* on a table if no error is found in it, and *accepted* if its result also has at most
//! 1,000 tetrahedra.
#![tactic(auto)]

ghost use Rattle.move_definitions.specs.TextLaws.{MovesAreRead, StepsAreRead, WrittenMovesAreRead};

/// Why a move is not legal.
#[derive(Clone, Copy)]
pub enum MoveFault {
    /// The table has no such tetrahedron.
    NoSuchTet,
    /// The face of the tetrahedron opposite this label is a boundary face.
    Boundary { label: u8 },
    /// The facet that lacks this label is a tetrahedron that is another facet already.
    Repeated { label: u8 },
    /// The facets that lack these labels are not glued to each other label by label.
    NotMatched { first: u8, second: u8 },
    /// The new table would have more than 1,000 tetrahedra.
    TooMany,
}

/// Lemma: let the current line of an input be given. A move is read from the line, and the line is used up, if and only
/// if the line is a move line of this move: a kind, a tetrahedron below 2^32, and a core, as words.
pub fn moves_are_read()
    ensures { MovesAreRead }
{}

/// Lemma: let the current line of an input be given. A step is read from the line, and the line is used up, if and only
/// if the line spells this step: a move line, `undo` or `redo`.
pub fn steps_are_read()
    ensures { StepsAreRead }
{}

/// Lemma: let a move have a tetrahedron below 2^32 and a core: a nonempty set of vertices, in ascending order. Then its
/// text is one line, and this is a move line of the move.
pub fn written_moves_are_read()
    ensures { WrittenMovesAreRead }
{}
