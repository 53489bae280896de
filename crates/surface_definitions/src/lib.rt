//! Normal surfaces: coordinates, matching equations, the verdict on a vector, discs, Euler characteristic, crushing and
//! lifts. The definitions are in `specs/`; `proofs/` has worked examples. The functions have empty bodies: their
//! contracts are theorems.
//!
//! Words: in n columns, a *row* of an equation is 0 at a vector if both sides of the equation are equal there; its
//! *parts* are the sums of its positive and of its negative terms. Coordinates are standard (triangles and quads),
//! quad, or octagon (triangles, quads and octagons); two columns *clash* if they are quads or octagons of one
//! tetrahedron, or any two octagons. A *triangulation* is a gluing table as at `table_definitions`; it has at most
//! 1,000 tetrahedra.
#![tactic(auto)]

ghost use Rattle.surface_definitions.specs.Laws.{VectorLinesAreRead, VerdictsAreRight, RowsMeanEquations};
ghost use Rattle.surface_definitions.specs.CoordinateLaws.{ClashingColumnsDiffer, FirstLargeIsAnswered, FirstFailureIsAnswered};

/// Coordinate systems. Standard coordinates count triangles and quads (Haken 1961), quad coordinates only quads
/// (Tollefson 1998), octagon coordinates triangles, quads and octagons (Rubinstein 1995; Thompson 1994).
#[derive(Clone, Copy, PartialEq, Eq)]
pub enum Coords {
    Standard,
    Quad,
    Octagon,
}

/// A normal disc type: the triangles around a vertex, or the quads or octagons of a type, 0 for 01/23, 1 for 02/13 and
/// 2 for 03/12.
#[derive(Clone, Copy)]
pub enum Piece {
    Tri(u8),
    Quad(u8),
    Oct(u8),
}

/// Why a vector is no admissible solution.
#[derive(Clone, Copy)]
pub enum VectorFault {
    /// The vector has `got` entries, and the coordinates have another number of columns.
    Length { got: usize },
    /// A part of the equation `row` at the vector exceeds the greatest entry.
    Large { row: u32 },
    /// The equation `row` is not 0 at the vector.
    NotSolution { row: u32 },
    /// The columns `first` and `second` clash, and neither entry is 0.
    Clash { first: u32, second: u32 },
}

/// Lemma: let the current line of an input be given. A vector is read from the line, and the line is used up, if and
/// only if the line is `vec` and the entries of the vector in decimal, each at most 2^127 - 1.
pub fn vector_lines_are_read()
    ensures { VectorLinesAreRead }
{}

/// Theorem: let rows in n columns, clashing pairs P, a limit and a vector x be given. Then the verdict on x is
/// `solution` if and only if x has n entries, each row is 0 at x, x is 0 in one column of each pair of P, and no
/// positive or negative part of a row at x exceeds the limit.
pub fn verdicts_are_right()
    ensures { VerdictsAreRight }
{}

/// Lemma: let an equation set two sums of entries equal, all of columns below n. Then its row in n columns is 0 at a
/// vector if and only if both sums are equal at this vector.
pub fn rows_mean_equations()
    ensures { RowsMeanEquations }
{}

/// Lemma: let T have n tetrahedra. In any coordinates, each clashing pair of T has two different columns.
pub fn clashing_columns_differ()
    ensures { ClashingColumnsDiffer }
{}

/// Lemma: let rows in n columns, clashing pairs, a limit, and a vector x of n entries be given. Let the rows before row
/// i be 0 at x, with no positive or negative part above the limit.
///
/// 1. If a part of row i at x exceeds the limit, the verdict on x names row i as too large.
/// 2. If no part of row i at x exceeds the limit, and row i is not 0 at x, the verdict on x names row i as not
///    satisfied.
pub fn first_faults_are_answered()
    ensures large { FirstLargeIsAnswered }
    ensures fails { FirstFailureIsAnswered }
{}
