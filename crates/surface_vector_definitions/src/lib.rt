//! Answers for one vector: its properties, its components and its lift, each with the reasons why it may be refused.
//! The definitions are in `specs/`; `proofs/` has worked examples. The functions have empty bodies: their contracts are
//! theorems.
//!
//! Words: the *sums* of a vector are the numbers of its points of intersection with the edges, of its normal arcs and
//! of its normal discs. Its *properties* are these, its Euler characteristic, and whether it is vertex linking and
//! meets the boundary. A *triangulation* is a gluing table as at `table_definitions`; it has at most 1,000 tetrahedra.
#![tactic(auto)]

ghost use Rattle.surface_vector_definitions.specs.Laws.{OnePropertyAnswer, OnePiecesAnswer, OneDescriptionEach};

use surface_definitions::VectorFault;

/// The numbers of a normal surface.
#[derive(Clone, Copy)]
pub struct Properties {
    /// The number of points in which the surface meets the edges.
    pub points: u128,
    /// The number of arcs in which it meets the faces.
    pub arcs: u128,
    /// The number of its triangles, quads and octagons.
    pub pieces: u128,
    /// Its Euler characteristic: points minus arcs plus discs.
    pub euler: i128,
    /// Whether it consists of triangles only.
    pub linking: bool,
    /// Whether a boundary face contains an arc.
    pub boundary: bool,
}

/// A sum over the columns of a vector.
#[derive(Clone, Copy)]
pub enum SurfaceSum {
    Points,
    Arcs,
    PointsAndPieces,
}

/// Why a vector has no properties that are printed.
#[derive(Clone, Copy)]
pub enum PropertyFault {
    /// This sum is the first that passes the maximum.
    Large { sum: SurfaceSum },
}

/// Why a quad vector has no lift that is printed.
#[derive(Clone, Copy)]
pub enum LiftFault {
    /// Four times the sum of the entries exceeds the maximum.
    Large,
    /// There is no lift at this vertex class, and one at each class before it.
    NoLift { class: u32 },
}

/// Why the discs of a vector are not built: there are more than 100,000, namely `count`.
#[derive(Clone, Copy)]
pub struct ManyPieces {
    pub count: u128,
}

/// Why a vector of an input is refused.
#[derive(Clone, Copy)]
pub enum Refusal {
    /// It is no admissible solution.
    Unfit { fault: VectorFault },
    /// This sum is the first that passes the maximum.
    LargeSum { sum: SurfaceSum },
    /// It has more than 100,000 discs: this number.
    TooManyPieces { count: u128 },
    /// Four times the sum of the entries exceeds the maximum, so the lift may have larger numbers.
    LargeLift,
    /// It has no lift at this vertex class, and one at each class before it.
    NoLift { class: u32 },
}

/// Lemma: let T be a triangulation, x a vector in any coordinates, and a limit given. There is at most one answer for
/// x: its properties if none of its sums exceeds the limit, otherwise the first sum that does.
pub fn properties_are_determined()
    ensures { OnePropertyAnswer }
{}

/// Lemma: let T be a triangulation, and x a vector in any coordinates. There is at most one answer for x: the list of
/// its components if it has at most 100,000 normal discs, otherwise their number.
pub fn components_are_determined()
    ensures { OnePiecesAnswer }
{}

/// Lemma: let T be a triangulation, with coordinates and equations, and let a list of vectors be given. There is at
/// most one answer for them: a description of each, or the index of the first vector that is refused, with its reason.
pub fn descriptions_are_determined()
    ensures { OneDescriptionEach }
{}
