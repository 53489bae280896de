//! Theorems on normal vectors and surfaces: crushing, lifts of quad vectors, normal discs, components and Euler
//! characteristics. The functions have empty bodies: their contracts are theorems.
//!
//! A *surface* is an admissible solution of the matching equations of T in standard or octagon coordinates; 0 is one.
//! Two discs of a vector are in one *component* if a chain of discs joins them in which consecutive discs meet in an
//! arc. A *lift* of a quad vector is a standard vector with these quads that solves the matching equations and has, for
//! each vertex class, a vertex with no triangle. It is a *lift at* a class if both hold for this class. In crushing, a
//! tetrahedron is *removed* if it has a quad, and *retained* otherwise. A *crush chain* leads from a face of a retained
//! tetrahedron across its gluing, and through each removed tetrahedron by the transposition of the two vertices on one
//! side of its quads. It *ends* at the first retained face, or at a boundary face.
#![tactic(auto)]

ghost use Rattle.surface_laws.specs.CharacteristicLaws.{SumsAddUp, CharacteristicsAddUp, ComponentSumsAddUp, LinkingHasNoQuads, BoundaryHasArcs};
ghost use Rattle.surface_laws.specs.CrushingLaws.{ChainsHaveOneEnd, ChainsLeadBack, CrushingMakesTables};
ghost use Rattle.surface_laws.specs.AnswerLaws.{OneLiftEach, OneCrushing};
ghost use Rattle.surface_laws.specs.LiftLaws.{AtMostOneLift, LiftsAreSurfaces, OneLiftAnswer, LiftsAreHeights, LiftsJoin, LiftsAreDecided, LiftAnswersExist};
ghost use Rattle.surface_laws.specs.PieceLaws.{ArcsMeetBack, ComponentsAddUp, ComponentsAreSurfaces, PiecesAreNumbered, ArcsArePieces, ChainsOfArcsJoin, MeetingPiecesJoin, ComponentsExist, PiecesAnswersExist};

/// Theorem: let x be a standard vector of T. From each face of a retained tetrahedron a crush chain reaches an end, and
/// each crush chain from this face has the same end.
pub fn chains_have_one_end()
    ensures { ChainsHaveOneEnd }
{}

/// Theorem: let x be a standard vector of T. Let a crush chain lead from a retained face F, by p, to a face G. Then p
/// is a permutation of the four vertices, G is retained and differs from F, and a crush chain leads from G to F by the
/// inverse of p.
pub fn chains_lead_back()
    ensures { ChainsLeadBack }
{}

/// Theorem: for each table T and each vector x in standard coordinates there is exactly one crushed list of rows. It is
/// a table.
pub fn crushing_makes_tables()
    ensures { CrushingMakesTables }
{}

/// Theorem (Tollefson 1998): a quad vector of T has at most one lift.
pub fn lifts_are_determined()
    ensures { AtMostOneLift }
{}

/// Theorem: let x be a vector of 3n entries, where T has n tetrahedra, and let y be a lift of x. Then y solves the
/// matching equations in standard coordinates, and its quads are x. If at most one quad type of each tetrahedron is
/// nonzero in x, y is admissible.
pub fn lifts_are_surfaces()
    ensures { LiftsAreSurfaces }
{}

/// Lemma: let x be a quad vector of T, and a limit be given. The answer for x is that 4 times the sum of x exceeds the
/// limit; otherwise, it is the least vertex class at which x has no lift, or a lift of x. There is at most one answer.
pub fn lift_answers_are_determined()
    ensures { OneLiftAnswer }
{}

/// Theorem: let x and y be vectors of the same length, in any coordinates. The numbers of points, arcs and discs of
/// x + y are the sums of those of x and y.
pub fn sums_add_up()
    ensures { SumsAddUp }
{}

/// Theorem: let x and y be vectors of the same length, in any coordinates. The Euler characteristic of x + y is the sum
/// of those of x and y.
pub fn characteristics_add_up()
    ensures { CharacteristicsAddUp }
{}

/// Lemma: let an arc a of a surface lie in a face that is glued by g. The arc across g is an arc of the surface in a
/// face that is glued by the inverse of g, and the arc across that is a.
pub fn arcs_meet_back()
    ensures { ArcsMeetBack }
{}

/// Theorem: the vectors of the components of a vector x, in any coordinates, add up to x.
pub fn components_add_up()
    ensures { ComponentsAddUp }
{}

/// Theorem: in standard or octagon coordinates, the vector of each component of an admissible solution of the matching
/// equations is an admissible solution of them.
pub fn components_are_surfaces()
    ensures { ComponentsAreSurfaces }
{}

/// Lemma: let x be a vector. It has as many discs as its entries add up to. The disc with index j in column c, where
/// j < x(c), has the number x(0) + ... + x(c - 1) + j, and is the disc at this index of the list of all discs.
pub fn pieces_are_numbered()
    ensures { PiecesAreNumbered }
{}

/// Lemma: in standard or octagon coordinates, the disc of an arc of a surface, in a glued face, is one of the discs of
/// the surface.
pub fn arcs_are_pieces()
    ensures { ArcsArePieces }
{}

/// Theorem: for the discs of a surface in standard or octagon coordinates, to be joined by a chain of discs that meet
/// in arcs is an equivalence relation.
pub fn chains_of_arcs_join()
    ensures { ChainsOfArcsJoin }
{}

/// Theorem: let x be a vector in any coordinates, with its components. The numbers of points of intersection with the
/// edges, of arcs and of discs of the components add up to those of x.
pub fn component_sums_add_up()
    ensures { ComponentSumsAddUp }
{}

/// Lemma: a vector, in any coordinates, is vertex linking if and only if each quad and each octagon is 0.
pub fn linking_has_no_quads()
    ensures { LinkingHasNoQuads }
{}

/// Lemma: a vector, in any coordinates, meets the boundary if and only if it has an arc in a boundary face.
pub fn boundary_has_arcs()
    ensures { BoundaryHasArcs }
{}

/// Lemma: let equations and a list of quad vectors of T be given. At most one answer of `lift` is correct: the lifts of
/// all vectors, or the first vector that is refused, with its reason.
pub fn lifts_of_vectors_are_determined()
    ensures { OneLiftEach }
{}

/// Lemma: let equations and a vector x of a table T be given. At most one answer of `crush` is correct: the table
/// crushed along x, or the reason why x is refused.
pub fn crushing_is_determined()
    ensures { OneCrushing }
{}

/// Theorem: let T have n tetrahedra, x be a vector of 3n entries, and c a vertex class. Then x has a lift at c if and
/// only if there are nonnegative integers h, one for each vertex of a tetrahedron, with the following property. Let a
/// face F be glued to a face F', and let a vertex v of F in class c be identified with the vertex v' of F'. Then h(v)
/// plus the number of quads that cut off an arc around v in F equals h(v') plus the number of quads that cut off an arc
/// around v' in F'.
pub fn lifts_are_heights()
    ensures { LiftsAreHeights }
{}

/// Theorem: let T have n tetrahedra, and x be a vector of 3n entries. If x has a lift at each vertex class, it has a
/// lift.
pub fn lifts_join()
    ensures { LiftsJoin }
{}

/// Theorem: let T have n tetrahedra, x be a vector of 3n entries, and c a vertex class. Then x has a lift at c or it
/// has none; this is proved without excluded middle.
pub fn lifts_are_decided()
    ensures { LiftsAreDecided }
{}

/// Lemma: let T have n tetrahedra, x be a vector of 3n entries, and a limit be given. Then x has an answer: that 4
/// times the sum of x exceeds the limit; otherwise, the least vertex class at which x has no lift; or a lift of x.
pub fn lift_answers_exist()
    ensures { LiftAnswersExist }
{}

/// Lemma: let x be a surface in standard or octagon coordinates, and let the neighbours of each disc be the discs that
/// meet it in an arc. Then neighbours are discs of x, to be neighbours is symmetric, and two discs are joined by
/// neighbours if and only if they are in one component.
pub fn meeting_pieces_join()
    ensures { MeetingPiecesJoin }
{}

/// Theorem: the discs of each surface in standard or octagon coordinates have components. They can be numbered such
/// that two discs have the same number if and only if a chain of discs that meet in arcs joins them.
pub fn components_exist()
    ensures { ComponentsExist }
{}

/// Lemma: in standard or octagon coordinates, each surface with at most 100,000 discs has a list of its components, and
/// each surface with more has the answer that it has more, with their number.
pub fn pieces_answers_exist()
    ensures { PiecesAnswersExist }
{}
