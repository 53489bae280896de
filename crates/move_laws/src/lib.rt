//! Theorems on Pachner moves that follow from their definitions alone: a move is legal if and only if the star of its
//! core is part of the boundary of a 4-simplex, its result is determined, its inverse reverses it up to isomorphism,
//! and it keeps whether a table is closed and whether it is orientable.
//!
//! Words: moves, cores and legal moves are those of `move_definitions`. A legal move *carries* T to its result. T' is
//! *isomorphic* to T if a relabelling carries T to T'. A *certificate* of T is a list of moves, each legal and within
//! the limit of 1,000 tetrahedra, that carries T to a table isomorphic to the standard one-tetrahedron 3-sphere. A
//! *descent* plays the first accepted 4-1 move, otherwise the first accepted 3-2 move, until the table is isomorphic to
//! the standard sphere or there is none. A *making* plays moves that the generator draws among the candidates, until
//! there are as many as requested or no candidate: the accepted 2-3 and 3-2 moves, or the accepted 1-4 moves if there
//! are none. A *triangulation* is a gluing table as at `table_definitions`; it has at most 1,000 tetrahedra.
#![tactic(auto)]

ghost use Rattle.move_laws.specs.Stars.{LegalExactlyByStars, StarsAreTakenOut};
ghost use Rattle.move_definitions.specs.Laws.{LegalMovesLeadOn, MovesAgree, MovesMakeTables, InversesHaveCores, InversesLeadBackUpToLabels, InversesLeadOnlyBack, MoveLinesHaveCores, PlaysAgree, DescentsAgree, MakingsAgree};
ghost use Rattle.move_definitions.specs.Undos.{TakesBack};
ghost use Rattle.move_laws.specs.Closed.{MovesKeepClosed, MovesKeepBoundary, PlaysKeepClosed, PlaysKeepBoundary};
ghost use Rattle.move_laws.specs.Orientable.{MovesKeepOrientable, MovesComeFromOrientable, PlaysKeepOrientable, PlaysComeFromOrientable, RelabelledFromOrientable};
ghost use Rattle.move_laws.specs.Certified.{StandardSphere, RelabelledFromClosed, CertifiedAreClosed, CertifiedAreOrientable};

/// Theorem (Pachner 1991): let T be a triangulation, and m a move with a core: a nonempty set of vertices of a
/// tetrahedron. The *star* of the core is part of the boundary of a 4-simplex if there is a facet of T for each label
/// outside the core, with the tetrahedron of m as facet 4, in different tetrahedra, and any two of them are glued label
/// by label.
///
/// 1. m is legal if and only if the star of its core is part of the boundary of a 4-simplex.
/// 2. The facets of this star are those that m removes.
pub fn legal_moves_have_stars()
    ensures exactly { LegalExactlyByStars }
    ensures taken_out { StarsAreTakenOut }
{}

/// Theorem: let T be a triangulation, and m a move with a core that is legal on T. Then m has a result: a list of rows,
/// possibly more than 1,000.
pub fn legal_moves_lead_on()
    ensures { LegalMovesLeadOn }
{}

/// Theorem: let T be a triangulation. A move on T has at most one result.
pub fn moves_agree()
    ensures { MovesAgree }
{}

/// Theorem: let T be a triangulation, and let a legal move on T result in at most 1,000 rows. Then these are a
/// triangulation.
pub fn moves_make_tables()
    ensures { MovesMakeTables }
{}

/// Theorem: let m be a move.
///
/// 1. If m has a core, the inverse of m has one.
/// 2. Let m carry a triangulation T to T'. Then the inverse of m carries T' to a table isomorphic to T.
/// 3. Let m carry a triangulation T to T' of at most 1,000 tetrahedra. Then each result of the inverse of m on T' is
///    isomorphic to T.
pub fn inverses_lead_back()
    ensures cores { InversesHaveCores }
    ensures tables { InversesLeadBackUpToLabels }
    ensures alone { InversesLeadOnlyBack }
{}

/// Theorem: let T be a triangulation, and let a legal move within the limit of 1,000 tetrahedra carry T to T'. If the
/// move is undone on T', the result is T, row for row.
pub fn moves_are_taken_back()
    ensures { TakesBack }
{}

/// Lemma.
///
/// 1. Let a list of moves, each legal and within the limit of 1,000 tetrahedra, carry a triangulation T to T' and to
///    T''. Then T' is a triangulation, and T' = T''.
/// 2. A move that a line of text spells has a core.
pub fn plays_agree()
    ensures tables { PlaysAgree }
    ensures lines { MoveLinesHaveCores }
{}

/// Lemma: let T be a list of rows.
///
/// 1. There is at most one descent from T: one list of moves and one last table.
/// 2. For a state of the generator and a number of moves, there is at most one making from T: one list of moves and one
///    last table.
pub fn descents_and_makings_agree()
    ensures descents { DescentsAgree }
    ensures makings { MakingsAgree }
{}

/// Theorem: in 1 and 2, let a legal move carry a triangulation T to T'. In 3 and 4, let a list of moves, each legal and
/// within the limit of 1,000 tetrahedra, carry a list of rows T to T'.
///
/// 1. If T is closed, T' is closed.
/// 2. If T' is closed, T is closed.
/// 3. If T is closed, T' is closed.
/// 4. If T' is closed, T is closed.
pub fn moves_keep_closed()
    ensures forth { MovesKeepClosed }
    ensures back { MovesKeepBoundary }
    ensures plays_forth { PlaysKeepClosed }
    ensures plays_back { PlaysKeepBoundary }
{}

/// Theorem: in 1 and 2, let a legal move carry a triangulation T to T'. In 3 and 4, let a list of moves, each legal and
/// within the limit of 1,000 tetrahedra, carry a list of rows T to T'.
///
/// 1. If T is orientable, T' is orientable.
/// 2. If T' is orientable and has at most 1,000 tetrahedra, T is orientable.
/// 3. If T is orientable, T' is orientable.
/// 4. If T' is orientable, T is orientable.
/// 5. A triangulation isomorphic to an orientable table is orientable.
pub fn moves_keep_orientable()
    ensures forth { MovesKeepOrientable }
    ensures back { MovesComeFromOrientable }
    ensures plays_forth { PlaysKeepOrientable }
    ensures plays_back { PlaysComeFromOrientable }
    ensures relabelled { RelabelledFromOrientable }
{}

/// Theorem: let T be a triangulation.
///
/// 1. The standard sphere is closed and orientable.
/// 2. If T is isomorphic to a closed table, T is closed.
/// 3. If T has a certificate, T is closed.
/// 4. If T has a certificate, T is orientable.
pub fn certified_tables()
    ensures sphere { StandardSphere }
    ensures relabelled { RelabelledFromClosed }
    ensures closed { CertifiedAreClosed }
    ensures orientable { CertifiedAreOrientable }
{}
