//! Theorems on what the answers of single commands mean: lists of vertex surfaces, lifts, certificates, isomorphism,
//! sums, covers and scripts of moves, each over the one outcome of words and bytes.
//!
//! A *run* of a command is its outcome, a status and a text, for words that request it and an input of at most
//! 1,048,576 bytes; it is *done* if its status is 0. T, and vectors, moves or other items after it, are what the input
//! is read as. A vector is an *admissible solution within 2^127 - 1* if it solves the equations of T, is nonzero in no
//! clashing pair of columns, and the positive and the negative part of each equation there are at most 2^127 - 1.
#![tactic(auto)]

ghost use Rattle.outcome_answer_laws.specs.Surfaces.{BoundedTablesAreListed, SmallTablesAreListed};
ghost use Rattle.outcome_answer_laws.specs.Lifts.{NoneWithoutLift, SolutionsAreLifted};
ghost use Rattle.outcome_answer_laws.specs.Makings.{AllMovesAreMade, AllMovesAreSummedUp};
ghost use Rattle.outcome_answer_laws.specs.Checks.{CertificatesAreAccepted, CertificatesAreDone};
ghost use Rattle.outcome_answer_laws.specs.Signatures.{SignaturesDetermine, ComponentSignaturesDetermine};
ghost use Rattle.outcome_answer_laws.specs.Comparisons.{ConnectedAreCompared, ComponentsAreCompared, TablesAreGrouped};
ghost use Rattle.outcome_answer_laws.specs.Sums.{VectorsAreDecomposed, TrueSumsAreAccepted};
ghost use Rattle.outcome_answer_laws.specs.Covers.{CoversAreAnswered};
ghost use Rattle.outcome_answer_laws.specs.Scripts.{ScriptsArePlayed};

/// Theorem: let T have n tetrahedra, and let a run of `surfaces` read T.
///
/// 1. Let the limit be at least 4 * 16^n in standard, 12n * 16^n in quad, or 512 * 16^n in octagon coordinates. Then
///    the run is done and prints the list of all vertex surfaces of T in its coordinates, whichever order is requested.
/// 2. It does so at the default limit, 2^127 - 1, if n is at most 31 in standard, or at most 29 in quad or octagon
///    coordinates.
pub fn small_tables_are_listed()
    ensures bounded { BoundedTablesAreListed }
    ensures limited { SmallTablesAreListed }
{}

/// Theorem (Tollefson 1998): let each vertex link of T be a sphere or a disc, and let a run of `lift` read T and
/// vectors.
///
/// 1. The run refuses no vector with `no-lift`: it prints the lifts of all vectors, or refuses a vector for another
///    reason.
/// 2. Let each vector be an admissible solution of the quad equations within 2^127 - 1, and 4 times the sum of its
///    entries at most 2^127 - 1. Then the run prints the lifts of all vectors.
pub fn solutions_are_lifted()
    ensures none { NoneWithoutLift }
    ensures lifted { SolutionsAreLifted }
{}

/// Theorem:
///
/// 1. Let m be at most 333. A run of `make` for any seed and m moves prints a table with a certificate of exactly m
///    moves.
/// 2. A run of `bulk` for any seed and m moves, of which at most 5 are accepted, prints the summary of the standard
///    vertex surfaces of a table that has a certificate of exactly m moves. No number of their enumeration exceeds
///    2^127 - 1.
pub fn all_moves_are_made()
    ensures make { AllMovesAreMade }
    ensures bulk { AllMovesAreSummedUp }
{}

/// Theorem: let a run of `check` read T and a list of moves.
///
/// 1. It prints `accepted`, with status 0, if and only if the moves are a certificate of T.
/// 2. Its status is 0 if and only if the moves are a certificate of T.
pub fn certificates_are_accepted()
    ensures accepted { CertificatesAreAccepted }
    ensures done { CertificatesAreDone }
{}

/// Theorem: let two runs of one command read the triangulations T and T'.
///
/// 1. Let both be runs of `sig`, and T and T' be connected. The outcomes are equal if and only if T and T' are
///    isomorphic.
/// 2. Let both be runs of `csig`. The outcomes are equal if and only if T and T' are isomorphic.
pub fn signatures_determine_tables()
    ensures sig { SignaturesDetermine }
    ensures csig { ComponentSignaturesDetermine }
{}

/// Theorem:
///
/// 1. Let a run of `same` read T and T'. It is done if and only if both are connected. If they are, it prints `same`
///    and an isomorphism if T and T' are isomorphic, and `different` otherwise.
/// 2. A run of `csame` does this for any T and T'. It prints `same` if and only if the components of T and T'
///    correspond one to one such that corresponding ones are isomorphic.
/// 3. Let a run of `group` read a list of triangulations. It is done if and only if each is connected. If each is, it
///    prints classes, none empty, with their signatures; two triangulations are in one class if and only if they are
///    isomorphic.
pub fn tables_are_compared()
    ensures same { ConnectedAreCompared }
    ensures csame { ComponentsAreCompared }
    ensures group { TablesAreGrouped }
{}

/// Theorem:
///
/// 1. Let a run of `decompose`, in any coordinates and with any limit, read T and vectors. If a vector is not an
///    admissible solution within 2^127 - 1, it names the first one, and why. Otherwise it prints a positive multiple of
///    each as a sum of vertex surfaces of T, or names the first vector whose multiple exceeds the limit, or the first
///    number of the enumeration that does. The enumeration stays within a limit of at least 2^127 - 1 if T has at most
///    31 tetrahedra in standard, or 29 in quad or octagon coordinates.
/// 2. A run of `addup` on T and sums prints `accepted`, and is done, if and only if each vector and term is such a
///    solution and each sum is correct.
pub fn sums_are_answered()
    ensures decompose { VectorsAreDecomposed }
    ensures addup { TrueSumsAreAccepted }
{}

/// Theorem: let a run of `cover` read a triangulation T with n tetrahedra. It prints `refused: cover too-many` if and
/// only if 2n > 1000. Otherwise it prints an orientable triangulation T' of 2n tetrahedra, two over each tetrahedron of
/// T, and whether T' is connected. Each face of T' is glued over the gluing of the face of T below it, or is a boundary
/// face if that face is one. T' is closed if and only if T is, and the exchange of the two sheets carries T' to itself.
/// If T is connected and not empty, T' is connected if and only if T is not orientable.
pub fn covers_are_answered()
    ensures { CoversAreAnswered }
{}

/// Theorem: let a run of `play` read T and steps. It prints an answer to each step, and the table that results from T
/// by the moves in effect after the last step.
///
/// If the steps are moves that can all be played, one after the other, all are done, and the table is their result. If
/// the last steps are moves that can all be played and then as many undos, all are done and undone, and the table is
/// the one before them. If the last steps are at least as many undos as there are steps before, the table is T.
pub fn scripts_are_played()
    ensures { ScriptsArePlayed }
{}
