//! Theorems on certificates and on the tables that the generator makes: legal moves correspond under isomorphisms, the
//! moves of a making carried back are a certificate, and a table with a list of moves has exactly one answer.
//!
//! Words: legal and accepted moves are those of `move_definitions`; certificates, descents, candidates and makings
//! those of `move_laws`. A relabelling that carries S to T takes a move of S to the *corresponding* move of T. A
//! *transport* of a list of moves is the list of their inverses, last move first, each carried along the relabelling
//! that arises from the one before. A *triangulation* is a gluing table as at `table_definitions`; it has at most 1,000
//! tetrahedra.
#![tactic(auto)]

ghost use Rattle.certificate_laws.specs.LoopLaws.{ChecksGoOn, ChecksRefuse, DescentsGoOn, DescentsAreDone, MakingsGoOn, MakingsAreDone, InversesExtend};
ghost use Rattle.certificate_laws.specs.Laws.{LegalMovesGoAlong, SignaturesKeepLegalMoves, MovesGoOn, MovesGoOnOnce, PlaysGoOn, MovesKeepConnected, WaysKeepConnected, StepsGoBack, InversesReturn, InversesCarry, InversesAgree, TablesAreMade, OneIsMade, MadeAreCertified, SphereIsTable, SphereHasSignature, TextsDetermineStandard, AnswersAgree, AnswersExist, DescentsLessen, DescentsEnd, DescentsCertify, StandardOrNot, DescentsExist, OneDescent, DescentAnswersExist, DescentAnswersAgree};
ghost use Rattle.certificate_laws.specs.Makings.{OneFoursAreAccepted, CandidatesAreThere, PlaysAddAtMostThree, MakingsEndAtLimit, MakingsHaveMost, CertificatesHaveMost, TablesAreMadeWithMost};

/// Theorem: let a relabelling f carry a triangulation S to T, and let a legal move m carry S to S'.
///
/// 1. The move of T that corresponds to m under f has a result T', and a relabelling f' carries S' to T' and extends f:
///    it maps the retained tetrahedra as f does, and the new facet for a label to the new facet for the corresponding
///    label.
/// 2. Any two such relabellings of S' are equal.
/// 3. If m is within the limit of 1,000 tetrahedra, the corresponding move is legal on T and within the limit.
pub fn moves_go_on()
    ensures tables { MovesGoOn }
    ensures once { MovesGoOnOnce }
    ensures plays { PlaysGoOn }
{}

/// Theorem: let S be a triangulation.
///
/// 1. Let a relabelling carry S to T. A move at a tetrahedron of S, with a core, is legal on S if and only if the
///    corresponding move is legal on T.
/// 2. Let S have a signature. A relabelling carries S to the table that the signature spells, and 1 holds for it.
pub fn legal_moves_go_along()
    ensures tables { LegalMovesGoAlong }
    ensures signatures { SignaturesKeepLegalMoves }
{}

/// Theorem: let T be a connected triangulation.
///
/// 1. A legal move on T within the limit of 1,000 tetrahedra results in a connected table.
/// 2. A list of moves, each legal and within the limit, results in a connected table.
pub fn moves_keep_connected()
    ensures one { MovesKeepConnected }
    ensures all { WaysKeepConnected }
{}

/// Theorem: let a list of moves, each legal and within the limit of 1,000 tetrahedra, carry a triangulation T to T'.
///
/// 1. If one move carries T to T', and a relabelling carries T' to a table, the inverse move, carried along it, leads
///    from that table to one isomorphic to T, by a relabelling that extends the one of T'.
/// 2. The inverses of the moves, last move first, each carried along such relabellings, are a transport of the list.
/// 3. A transport is a list of as many moves, and leads from T' to a table to which its relabelling carries T.
/// 4. There is at most one transport, with one last table and one relabelling.
pub fn inverses_return()
    ensures steps { StepsGoBack }
    ensures there { InversesReturn }
    ensures leads { InversesCarry }
    ensures one { InversesAgree }
{}

/// Theorem: let a seed and a number of moves be given.
///
/// 1. The generator makes a table with a list of moves.
/// 2. It makes at most one table and one list of moves.
/// 3. This list is a certificate of the table.
pub fn tables_are_made()
    ensures made { TablesAreMade }
    ensures one { OneIsMade }
    ensures certified { MadeAreCertified }
{}

/// Theorem.
///
/// 1. The standard one-tetrahedron 3-sphere is a triangulation.
/// 2. Its signature is `bkaagj`.
/// 3. Let T be a triangulation with a signature. T is isomorphic to the standard sphere if and only if its signature is
///    `bkaagj`.
pub fn sphere_has_signature()
    ensures table { SphereIsTable }
    ensures signature { SphereHasSignature }
    ensures determines { TextsDetermineStandard }
{}

/// Lemma: let T be a triangulation, and a list of moves given.
///
/// 1. There is at most one answer of `check` to T and the moves.
/// 2. If each move has a core, there is one.
pub fn answers_agree()
    ensures one { AnswersAgree }
    ensures some { AnswersExist }
{}

/// Theorem: let T be a triangulation. A *descent* plays the first accepted 4-1 move, otherwise the first accepted 3-2
/// move, until the table is isomorphic to the standard sphere or there is none.
///
/// 1. The move of a descent reduces the number of tetrahedra.
/// 2. The number of moves of a descent from T, and the number of tetrahedra of its last table, add up to at most the
///    number of tetrahedra of T.
/// 3. If the last table of a descent from T is isomorphic to the standard sphere, the moves of the descent are a
///    certificate of T.
pub fn descents_certify()
    ensures lessens { DescentsLessen }
    ensures ends { DescentsEnd }
    ensures certifies { DescentsCertify }
{}

/// Theorem: let T be a triangulation.
///
/// 1. T is isomorphic to the standard sphere, or it is not. (This is proved without excluded middle.)
/// 2. T has a descent, with its moves, its last table, and whether this is isomorphic to the standard sphere.
/// 3. T has at most one descent.
pub fn descents_are_determined()
    ensures standard { StandardOrNot }
    ensures some { DescentsExist }
    ensures one { OneDescent }
{}

/// Lemma: let T be a triangulation.
///
/// 1. There is an answer of `descend` to T: its descent if T is connected, otherwise the least tetrahedron that is not
///    joined to tetrahedron 0.
/// 2. There is at most one answer.
pub fn descents_are_answered()
    ensures some { DescentAnswersExist }
    ensures one { DescentAnswersAgree }
{}

/// Lemma: let the first k moves of a list, each legal and within the limit of 1,000 tetrahedra, carry a table to T, and
/// let m be the next move.
///
/// 1. If m is legal on T, within the limit, and carries T to T', the first k + 1 moves carry the table to T'.
/// 2. If m is refused on T, as illegal or as above the limit, the list is refused at move k + 1, counted from 1, with
///    this error.
pub fn checks_go_on()
    ensures on { ChecksGoOn }
    ensures refuse { ChecksRefuse }
{}

/// Lemma: let a list of moves be an initial part of a descent from a table, with the result T.
///
/// 1. If T is not isomorphic to the standard sphere and its move of a descent results in T', the list with this move is
///    an initial part of a descent, with the result T'.
/// 2. If T is isomorphic to the standard sphere, or has no move of a descent, the list is a descent.
pub fn descents_go_on()
    ensures on { DescentsGoOn }
    ensures done { DescentsAreDone }
{}

/// Lemma: let a list of moves be the first moves that the generator makes from a table and a state, with the table T as
/// their result.
///
/// 1. If the next state draws a move of T that is legal and within the limit, the list with this move is the first
///    moves that the generator makes.
/// 2. Let at most n moves be in the list. If it has n moves, or T has no candidate, it is the making of n moves.
pub fn makings_go_on()
    ensures on { MakingsGoOn }
    ensures done { MakingsAreDone }
{}

/// Lemma: let m be move k of a list, counted from 0, legal and within the limit of 1,000 tetrahedra, and carry T to T'.
/// Let a transport of the moves after m carry their last table to U, and let a relabelling f carry T' to U. Let the
/// inverse of m, carried along f, be legal on U, within the limit, and result in U', and let a relabelling of T arise
/// from f. Then the transport with this move appended is a transport of the moves from m on, and results in U'.
pub fn inverses_extend()
    ensures { InversesExtend }
{}

/// Theorem: let T be a table with n >= 1 tetrahedra.
///
/// 1. If n <= 997, the 1-4 move at each tetrahedron is accepted.
/// 2. If n <= 997, there is a candidate.
/// 3. A list of k moves, each legal and within the limit, results in at least 1 and at most n + 3k tetrahedra.
/// 4. A making from T has as many moves as requested, or ends with more than 997 tetrahedra.
/// 5. If k moves are requested and n + 3k <= 1,000, a making from T has k moves.
/// 6. If k <= 333 moves are requested of the generator, which begins with the standard sphere, the certificate of the
///    table has k moves, and there is such a table.
pub fn makings_have_most()
    ensures accepted { OneFoursAreAccepted }
    ensures there { CandidatesAreThere }
    ensures limited { PlaysAddAtMostThree }
    ensures limit { MakingsEndAtLimit }
    ensures moves { MakingsHaveMost }
    ensures certificates { CertificatesHaveMost }
    ensures made { TablesAreMadeWithMost }
{}
