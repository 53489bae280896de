//! Theorems on answers that are read again: what one command prints is an input of the next one, and is read as the
//! same tables, vectors, moves and sums. The functions have empty bodies: their contracts are the theorems.
//!
//! A *run* of a command is its outcome, a status and a text, for words that request it and an input of at most
//! 1,048,576 bytes; it is *done* if its status is 0. A text is *read as* T and further items if a command that asks for
//! such an input reads it so. A text *after T* is the text of T as trinorm writes it, followed by this text.
#![tactic(auto)]

ghost use Rattle.outcome_written_laws.specs.Entries.{ListedAreWithin};
ghost use Rattle.outcome_written_laws.specs.Surfaces.{SurfacesAreRead, SurfacesAreSolutions, ListedAreVerified};
ghost use Rattle.outcome_written_laws.specs.Lifts.{LiftsAreWithin, LiftsAreRead, LiftsAreVerified};
ghost use Rattle.outcome_written_laws.specs.Tables.{CrushedAreRead, DescentsAreRead};
ghost use Rattle.outcome_written_laws.specs.Covers.{CoversAreRead};
ghost use Rattle.outcome_written_laws.specs.Certificates.{AcceptedAreCertificates, CertificatesAreAccepted, ReachedDescentsAreAccepted, MadeTablesAreAccepted};
ghost use Rattle.outcome_written_laws.specs.Certificates.{WrittenMovesAreShort, CheckAcceptsCertificates, CheckAcceptsDescents, CheckAcceptsMade};
ghost use Rattle.outcome_written_laws.specs.Sums.{DecompositionsAreAnswered, WrittenSumsAreRead, SumsAreAcceptedUnlessLarge, WholeSumsAreAccepted, DecomposedAreReadAgain};
ghost use Rattle.outcome_written_laws.specs.Documents.{WrittenTablesAreLines, WrittenTablesAreRead, WrittenVectorsAreLines, WrittenAnswersAreRead};
ghost use Rattle.outcome_written_laws.specs.Joined.{JoinedAreRead, JoinedPartsAreRead, WorkedFileIsRead};
ghost use Rattle.outcome_written_laws.specs.Moves.{WrittenMovesAreLines, WrittenMovesAreRead, MadeAreRead, MadeAreCertified};

/// Theorem:
///
/// 1. Let an enumeration have a list. No entry of its vectors exceeds a number that is at least 1 and at least the
///    limit of the enumeration.
/// 2. Let a run of `surfaces` read T and be done. Its text after T is read as T and all vertex surfaces of T in the
///    coordinates of the run.
pub fn surfaces_are_read()
    ensures within { ListedAreWithin }
    ensures read { SurfacesAreRead }
{}

/// Theorem:
///
/// 1. For each vertex surface of T the verdict is `solution`, or names the first equation of which a part exceeds
///    2^127 - 1 there.
/// 2. Let a run of `surfaces` read T and be done. Each run of `verify` in the same coordinates, on its text after T,
///    prints such a verdict for each vertex surface of T.
pub fn listed_are_verified()
    ensures verdict { SurfacesAreSolutions }
    ensures answer { ListedAreVerified }
{}

/// Theorem:
///
/// 1. Let T have n tetrahedra, and x be a vector of 3n entries. No entry of a lift of x exceeds 4 times the sum of the
///    entries of x.
/// 2. Let a run of `lift` read T and vectors and be done. Its text after T is read as T and the lifts of these vectors,
///    which are admissible solutions in standard coordinates.
/// 3. Each run of `verify` in standard coordinates on this text prints for each lift `solution`, or names the first
///    equation of which a part exceeds 2^127 - 1.
pub fn lifts_are_read()
    ensures within { LiftsAreWithin }
    ensures read { LiftsAreRead }
    ensures verified { LiftsAreVerified }
{}

/// Theorem: let a run of `crush` read T and a vector x, and be done. Its text is read as the table that results from T
/// by crushing along x. If x has no quads, this is T.
pub fn crushed_are_read()
    ensures { CrushedAreRead }
{}

/// Theorem: let a run of `descend` read T and be done. The text of the table at which the descent ends is read as this
/// table, and the moves of the descent after T are read as T and these moves. If the descent reached the standard
/// sphere, the one answer of `check` to this text is `accepted`.
pub fn descents_are_read()
    ensures { DescentsAreRead }
{}

/// Theorem: let T have at most 500 tetrahedra. The text that `cover` prints for T is read as the cover of T.
pub fn covers_are_read()
    ensures { CoversAreRead }
{}

/// Lemma: let T be a table and a list of moves be given. An answer of `check` to them is `accepted`, with status 0, if
/// and only if the moves are a certificate of T.
pub fn accepted_are_certificates()
    ensures { AcceptedAreCertificates }
{}

/// Theorem: let T be a table. The one answer of `check` to the text of T followed by a list of moves is `accepted` in
/// each of three cases:
///
/// 1. the moves are a certificate of T;
/// 2. they are the moves of a descent from T that reached the standard sphere;
/// 3. they are the certificate that `make`, for a seed and a number of moves, prints for T.
pub fn certificates_are_accepted()
    ensures certificates { CertificatesAreAccepted }
    ensures descents { ReachedDescentsAreAccepted }
    ensures makings { MadeTablesAreAccepted }
{}

/// Theorem:
///
/// 1. Let m moves, each legal and within the limit of 1,000 tetrahedra, be played one after the other, the first on a
///    table T of n tetrahedra. The text of T and these moves has at most 9 + 37n + 28m bytes.
/// 2. Let words ask for `check`. They have the one outcome `accepted` for the text of a table and a certificate of it,
///    if this text has at most 1,048,576 bytes.
/// 3. They have it for the text of a table and the moves of a descent from it that reached the standard sphere.
/// 4. They have it for the text of each outcome of words that ask for `make`.
pub fn check_accepts_certificates()
    ensures short { WrittenMovesAreShort }
    ensures certificates { CheckAcceptsCertificates }
    ensures descents { CheckAcceptsDescents }
    ensures made { CheckAcceptsMade }
{}

/// Lemma: let an answer of `decompose` to T and vectors have status 0. Its text is T followed by a sum for each vector;
/// all vectors are admissible solutions within 2^127 - 1.
pub fn decompositions_are_answered()
    ensures { DecompositionsAreAnswered }
{}

/// Lemma: let the limit of `decompose` be at most 2^127 - 1. The text of T, followed by the sums that it prints for
/// vectors of T, is read as T and these sums.
pub fn sums_are_read()
    ensures { WrittenSumsAreRead }
{}

/// Theorem: let the limit of `decompose` be at most 2^127 - 1, and let its answer to T and vectors have status 0.
///
/// 1. The one answer of `addup` to T and these sums is `accepted`, if at no term a part of an equation exceeds
///    2^127 - 1. Otherwise it names the first sum, term and equation at which one does.
/// 2. If each vector is taken once, the one answer is `accepted`.
/// 3. The text that `decompose` prints is read as T and sums of these vectors, and the one answer to it is as in 1.
pub fn sums_are_accepted()
    ensures unless_large { SumsAreAcceptedUnlessLarge }
    ensures whole { WholeSumsAreAccepted }
    ensures decomposed { DecomposedAreReadAgain }
{}

/// Theorem:
///
/// 1. The text of a table T, as trinorm writes it, consists of the lines of T.
/// 2. It is read as T.
pub fn written_tables_are_read()
    ensures lines { WrittenTablesAreLines }
    ensures document { WrittenTablesAreRead }
{}

/// Lemma: let no entry of a list of vectors exceed 2^127 - 1. The text of the list has one line for each vector, which
/// spells it.
pub fn written_vectors_are_read()
    ensures { WrittenVectorsAreLines }
{}

/// Lemma: let T be a table, and let no entry of a list of vectors exceed 2^127 - 1. The text of T, followed by this
/// list as `surfaces` prints it, is read as T and this list.
pub fn written_answers_are_read()
    ensures { WrittenAnswersAreRead }
{}

/// Theorem: let a file be read as T, and let its last byte be a line feed. Let a text after T be read as T and a list
/// L, as that of `surfaces` or `lift` is.
///
/// 1. The file with this text joined to its end is read as T and L.
/// 2. The file with one line `vec` for each of given vectors of L joined to its end is read as T and these vectors.
/// 3. Example: a comment and a line that spells `sig bkaagj` with further spaces are read as a table of one
///    tetrahedron; with `# surfaces 1` and a line `vec` they are read as the table and one vector.
pub fn joined_files_are_read()
    ensures whole { JoinedAreRead }
    ensures part { JoinedPartsAreRead }
    ensures worked { WorkedFileIsRead }
{}

/// Lemma: let a list of moves be given, in each of which the tetrahedron is less than 2^32 and the core is one of a
/// move. The text of the list has one line for each move, which spells it.
pub fn written_moves_are_lines()
    ensures { WrittenMovesAreLines }
{}

/// Theorem: let moves, each legal and within the limit of 1,000 tetrahedra, be played one after the other, the first on
/// a table T. The text of T followed by the moves is read as T and these moves.
pub fn written_moves_are_read()
    ensures { WrittenMovesAreRead }
{}

/// Theorem: let an answer of `make` be given, with its table and moves.
///
/// 1. Its text is read as this table and these moves.
/// 2. The moves are a certificate of the table.
pub fn made_are_read()
    ensures read { MadeAreRead }
    ensures certified { MadeAreCertified }
{}
