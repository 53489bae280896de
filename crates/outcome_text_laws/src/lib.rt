//! Theorems on printed texts: the text of a list, of `info` or of `describe` determines what it says. The functions
//! have empty bodies: their contracts are theorems.
//!
//! An *answer* of a command to its input is an outcome, a status and a text, that is right for what the input spells.
//! Vertex classes, and edge classes, of a triangulation are numbered from 0. A *vector* has one entry for each disc
//! type of each tetrahedron.
#![tactic(auto)]

ghost use Rattle.outcome_text_laws.specs.Descriptions.{DoneHasDescriptions, DescriptionTextsDetermine, DescribeTextsDetermineStatus};
ghost use Rattle.outcome_text_laws.specs.Information.{InformationTextsDetermine};
ghost use Rattle.outcome_text_laws.specs.Lists.{ListTextsDetermine, EnumerationTextsDetermineStatus};
ghost use Rattle.outcome_text_laws.specs.Refusals.{RefusalTextsDetermine, InvalidEdgeTextsDetermine};

/// Theorem:
///
/// 1. Let L and L' be lists of vectors with no entry above 2^127 - 1. If the text of L, as `surfaces` or `rays` prints
///    it, is the text of L' as the same command prints it, then L = L'.
/// 2. If answers of `surfaces` to two triangulations, or of `rays` to two cones, have the same text, of a list or of a
///    refusal, they have the same status.
pub fn list_texts_are_distinct()
    ensures lists { ListTextsDetermine }
    ensures status { EnumerationTextsDetermineStatus }
{}

/// Theorem: let an answer of `info` to T and one to T' have the same text. Then T and T' have equally many tetrahedra,
/// vertices, edges and faces. Both are connected or neither, both orientable or neither, and both closed or neither.
/// Vertex classes with the same number have the same degree, and links of the same Euler characteristic and kind, both
/// closed or neither. Edge classes with the same number have the same degree; both lie in the boundary or neither, and
/// both are valid or neither.
pub fn information_texts_are_distinct()
    ensures { InformationTextsDetermine }
{}

/// Theorem: let an answer of `describe` to T and a list L of vectors be given, and one to T' and L'.
///
/// 1. If the first answer has status 0, its text is a description of each vector of L.
/// 2. Let both texts be such descriptions, and be equal. Then L = L'. Corresponding vectors have the same Euler
///    characteristic and equally many components; both consist of triangles alone or neither, and both meet the
///    boundary or neither. Corresponding components have the same vector and Euler characteristic; both are two-sided
///    or neither, and both orientable or neither.
/// 3. If the texts are equal, of descriptions or of refusals, the answers have the same status.
pub fn description_texts_are_distinct()
    ensures done { DoneHasDescriptions }
    ensures same { DescriptionTextsDetermine }
    ensures status { DescribeTextsDetermineStatus }
{}

/// Theorem: let all numbers in two refusals be below 10^64.
///
/// 1. If `describe`, `lift` or `crush` refuses vector v of one input and vector w of another with the same line, then
///    v = w, and the reasons are equal.
/// 2. If `describe` refuses two inputs for an invalid edge with the same line, the edge classes have the same number.
pub fn refusal_texts_are_distinct()
    ensures vectors { RefusalTextsDetermine }
    ensures edges { InvalidEdgeTextsDetermine }
{}
