//! What the lists that `surfaces` prints say about a table, stated over the outcomes of the commands: whether it is
//! 0-efficient by its numbers, how many vertices it has, that the lists of all coordinates agree, and that closed
//! orientable surfaces have even Euler characteristics. The functions here have no code: their contracts are laws over
//! the definitions.
//!
//! A *run* of a command is its outcome, a status and a text, for words that request it and an input of at most
//! 1,048,576 bytes; it is *done* if its status is 0. An input is *read as* T, or as T and vectors, if a command that
//! asks for such an input reads it so: T by gluings or a signature, with any comments and spacing. A *file* of T is
//! read as T, and its last byte is a line feed. A text *after T* is the text of T as trinorm writes it, followed by
//! this text. `surfaces` *lists* L for T if a run of it, on an input that is read as T, is done, and its text after T
//! is read as T and L. A run of `lift` *prints* vectors if its text after T is read as T and these vectors.
//!
//! A *surface* is an admissible solution of the matching equations in standard or octagon coordinates. T is
//! *0-efficient by its numbers* if each connected surface of positive Euler characteristic, in standard coordinates, is
//! a vertex link. An *octagonal almost normal sphere, by its numbers* is a connected surface in octagon coordinates
//! with exactly one octagon and Euler characteristic 2. A quad vector is *on an extreme ray* if a positive multiple of
//! it is a positive multiple of an extreme solution of the quad equations.
#![tactic(auto)]

ghost use Rattle.outcome_list_laws.specs.Efficiency.{DescribedInputsDecide, DescribedFilesDecide, DescribedListsDecide, OctagonInputsDecide, OctagonFilesDecide, DescribedOctagonsDecide};
ghost use Rattle.outcome_list_laws.specs.Spheres.{InputsDecideSpheres, DescribedListsDecideSpheres};
ghost use Rattle.outcome_list_laws.specs.Orientable.{OrientableInputsDecideSpheres, OrientableListsDecideSpheres, OrientablePartsDecideSpheres, OrientableFilePartsDecideSpheres, OrientableLiftsDecideSpheres};
ghost use Rattle.outcome_list_laws.specs.EvenComponents.{OrientablePrintedAreEven, TwoSidedPrintedAreEven};
ghost use Rattle.outcome_list_laws.specs.LinkCount.{InputsCountLinks, DescribedLinksAreCounted};
ghost use Rattle.outcome_list_laws.specs.Runs.{FileRunsAreRead};
ghost use Rattle.outcome_list_laws.specs.Parts.{PartsDecideEfficiency, FilePartsDecideEfficiency, PartsDecideSpheres};
ghost use Rattle.outcome_list_laws.specs.Quads.{InformationDecidesVertices, DescribedLiftsDecide};
ghost use Rattle.outcome_list_laws.specs.SurfaceKinds.{ListedInputsAreOfOneKind, LiftedInputsAreOfOneKind};
ghost use Rattle.outcome_list_laws.specs.Lists.{LiftedInputsAreListed, LiftedListsAreListed, ListedInputsAreVerified, LiftedInputsAreVerified, OctagonListsHaveStandard};

/// Theorem (Jaco and Rubinstein 2003): let `surfaces` list L for T in standard or octagon coordinates, and let a run of
/// `describe` in these coordinates be done. Then the vectors that it describes are the vertex surfaces of T. Each
/// connected surface of positive Euler characteristic is a vertex link if and only if each vector with a positive
/// `euler` has `linking yes`. The input may be
///
/// 1. read as T and L;
/// 2. a file of T with the text of `surfaces` joined to its end;
/// 3. the text of `surfaces` after T.
///
/// In standard coordinates this is 0-efficiency by the numbers of T. In octagon coordinates a 0-efficient T may fail
/// it.
pub fn described_lists_decide_efficiency()
    ensures inputs { DescribedInputsDecide }
    ensures files { DescribedFilesDecide }
    ensures written { DescribedListsDecide }
{}

/// Theorem (after Jaco and Rubinstein 2003): let T be closed and orientable, and let no edge of T be invalid. Let
/// `surfaces` list L for T in standard or octagon coordinates, and let a run of `describe` in these coordinates be
/// done. Each connected surface of Euler characteristic 2 is a vertex link if and only if each vector with a positive
/// `euler` has `linking yes`. The input may be
///
/// 1. read as T and L;
/// 2. the text of `surfaces` after T.
pub fn described_lists_decide_spheres()
    ensures inputs { InputsDecideSpheres }
    ensures written { DescribedListsDecideSpheres }
{}

/// Theorem (after Jaco and Rubinstein 2003): let T be closed and orientable. Let `surfaces` list L for T in standard or
/// octagon coordinates, and let a run of `describe` in these coordinates be done. Each connected surface of Euler
/// characteristic 2 is a vertex link if and only if each vector with a positive `euler` has `linking yes`. The input
/// may be
///
/// 1. read as T and L;
/// 2. the text of `surfaces` after T.
///
/// Nothing is asked of edges: an orientable triangulation has no invalid edge (`orientable_edges_are_valid`).
pub fn described_spheres_decide_closed_orientable()
    ensures inputs { OrientableInputsDecideSpheres }
    ensures written { OrientableListsDecideSpheres }
{}

/// Theorem: let `surfaces` list L for T in standard or octagon coordinates, and let a run of `describe` in these
/// coordinates be done. The number of vectors with `linking yes` is the number of vertex classes of T. The input may be
///
/// 1. read as T and L;
/// 2. the text of `surfaces` after T.
pub fn described_links_are_counted()
    ensures inputs { InputsCountLinks }
    ensures written { DescribedLinksAreCounted }
{}

/// Theorem: let a run of `describe` in standard or octagon coordinates, on an input that is read as T and vectors, be
/// done, and let it print `boundary no` for a vector x. Then the Euler characteristic of each component of x with
/// `orientable yes` is even. If all components of x have `orientable yes`, the `euler` of x is even.
pub fn orientable_printed_are_even()
    ensures { OrientablePrintedAreEven }
{}

/// Theorem: let T be closed and orientable. Let a run of `describe` in standard or octagon coordinates, on an input
/// that is read as T and vectors, be done. Then the Euler characteristic of each component with `sides two` is even. If
/// all components of a vector have `sides two`, the `euler` of the vector is even.
pub fn two_sided_printed_are_even()
    ensures { TwoSidedPrintedAreEven }
{}

/// Theorem (after Jaco and Rubinstein 2003): let `surfaces` list L for T in standard or octagon coordinates. Let runs
/// of `describe` in these coordinates be done, and let their vectors together be those of L, in any order and any
/// number of times. Then L has exactly the vertex surfaces of T. Each connected surface of positive Euler
/// characteristic is a vertex link if and only if each vector of the runs with a positive `euler` has `linking yes`.
/// Each input may be
///
/// 1. read as T and the vectors of the run;
/// 2. a file of T, the same for all runs, with one line `vec` for each vector of the run joined to its end.
pub fn parts_decide_efficiency()
    ensures parts { PartsDecideEfficiency }
    ensures files { FilePartsDecideEfficiency }
{}

/// Theorem (after Jaco and Rubinstein 2003): let T be closed and orientable, and let `surfaces` list L for T in
/// standard or octagon coordinates. Let runs of `describe` in these coordinates be done, their vectors together those
/// of L. Each connected surface of Euler characteristic 2 is a vertex link if and only if each vector with a positive
/// `euler` has `linking yes`; and if and only if none has `euler 1`, and each with `euler 2` has `linking yes`. Each
/// input may be
///
/// 1. read as T and the vectors of the run;
/// 2. a file of T, the same for all runs, with one line `vec` for each vector of the run joined to its end.
pub fn parts_decide_closed_orientable()
    ensures parts { OrientablePartsDecideSpheres }
    ensures files { OrientableFilePartsDecideSpheres }
{}

/// Theorem (after Jaco and Rubinstein 2003): let T be closed and orientable, let all its vertex links be spheres or
/// discs, and let `surfaces` list Q for T in quad coordinates. Let runs of `lift`, whose vectors together are those of
/// Q, be done, and runs of `describe` in standard coordinates, whose vectors together are the lifts. Each connected
/// surface of Euler characteristic 2, in standard coordinates, is a vertex link if and only if each vector that is
/// described with a positive `euler` has `linking yes`, and if and only if none has a positive `euler`.
pub fn lifts_decide_closed_orientable()
    ensures { OrientableLiftsDecideSpheres }
{}

/// Lemma: let a text after T be read as T and a list L. Let the input of each of given runs, which are done, be a file
/// of T with lines `vec` of vectors of L joined to its end. Then each input is read as T and these vectors.
pub fn file_runs_are_read()
    ensures { FileRunsAreRead }
{}

/// Theorem (Rubinstein 1995; Thompson 1994): let `surfaces` list L for T in octagon coordinates, let T be 0-efficient
/// by its numbers, and let one or more runs of `describe` in octagon coordinates be done. T has an octagonal almost
/// normal sphere, by its numbers, if and only if `euler 2` is printed for a vector with exactly one octagon. This holds
/// for
///
/// 1. runs whose inputs are read as T and vectors, which together are those of L, in any order;
/// 2. one run whose input is read as T and L;
/// 3. one run on a file of T with the text of `surfaces` joined to its end;
/// 4. one run on the text of `surfaces` after T.
pub fn described_octagons_decide_spheres()
    ensures parts { PartsDecideSpheres }
    ensures inputs { OctagonInputsDecide }
    ensures files { OctagonFilesDecide }
    ensures written { DescribedOctagonsDecide }
{}

/// Theorem:
///
/// 1. Let a run of `info` read T. It prints one link for each vertex class. If each has kind `sphere` or `disc`, all
///    vertex links of T are spheres or discs.
/// 2. Let all vertex links of T be spheres or discs, and let `surfaces` list Q for T in quad coordinates. Let runs of
///    `lift`, whose vectors together are those of Q, be done, and runs of `describe` in standard coordinates, whose
///    vectors together are the lifts. T is 0-efficient by its numbers if and only if each vector that is described with
///    a positive `euler` has `linking yes`, and if and only if none has a positive `euler`.
pub fn described_lifts_decide_efficiency()
    ensures links { InformationDecidesVertices }
    ensures lifts { DescribedLiftsDecide }
{}

/// Theorem (Burton 2009): let `surfaces` list Q for T in quad coordinates and L in standard coordinates, and let a run
/// of `lift` be done. L contains each vector that it prints. The input may be
///
/// 1. read as T and vectors of Q;
/// 2. the text of `surfaces`, in quad coordinates, after T.
pub fn lifted_lists_are_listed()
    ensures inputs { LiftedInputsAreListed }
    ensures written { LiftedListsAreListed }
{}

/// Theorem (Burton 2009): let `surfaces` list Q for T in quad coordinates and L in standard coordinates. For each
/// vector y of L exactly one of these holds: y is a vertex link; y is as below; y is the lift of its quad part, which
/// is on no extreme ray, and a positive multiple of which is a sum of two or more different vectors of Q, each with a
/// positive integer coefficient.
///
/// 1. y is the lift of a vector of Q.
/// 2. Let runs of `lift`, whose vectors together are those of Q, be done. One of them prints y.
pub fn listed_surfaces_are_lifts()
    ensures inputs { ListedInputsAreOfOneKind }
    ensures printed { LiftedInputsAreOfOneKind }
{}

/// Theorem: let the input of a run of `verify` be read as T and vectors. For each vector the run prints `solution`, or
/// names the first equation of which a part exceeds 2^127 - 1, in each of two cases:
///
/// 1. `surfaces` lists L for T in the coordinates of the run, and L contains each of the vectors;
/// 2. the coordinates are standard, and one run of `lift`, whose input is read as T and vectors, is done and prints
///    each of the vectors.
pub fn listed_inputs_are_verified()
    ensures listed { ListedInputsAreVerified }
    ensures lifts { LiftedInputsAreVerified }
{}

/// Theorem: let runs of `surfaces` in standard and in octagon coordinates be done, on inputs that are both read as T,
/// with any orders and limits. Then their texts, each after the text of T as trinorm writes it, are read as T and lists
/// of vectors. The standard list, with 0 at each octagon inserted, is the list of those vectors of the octagon list
/// that are 0 at each octagon, in the same order.
pub fn octagon_lists_have_standard()
    ensures { OctagonListsHaveStandard }
{}
