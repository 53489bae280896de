//! Theorems on the tree of faces, the generators and the relators of a table. The functions have empty bodies: their
//! contracts are the theorems.
//!
//! Words: the *tree face* of a tetrahedron other than 0 is the least face that is glued to it from a tetrahedron nearer
//! to tetrahedron 0. The *generators* of a presentation are the classes of glued faces without a tree face; its
//! *relators* are read along the tours around the internal edges. A generator *reverses orientation* if its loop
//! through tree faces has an odd number of even gluings. A *triangulation* is a gluing table as at `table_definitions`;
//! it has at most 1,000 tetrahedra.
#![tactic(auto)]

ghost use Rattle.presentation_laws.specs.Laws.{TreeFacesLead, OneTreePath, TreeFacesAreCounted, RelatorsTurnEvenly, NoneTurnsExactly, OnePresentation, PresentationExists};

/// Theorem: in 1 and 3, let T be a connected triangulation.
///
/// 1. For each tetrahedron of T, a path of tree faces from tetrahedron 0 reaches it.
/// 2. Two paths of tree faces from tetrahedron 0 to one tetrahedron are equal.
/// 3. If T has n >= 1 tetrahedra, it has n - 1 tree faces: one for each tetrahedron but 0, all different.
pub fn tree_faces_lead()
    ensures lead { TreeFacesLead }
    ensures one { OneTreePath }
    ensures counted { TreeFacesAreCounted }
{}

/// Theorem: let T be a connected triangulation with a presentation. In each relator, the number of letters whose
/// generators reverse orientation is even.
pub fn relators_turn_evenly()
    ensures { RelatorsTurnEvenly }
{}

/// Theorem: let T be a connected triangulation with a presentation. No generator reverses orientation if and only if T
/// is orientable.
pub fn turning_determines_orientation()
    ensures { NoneTurnsExactly }
{}

/// Theorem: let T be a list of rows with its classes of vertices, edges and faces. There is at most one presentation of
/// T.
pub fn presentations_are_unique()
    ensures { OnePresentation }
{}

/// Theorem: each connected triangulation has a presentation.
pub fn presentations_exist()
    ensures { PresentationExists }
{}
