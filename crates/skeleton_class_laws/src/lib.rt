//! Theorems on the classes of vertices, edges, directed edges, faces and signs of a table, each of which is what
//! gluings across faces join. The functions have empty bodies: their contracts are the theorems.
//!
//! Words: *classes* of n things under an equivalence relation are numbered in the order of their least members: each
//! smaller number is the class of an earlier thing. A *triangulation* is a gluing table as at `table_definitions`; it
//! has at most 1,000 tetrahedra.
#![tactic(auto)]

ghost use Rattle.skeleton_class_laws.specs.Laws.{JoinedIsSame, ClassesExist, WalksExist};

/// Things of which each tetrahedron has the same number, counted from one tetrahedron to the next.
#[derive(Clone, Copy)]
pub enum Kind {
    Vertices,
    Edges,
    /// Edges with a direction.
    Directions,
    Faces,
    /// Tetrahedra with a sign.
    Signs,
    /// Vertices with a sign.
    VertexSigns,
}

/// Lemma: let T be a triangulation. Number one of the following: its vertices, edges, directed edges or faces, its
/// tetrahedra with a sign, or its vertices with a sign. Then i and j are joined by steps across the faces that contain
/// them if and only if they are the same: vertices, edges (in either direction), directed edges or faces that the
/// gluings identify; for signs, if a path across gluings leads from i to j.
pub fn neighbours_join_the_same()
    ensures { JoinedIsSame }
{}

/// Theorem: let T be a triangulation.
///
/// 1. For each kind (vertices, edges, directed edges, faces, tetrahedra with signs, vertices with signs) T has classes,
///    numbered in the order of their least members.
/// 2. Each internal edge class has a tour: the corners around it, from its least member until the first one comes
///    again. For a boundary edge class the list of corners is empty.
pub fn classes_exist()
    ensures classes { ClassesExist }
    ensures walks { WalksExist }
{}
