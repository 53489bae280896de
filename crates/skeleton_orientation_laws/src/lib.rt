//! Orientable tables have no invalid edges, whether they are closed or not. The functions have empty bodies: their
//! contracts are theorems.
//!
//! An edge is *invalid* if it is identified with its own reverse. *Signs* of a table are one sign for each tetrahedron,
//! equal across odd gluings and different across even ones; a table that has them is *orientable*. The *cover* of a
//! table is its orientable double cover. A *triangulation* is a gluing table as at `table_definitions`; it has at most
//! 1,000 tetrahedra.
#![tactic(auto)]

ghost use Rattle.skeleton_orientation_laws.specs.Laws.{OrientableEdgesAreValid, OrientableClassesAreValid, OrientableEdgesHaveTwoDirections, CoverEdgesAreValid};

/// Theorem: let T be an orientable triangulation, with or without boundary faces.
///
/// 1. No edge of a tetrahedron of T is identified with its own reverse.
/// 2. No edge class of T is invalid.
/// 3. T has twice as many classes of directed edges as edge classes.
pub fn orientable_edges_are_valid()
    ensures edges { OrientableEdgesAreValid }
    ensures classes { OrientableClassesAreValid }
    ensures directions { OrientableEdgesHaveTwoDirections }
{}

/// Theorem: let T be a triangulation of at most 500 tetrahedra, which may have invalid edges. No edge of its cover is
/// invalid.
pub fn cover_edges_are_valid()
    ensures { CoverEdgesAreValid }
{}
