//! Existence of the skeleton, orientation signs, vertex links and equations of a table, uniqueness of all but the
//! signs, and counts of sides, directions and faces by classes.
//!
//! A *skeleton* of a table numbers its classes of vertices, edges and faces. An edge is *invalid* if it is identified
//! with its own reverse. A table is *closed* if no face is a boundary face.
#![tactic(auto)]

ghost use Rattle.skeleton_laws.specs.Laws.{SomeSkeleton, OneSkeleton, InvalidOrNot, SomeFirstInvalid, SomeOrientation, SomeLinks, OneListOfLinks, SomeEquations, OneSystem};
ghost use Rattle.skeleton_laws.specs.Counts.{LinkEdgesAreSides, EdgesHaveTwoDirections, FacesHaveTwoSides};

/// Theorem: each table has exactly one skeleton.
pub fn skeletons_exist()
    ensures some { SomeSkeleton }
    ensures one { OneSkeleton }
{}

/// Theorem: let T be a table.
///
/// 1. Each edge of a tetrahedron of T is identified with its own reverse or is not; this is proved without excluded
///    middle.
/// 2. T has a first invalid edge class, or no edge class of T is invalid.
pub fn invalid_edges_are_decided()
    ensures decided { InvalidOrNot }
    ensures first { SomeFirstInvalid }
{}

/// Theorem: each table T has signs of its tetrahedra that orient it, positive at the first tetrahedron of each
/// component, or T is not orientable.
pub fn orientations_exist()
    ensures { SomeOrientation }
{}

/// Theorem: each vertex class of a table has exactly one link.
pub fn links_exist()
    ensures some { SomeLinks }
    ensures one { OneListOfLinks }
{}

/// Theorem: each table has exactly one system of equations in each of the coordinates: the matching equations in
/// standard and octagon coordinates, and the quad equations in quad coordinates.
pub fn equations_exist()
    ensures some { SomeEquations }
    ensures one { OneSystem }
{}

/// Theorem: let T be a table with n tetrahedra.
///
/// 1. Let the link of a vertex class have k triangles. Twice the number of its edges is 3k plus the number of sides of
///    its triangles that lie in boundary faces.
/// 2. If no edge is invalid, there are twice as many classes of directed edges as edge classes.
/// 3. If T is closed, 4n is twice the number of face classes.
pub fn classes_are_counted()
    ensures sides { LinkEdgesAreSides }
    ensures directions { EdgesHaveTwoDirections }
    ensures faces { FacesHaveTwoSides }
{}
