//! Skeletons of gluing tables.

ghost use Rattle.std.specs.Prelude.{◌≡◌, ◌+◌, ◌*◌, ◌<◌, ◌≤◌, ◌↔◌, length, slice_index, false, IsTrue, IfOk};
ghost use Rattle.std.specs.Option.{option_copied};
ghost use Rattle.table_definitions.specs.Classes as numbers;
ghost use Rattle.table_definitions.specs.Places as places;
ghost use Rattle.table_definitions.specs.Table.{max_tets};
ghost use Rattle.skeleton_definitions.specs.Skeleton.{IsSkeleton, IsValidClass, IsDirection, IsFirstInvalid, IsOrientation, IsAround};

use crate::boundary::is_closed;
use crate::corners::Corner;
use crate::edges::runs_against;
use crate::marks::{Marks, marks_of};
use crate::numbering::{Classes, Numbering, all_classes};
use gluing_table::Table;
use out_of_memory::NoMemory;
use std::alloc::Global;
use std::marker::Model;

/// A table with its vertex, edge and face classes, numbered by their least members, its orientation, and the tours of
/// its edges. Contracts see the rows and the three numberings. Invariant: all fields are those of `table`.
#[derive(Drop)]
pub struct Skeleton {
    table: Table,
    vertices: Numbering,
    edges: Numbering,
    faces: Numbering,
    directions: Numbering,
    vertex_degrees: Vec<u32>,
    edge_degrees: Vec<u32>,
    boundary: Vec<bool>,
    closed: bool,
    signs: Option<Vec<bool>>,
    walks: Vec<Vec<Corner>>,
}

impl Model for Skeleton {
    ghost use Rattle.std.specs.Prelude.{length};
    ghost use Rattle.std.specs.Option.{option_map};
    ghost use Rattle.skeleton_definitions.specs.Skeleton as definition;
    ghost use Rattle.skeleton.specs.Built.{IsBuilt};
    ghost use Rattle.skeleton.specs.Parts.{items_of};

    ghost Value = { definition.Skeleton };

    ghost view = { λ s. record {
      rows = s.table;
      vertices = record { classes = s.vertices.classes.items; count = length s.vertices.firsts.items };
      edges = record { classes = s.edges.classes.items; count = length s.edges.firsts.items };
      faces = record { classes = s.faces.classes.items; count = length s.faces.firsts.items };
    } };

    ghost invariant = { λ s. IsBuilt (record {
      rows = s.table;
      vertices = s.vertices.classes.items;
      vertex_firsts = s.vertices.firsts.items;
      edges = s.edges.classes.items;
      edge_firsts = s.edges.firsts.items;
      faces = s.faces.classes.items;
      face_firsts = s.faces.firsts.items;
      directions = s.directions.classes.items;
      direction_firsts = s.directions.firsts.items;
      vertex_degrees = s.vertex_degrees.items;
      edge_degrees = s.edge_degrees.items;
      boundary = s.boundary.items;
      closed = s.closed;
      signs = option_map items_of s.signs;
      walks = s.walks.items;
    }) };
}

impl Skeleton {
    /// The skeleton of `table`, which is copied.
    pub fn of(alloc: Global, table: &Table) -> Result<Skeleton, NoMemory>
        ensures rows { IfOk result (λ s. s.rows ≡ table.now) }
        ensures skeleton { IfOk result IsSkeleton }
    {
        let copy = table.copy(alloc)?;
        Skeleton::of_owned(alloc, copy)
    }

    /// As `of`, but takes ownership of `table`, so that nothing is copied.
    pub fn of_owned(alloc: Global, table: Table) -> Result<Skeleton, NoMemory>
        ensures rows { IfOk result (λ s. s.rows ≡ table) }
        ensures skeleton { IfOk result IsSkeleton }
    {
        let Classes {
            vertices,
            edges,
            faces,
            directions,
        } = all_classes(alloc, &table)?;
        let Marks {
            vertex_degrees,
            edge_degrees,
            boundary,
            signs,
            walks,
        } = marks_of(alloc, &table, &vertices, &edges)?;
        let closed = is_closed(&table);
        Ok(Skeleton {
            table,
            vertices,
            edges,
            faces,
            directions,
            vertex_degrees,
            edge_degrees,
            boundary,
            closed,
            signs,
            walks,
        })
    }

    /// The table.
    pub fn table(&self) -> &Table
        ensures rows { result.now ≡ self.now.rows }
        ensures skeleton { IsSkeleton self.now }
    {
        &self.table
    }

    /// The number of vertex classes.
    pub fn vertices(&self) -> u32
        ensures count { result ≡ self.now.vertices.count }
        ensures skeleton { IsSkeleton self.now }
    {
        self.vertices.firsts.len() as u32
    }

    /// The number of edge classes.
    pub fn edges(&self) -> u32
        ensures count { result ≡ self.now.edges.count }
        ensures skeleton { IsSkeleton self.now }
    {
        self.edges.firsts.len() as u32
    }

    /// The number of face classes.
    pub fn faces(&self) -> u32
        ensures count { result ≡ self.now.faces.count }
        ensures skeleton { IsSkeleton self.now }
    {
        self.faces.firsts.len() as u32
    }

    /// The class of vertex `vertex` of tetrahedron `tet`.
    pub fn vertex_class(&self, tet: u32, vertex: u8) -> u32
        requires in_range { tet < length self.now.rows }
        requires a_vertex { vertex < 4 }
        ensures class { result ≡ slice_index self.now.vertices.classes (4 * tet + vertex) }
        ensures below { result < self.now.vertices.count }
    {
        self.vertices.classes[4 * tet as usize + vertex as usize]
    }

    /// The class of face `face` of tetrahedron `tet`.
    pub fn face_class(&self, tet: u32, face: u8) -> u32
        requires in_range { tet < length self.now.rows }
        requires a_face { face < 4 }
        ensures class { result ≡ slice_index self.now.faces.classes (4 * tet + face) }
        ensures below { result < self.now.faces.count }
    {
        self.faces.classes[4 * tet as usize + face as usize]
    }

    /// The class of edge `edge` of tetrahedron `tet`, and whether the edge runs against the least member of the class:
    /// from its smaller end it is identified with that member from the greater end. False in an invalid class.
    pub fn edge_class(&self, tet: u32, edge: u8) -> (u32, bool)
        requires in_range { tet < length self.now.rows }
        requires an_edge { edge < 6 }
        ensures class { result.0 ≡ slice_index self.now.edges.classes (6 * tet + edge) }
        ensures below { result.0 < self.now.edges.count }
        ensures direction { IsDirection self.now (6 * tet + edge) result.1 }
    {
        let class = self.class_of_edge(tet, edge);
        let first = self.first_edge(class);
        if self.joins_reverse(first, first) {
            return (class, false);
        }
        let against = self.joins_reverse(first, 6 * tet + edge as u32);
        (class, against)
    }

    fn class_of_edge(&self, tet: u32, edge: u8) -> u32
        requires in_range { tet < length self.now.rows }
        requires an_edge { edge < 6 }
        ensures class { result ≡ slice_index self.now.edges.classes (6 * tet + edge) }
        ensures below { result < self.now.edges.count }
        ensures limited { length self.now.rows ≤ max_tets }
    {
        self.edges.classes[6 * tet as usize + edge as usize]
    }

    /// The least member of edge class `class`, with index 6t + e.
    pub fn first_edge(&self, class: u32) -> u32
        requires { class < self.now.edges.count }
        ensures value { result ≡ numbers.least self.now.edges.classes class }
        ensures in_range { result < 6 * length self.now.rows }
    {
        self.edges.firsts[class as usize]
    }

    /// Whether edge `one`, from its smaller end, is identified with edge `other` from its greater end.
    fn joins_reverse(&self, one: u32, other: u32) -> bool
        requires one_in_range { one < 6 * length self.now.rows }
        requires other_in_range { other < 6 * length self.now.rows }
        ensures { IsTrue result ↔ places.RunsAgainst self.now.rows one other }
    {
        runs_against(&self.directions.classes, one, other)
    }

    /// The number of members of vertex class `class`.
    pub fn vertex_degree(&self, class: u32) -> u32
        requires { class < self.now.vertices.count }
        ensures { result ≡ numbers.degree self.now.vertices.classes class }
    {
        self.vertex_degrees[class as usize]
    }

    /// The number of members of edge class `class`.
    pub fn edge_degree(&self, class: u32) -> u32
        requires { class < self.now.edges.count }
        ensures { result ≡ numbers.degree self.now.edges.classes class }
    {
        self.edge_degrees[class as usize]
    }

    /// Whether a member of edge class `class` lies in a boundary face.
    pub fn is_boundary_edge(&self, class: u32) -> bool
        requires { class < self.now.edges.count }
        ensures { result ≡ places.is_boundary_edge self.now.rows self.now.edges.classes class }
    {
        self.boundary[class as usize]
    }

    /// Whether no edge of class `class` is identified with its own reverse.
    pub fn is_valid_edge(&self, class: u32) -> bool
        requires { class < self.now.edges.count }
        ensures valid { IsTrue result ↔ IsValidClass self.now class }
        ensures invalid { result ≡ false
            → places.IsInvalidEdge self.now.rows (numbers.least self.now.edges.classes class) }
    {
        let first = self.first_edge(class);
        !self.joins_reverse(first, first)
    }

    /// The least invalid edge class, or `None` if all are valid.
    pub fn first_invalid(&self) -> Option<u32>
        ensures { IsFirstInvalid self.now result }
    {
        for class in 0..self.edges() {
            if !self.is_valid_edge(class) {
                return Some(class);
            }
        }
        None
    }

    /// Whether the table has no boundary face.
    pub fn is_closed(&self) -> bool
        ensures { result ≡ places.is_closed self.now.rows }
    {
        self.closed
    }

    /// An orientation: a sign for each tetrahedron, equal across odd gluings and different across even ones, true at
    /// the least tetrahedron of each component. `None` if and only if the table is non-orientable.
    pub fn orientation(&self) -> Option<&[bool]>
        ensures { IsOrientation self.now.rows (option_copied result) }
    {
        match &self.signs {
            Some(signs) => Some(signs.as_slice()),
            None => None,
        }
    }

    /// The corners around internal edge class `class`, in order, from the first corner of its least member; no corner
    /// if the class is on the boundary.
    pub fn around(&self, class: u32) -> &[Corner]
        requires { class < self.now.edges.count }
        ensures { IsAround self.now class result.now }
    {
        &self.walks[class as usize]
    }
}
