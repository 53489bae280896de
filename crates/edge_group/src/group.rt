//! Presentations of the group of a table.

ghost use Rattle.std.specs.Prelude.{◌≡◌, ◌-◌, ◌<◌, ◌≤◌, ◌↔◌, length, slice_index, false, [], None, IsNone, IfOk, IfErr, OnOk};
ghost use Rattle.std.specs.List.{slice_index_or};
ghost use Rattle.out_of_memory.specs.Failures.{IfFault};
ghost use Rattle.table_definitions.specs.Places.{IsConnected};
ghost use Rattle.presentation_definitions.specs.Groups.{IsGroup, HasGroup, IsGroupFault};

use crate::generators::Generators;
use crate::relators::internal_edge_classes;
use crate::tree::shortest_tree;
use gluing_table::Face;
use out_of_memory::{Failure, NoMemory};
use presentation_definitions::{GroupFault, Letter};
use skeleton::Skeleton;
use std::alloc::Global;
use std::marker::Model;

/// A presentation of the group of a table, with the maximal tree by which it is made. Contracts see both. Invariant:
/// one sign for each generator, one relator for each edge, and a tree face for each tetrahedron except 0.
#[derive(Drop)]
pub struct Group {
    tree: Vec<Option<Face>>,
    generators: Vec<u32>,
    turning: Vec<bool>,
    edges: Vec<u32>,
    relators: Vec<Vec<Letter>>,
}

impl Model for Group {
    ghost use Rattle.std.specs.Prelude.{map};
    ghost use Rattle.presentation_definitions.specs.Groups as definition;
    ghost use Rattle.edge_group.specs.Fields.{letters_of};
    ghost use Rattle.edge_group.specs.Fields.{IsKept};

    ghost Value = { definition.Group };

    ghost view = { λ g. record {
      tree = g.tree.items;
      presentation = record {
        generators = g.generators.items;
        turning = g.turning.items;
        edges = g.edges.items;
        relators = map letters_of g.relators.items;
      };
    } };

    ghost invariant = { λ g. IsKept g.tree.items g.generators.items g.turning.items g.edges.items (map letters_of g.relators.items) };
}

/// The maximal tree and the presentation of the table of `skeleton`, which is connected.
fn presentation_of(alloc: Global, skeleton: &Skeleton) -> Result<Group, NoMemory>
    requires { IsConnected skeleton.now.rows }
    ensures { IfOk result (IsGroup skeleton.now) }
{
    let tree = shortest_tree(alloc, skeleton.table())?;
    let generators = Generators::of(alloc, skeleton, &tree.faces)?;
    let turning = generators.turning(alloc, &tree)?;
    let edges = internal_edge_classes(alloc, skeleton)?;
    let relators = generators.relators(alloc, &edges)?;
    Ok(Group {
        tree: tree.faces,
        generators: generators.classes,
        turning,
        edges,
        relators,
    })
}

impl Group {
    /// The presentation of the group of the table of `skeleton` by its dual 2-complex: the generators are the face
    /// classes off a maximal tree of shortest paths from tetrahedron 0, and there is one relator around each internal
    /// edge class. Fails with `NotConnected`, which names the least tetrahedron not reached from tetrahedron 0; then
    /// with `InvalidEdge`, which names the least invalid edge class.
    pub fn of(alloc: Global, skeleton: &Skeleton) -> Result<Group, Failure<GroupFault>>
        ensures group { IfOk result (IsGroup skeleton.now) }
        ensures size { IfOk result (λ g. length g.tree ≡ length skeleton.now.rows) }
        ensures has_group { OnOk result (HasGroup skeleton.now) }
        ensures fault { IfErr result (λ e. IfFault e (IsGroupFault skeleton.now)) }
    {
        if let Some(tet) = skeleton.table().unreached(alloc)? {
            return Err(Failure::Fault(GroupFault::NotConnected { tet }));
        }
        if let Some(class) = skeleton.first_invalid() {
            return Err(Failure::Fault(GroupFault::InvalidEdge { class }));
        }
        let group = presentation_of(alloc, skeleton)?;
        Ok(group)
    }

    /// The number of generators.
    pub fn generators(&self) -> u32
        ensures { result ≡ length self.now.presentation.generators }
    {
        self.generators.len() as u32
    }

    /// The face class of generator `generator`, counted from 1.
    pub fn face_of(&self, generator: u32) -> u32
        requires from_one { 1 ≤ generator }
        requires in_range { generator ≤ length self.now.presentation.generators }
        ensures { result ≡ slice_index self.now.presentation.generators (generator - 1) }
    {
        self.generators[generator as usize - 1]
    }

    /// Whether generator `generator`, counted from 1, reverses orientation: the loop through the tree to its least
    /// face, across it, and back through the tree has an odd number of even gluings.
    pub fn turns(&self, generator: u32) -> bool
        requires from_one { 1 ≤ generator }
        requires in_range { generator ≤ length self.now.presentation.generators }
        ensures { result ≡ slice_index_or self.now.presentation.turning (generator - 1) false }
    {
        self.turning[generator as usize - 1]
    }

    /// The number of relators.
    pub fn relators(&self) -> u32
        ensures value { result ≡ length self.now.presentation.relators }
        ensures edges { result ≡ length self.now.presentation.edges }
    {
        self.relators.len() as u32
    }

    /// The internal edge class of relator `relator`, counted from 0.
    pub fn edge_of(&self, relator: u32) -> u32
        requires { relator < length self.now.presentation.relators }
        ensures { result ≡ slice_index self.now.presentation.edges relator }
    {
        self.edges[relator as usize]
    }

    /// The letters of relator `relator`, counted from 0, in the order around its edge.
    pub fn relator(&self, relator: u32) -> &[Letter]
        requires { relator < length self.now.presentation.relators }
        ensures { result.now ≡ slice_index_or self.now.presentation.relators relator [] }
    {
        &self.relators[relator as usize]
    }

    /// The tree face of tetrahedron `tet`: the least face glued to it of a tetrahedron closer to tetrahedron 0. `None`
    /// if and only if `tet` is 0.
    pub fn tree_face(&self, tet: u32) -> Option<Face>
        requires { tet < length self.now.tree }
        ensures value { result ≡ slice_index_or self.now.tree tet None }
        ensures none { IsNone result ↔ (tet ≡ 0) }
    {
        self.tree[tet as usize]
    }
}
