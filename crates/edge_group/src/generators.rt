//! The generators of the group.

ghost use Rattle.std.specs.Prelude.{◌≡◌, IfOk};
ghost use Rattle.presentation_definitions.specs.Groups.{IsTree};
ghost use Rattle.presentation_definitions.specs.Presentations.{AreGenerators};
ghost use Rattle.presentation_laws.specs.Classes.{generator_number};

use crate::faces::{FaceClass, first_faces, is_generator, tree_classes};
use gluing_table::Face;
use out_of_memory::NoMemory;
use skeleton::Skeleton;
use std::alloc::Global;
use std::marker::Model;

/// The generators over `skeleton`. Contracts see the skeleton and `classes`. Invariant: `classes` are the classes of
/// two faces that are not in the maximal tree, ascending, and `firsts` has the least face of each face class.
#[derive(Drop)]
pub struct Generators<'a> {
    pub skeleton: &'a Skeleton,
    pub firsts: Vec<u32>,
    pub classes: Vec<u32>,
}

impl<'a> Model for Generators<'a> {
    ghost use Rattle.edge_group.specs.Generators.{Generators as Seen, AreFound};

    ghost Value = { Seen };

    ghost view = { λ g. record { skeleton = g.skeleton.now; classes = g.classes.items } };

    ghost invariant = { λ g. AreFound g.skeleton.now g.firsts.items g.classes.items };
}

impl<'a> Generators<'a> {
    /// The generators over `skeleton` with the maximal tree `tree`.
    pub fn of(
        alloc: Global,
        skeleton: &'a Skeleton,
        tree: &[Option<Face>],
    ) -> Result<Generators<'a>, NoMemory>
        requires { IsTree skeleton.now.rows tree.now }
        ensures skeleton { IfOk result (λ g. g.skeleton ≡ skeleton.now) }
        ensures generators { IfOk result (λ g. AreGenerators skeleton.now g.classes) }
    {
        let firsts = first_faces(alloc, skeleton)?;
        let in_tree = tree_classes(alloc, skeleton, tree)?;
        let mut classes = Vec::new(alloc);
        for class in 0..skeleton.faces() {
            let of = FaceClass {
                skeleton,
                firsts: &firsts,
                class,
            };
            if is_generator(&in_tree, of) {
                classes.push(class)?;
            }
        }
        Ok(Generators {
            skeleton,
            firsts,
            classes,
        })
    }

    /// The number of face class `class` among the generators, from 1, or `None` if it is no generator.
    pub fn number_of(&self, class: u32) -> Option<u32>
        ensures { result ≡ generator_number self.now.classes class }
    {
        match self.classes.binary_search(&class) {
            Ok(place) => Some(place as u32 + 1),
            Err(_) => None,
        }
    }
}
