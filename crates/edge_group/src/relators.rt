//! Reads relators from the corners around internal edges.

ghost use Rattle.std.specs.Prelude.{◌≡◌, ◌<◌, ◌^◌, length, map, filter_map, All, IfOk};
ghost use Rattle.std.specs.List.{AllZip};
ghost use Rattle.skeleton_definitions.specs.Corners as definition;
ghost use Rattle.skeleton_definitions.specs.Corners.{left_through};
ghost use Rattle.table_definitions.specs.Table.{face_number};
ghost use Rattle.presentation_definitions.specs.Presentations.{IsRelator, letter_of};
ghost use Rattle.presentation_laws.specs.Classes.{LeavesInRange};
ghost use Rattle.edge_group.specs.Fields.{letters_of};

use crate::generators::Generators;
use gluing_table::Face;
use out_of_memory::NoMemory;
use presentation_definitions::Letter;
use skeleton::{Corner, Skeleton};
use std::alloc::{AllocError, Global};

/// The internal edge classes of `skeleton`, ascending.
pub fn internal_edge_classes(alloc: Global, skeleton: &Skeleton) -> Result<Vec<u32>, AllocError>
    ensures edges { IfOk result (λ edges.
        edges.items ≡ definition.internal_edges skeleton.now.rows skeleton.now.edges.classes skeleton.now.edges.count) }
    ensures in_range { IfOk result (λ edges. All (λ c. c < skeleton.now.edges.count) edges.items) }
    ensures limited { IfOk result (λ edges. length edges.items < 2 ^ 32) }
{
    let mut edges = Vec::new(alloc);
    for class in 0..skeleton.edges() {
        if !skeleton.is_boundary_edge(class) {
            edges.push(class)?;
        }
    }
    Ok(edges)
}

impl Generators<'_> {
    /// The letter of `face`: the generator if it is the first face of its class, its inverse if it is the second,
    /// `None` if the class is no generator.
    fn letter(&self, face: Face) -> Option<Letter>
        requires { face.tet < length self.now.skeleton.rows }
        ensures { result ≡ letter_of self.now.skeleton self.now.classes (face_number face) }
    {
        let class = self.skeleton.face_class(face.tet, face.face);
        let first = self.firsts[class as usize];
        let Some(generator) = self.number_of(class) else {
            return None;
        };
        let inverse = first != 4 * face.tet + face.face as u32;
        Some(Letter { generator, inverse })
    }

    /// The letters of the faces through which a tour of `corners` leaves them.
    fn relator(&self, alloc: Global, corners: &[Corner]) -> Result<Vec<Letter>, AllocError>
        requires { All (LeavesInRange self.now.skeleton.rows) corners.now }
        ensures { IfOk result (λ letters.
            letters.items ≡ filter_map (λ k.
            letter_of self.now.skeleton self.now.classes (face_number (left_through k))) corners.now) }
    {
        let mut letters = Vec::new(alloc);
        for corner in corners {
            let left = Face {
                tet: corner.tet,
                face: corner.c,
            };
            if let Some(letter) = self.letter(left) {
                letters.push(letter)?;
            }
        }
        Ok(letters)
    }

    /// The relator around each of the edge classes `edges`.
    pub fn relators(&self, alloc: Global, edges: &[u32]) -> Result<Vec<Vec<Letter>>, NoMemory>
        requires { All (λ c. c < self.now.skeleton.edges.count) edges.now }
        ensures { IfOk result (λ relators.
            AllZip (IsRelator self.now.skeleton self.now.classes) edges.now (map letters_of relators.items)) }
    {
        let skeleton = self.skeleton;
        let mut relators = Vec::with_capacity(alloc, edges.len())?;
        for class in edges {
            relators.push(self.relator(alloc, skeleton.around(*class))?)?;
        }
        Ok(relators)
    }
}
