//! Face classes, and which of them are generators.

ghost use Rattle.std.specs.Prelude.{◌≡◌, ◌<◌, ◌↔◌, IsTrue, IfOk};
ghost use Rattle.table_definitions.specs.Places as places;
ghost use Rattle.presentation_definitions.specs.Groups.{IsTree};
ghost use Rattle.presentation_laws.specs.Classes.{AreLeastFaces, AreTreeClasses, IsGenerator};

use gluing_table::Face;
use out_of_memory::NoMemory;
use skeleton::Skeleton;
use std::alloc::{AllocError, Global};

/// The face with index `number`, 4t + f.
pub fn face_of(number: u32) -> Face
    ensures value { result ≡ places.face_of number }
    ensures a_face { result.face < 4 }
{
    Face {
        tet: number / 4,
        face: (number % 4) as u8,
    }
}

/// The index of the least face of each face class of `skeleton`.
pub fn first_faces(alloc: Global, skeleton: &Skeleton) -> Result<Vec<u32>, AllocError>
    ensures { IfOk result (λ firsts. AreLeastFaces skeleton.now firsts.items) }
{
    let mut firsts = Vec::with_capacity(alloc, skeleton.faces() as usize)?;
    for number in 0..4 * skeleton.table().len() {
        let face = face_of(number);
        if skeleton.face_class(face.tet, face.face) as usize == firsts.len() {
            firsts.push(number)?;
        }
    }
    Ok(firsts)
}

/// For each face class, whether it contains a face of the maximal tree `tree`.
pub fn tree_classes(
    alloc: Global,
    skeleton: &Skeleton,
    tree: &[Option<Face>],
) -> Result<Vec<bool>, AllocError>
    requires { IsTree skeleton.now.rows tree.now }
    ensures { IfOk result (λ marks. AreTreeClasses skeleton.now marks.items) }
{
    let mut marks = vec![in alloc; false; skeleton.faces() as usize]?;
    for tet in 0..tree.len() {
        if let Some(face) = tree[tet] {
            marks[skeleton.face_class(face.tet, face.face) as usize] = true;
        }
    }
    Ok(marks)
}

/// Face class `class` of `skeleton`. Invariant: `firsts` has the least face of each face class.
#[derive(Clone, Copy)]
pub struct FaceClass<'a> {
    pub skeleton: &'a Skeleton,
    pub firsts: &'a [u32],
    pub class: u32,
    pub ghost least: { AreLeastFaces skeleton.now firsts.now },
    pub ghost in_range: { class < skeleton.now.faces.count },
}

/// Whether the face class `of` is a generator: it has two faces and none of them is in the tree.
pub fn is_generator(in_tree: &[bool], of: FaceClass<'_>) -> bool
    requires { AreTreeClasses of.skeleton.now in_tree.now }
    ensures { IsTrue result ↔ IsGenerator of.entry.skeleton.now of.entry.class }
{
    let FaceClass {
        skeleton,
        firsts,
        class,
    } = of;
    let first = face_of(firsts[class as usize]);
    !in_tree[class as usize] && skeleton.table().glue(first).is_some()
}
