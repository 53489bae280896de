//! Glues the faces of a table in order, as a signature describes.

ghost use Rattle.std.specs.Prelude.{◌≡◌, ◌*◌, drop};
ghost use Rattle.signature_definitions.specs.SignatureText as signatures;
ghost use Rattle.signature_text_laws.specs.Slots.{IsSlots};

use crate::SigFault;
use crate::read::Parts;
use crate::slots::{meet, same_face, set_slot, slot};
use gluing_table::{Face, Glue};
use perm_four::perm_at;

/// A table in the making: the sections of the signature; for each face that was read its gluing; the number of
/// tetrahedra seen; and how many types, and how many destinations and gluings, were used. Invariant: the state of the
/// definitions' reading of the sections.
#[derive(Drop)]
pub struct Joining<'a> {
    pub parts: &'a Parts,
    pub read_faces: Vec<Option<Option<Glue>>>,
    pub seen: u32,
    pub types_used: usize,
    pub seen_used: usize,
    ghost slots: { IsSlots parts.now.count (record { read_faces = read_faces.items; seen = seen; parts = record { types = drop types_used parts.now.types.items; destinations = drop seen_used parts.now.destinations.items; gluings = drop seen_used parts.now.gluings.items } }) },
}

/// The number with index `i` and its position in the text; zeros if there is none.
fn pair_at(pairs: &[(u32, usize)], i: usize) -> (u32, usize)
    ensures { result ≡ signatures.first_pair (drop i pairs.now) }
{
    if i < pairs.len() { pairs[i] } else { (0, 0) }
}

impl<'a> Joining<'a> {
    ghost use Rattle.std.specs.Prelude.{Ok};
    ghost use Rattle.signature_text_laws.specs.Faults.{Reads, Leaves};
    ghost use Rattle.signature_text_laws.specs.Slots as slots;
    ghost use Rattle.signature_codec.specs.Views.{slots_view, glued_at};

    /// The gluing of `face` to a tetrahedron already seen. Fails with `Destination` or `FaceTaken`.
    fn seen_glue(&self, face: Face) -> Result<Glue, SigFault>
        ensures { Reads (glued_at (slots_view self.now) face) result (slots.slot_seen face (slots_view self.now)) }
    {
        let (tet, tet_at) = pair_at(&self.parts.destinations, self.seen_used);
        let (index, index_at) = pair_at(&self.parts.gluings, self.seen_used);
        if tet >= self.seen {
            return Err(SigFault::Destination { at: tet_at });
        }
        let glue = Glue {
            tet,
            perm: perm_at(index),
        };
        let other = glue.other_side(face);
        if same_face(other, face) || slot(&self.read_faces, other).is_some() {
            return Err(SigFault::FaceTaken { at: index_at });
        }
        Ok(glue)
    }

    /// Glues `face`, unless it is already read. Fails with `Unreached`, `Destination` or `FaceTaken` as `join_faces`.
    fn join_face(&mut self, face: Face) -> Result<(), SigFault>
        ensures { Leaves (slots_view self.new) result (slots.slot_face face (slots_view self.old)) }
    {
        if face.tet >= self.seen {
            return Err(SigFault::Unreached);
        }
        if self.types_used >= self.parts.types.len() || slot(&self.read_faces, face).is_some() {
            return Ok(());
        }
        let kind = self.parts.types[self.types_used];
        if kind == 0 {
            set_slot(&mut self.read_faces, face, None);
            self.types_used += 1;
            return Ok(());
        }
        if kind == 1 {
            let glue = Glue {
                tet: self.seen,
                perm: perm_at(0),
            };
            meet(&mut self.read_faces, face, glue);
            self.seen += 1;
            self.types_used += 1;
            return Ok(());
        }
        let glue = self.seen_glue(face)?;
        meet(&mut self.read_faces, face, glue);
        self.seen_used += 1;
        self.types_used += 1;
        Ok(())
    }

    /// Glues all faces in order. Fails at the first face in a tetrahedron not yet seen (`Unreached`), with a
    /// destination not yet seen (`Destination`), or glued to itself or to a face already read (`FaceTaken`).
    pub fn join_faces(&mut self) -> Result<(), SigFault>
        ensures { Leaves (slots_view self.new) result
            (slots.slot_faces (4 * self.old.parts.now.count) 0 (slots_view self.old)) }
    {
        let places = 4 * self.parts.count;
        for place in 0..places {
            let face = Face {
                tet: place / 4,
                face: (place % 4) as u8,
            };
            self.join_face(face)?;
        }
        Ok(())
    }
}
