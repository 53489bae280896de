//! Arcs around a vertex of a face, with the slots of a disc for them, and the column of those after the triangles.

ghost use Rattle.std.specs.Prelude.{◌≡◌, ◌≢◌, ◌<◌, All, IfSome, IfNone, ◌%◌, length};
ghost use Rattle.surface_laws.specs.PieceLaws.{first_nonzero};
ghost use Rattle.surface_pieces.specs.Slots as slots;

use normal_discs::partner;
use std::marker::Model;

/// A vertex of a face. Invariant: `vertex` is not the one opposite `face`.
#[derive(Clone, Copy)]
pub struct FaceCorner {
    pub face: u8,
    pub vertex: u8,
    pub ghost a_face: { face < 4 },
    pub ghost a_vertex: { vertex < 4 },
    pub ghost off: { vertex ≢ face },
}

/// A slot of a disc, which is given by the index of its column among those of its tetrahedron. Invariant: `place` is
/// less than 10, and `slot` less than 8.
#[derive(Clone, Copy)]
pub struct DiscSlot {
    pub place: u32,
    pub slot: u32,
    pub ghost a_place: { place < 10 },
    pub ghost a_slot: { slot < 8 },
}

/// The vertex around which a disc has arc number `slot / 4` in face `slot % 4`, or the face itself if the disc has no
/// such arc. A triangle and a quad have at most one arc in a face, and an octagon has two.
fn slot_vertex(of: DiscSlot) -> u8
    ensures value { result ≡ slots.slot_vertex of.place of.slot }
    ensures in_range { result < 4 }
{
    let DiscSlot { place, slot } = of;
    let face = (slot % 4) as u8;
    if place >= 7 {
        return partner(((place - 6 + slot / 4) % 3) as u8, face);
    }
    if slot >= 4 {
        return face;
    }
    if place < 4 {
        return place as u8;
    }
    partner((place - 4) as u8, face)
}

/// The face and the vertex of the arc that a disc has for a slot, or `None` if it has no such arc.
pub fn corner_at(of: DiscSlot) -> Option<FaceCorner>
    ensures some { IfSome result (λ corner.
        corner.face ≡ of.slot % 4 × corner.vertex ≡ slots.slot_vertex of.place of.slot) }
    ensures none { IfNone result (slots.slot_vertex of.place of.slot ≡ of.slot % 4) }
{
    let face = (of.slot % 4) as u8;
    let vertex = slot_vertex(of);
    if vertex == face {
        return None;
    }
    Some(FaceCorner { face, vertex })
}

/// A normal arc: the one at position `place` around `vertex` in `face` of tetrahedron `tet`, counted from the vertex
/// on.
#[derive(Clone, Copy)]
pub struct SurfaceArc {
    pub tet: u32,
    pub face: u8,
    pub vertex: u8,
    pub place: u32,
}

impl Model for SurfaceArc {
    ghost use Rattle.std.specs.Prelude.{◌≢◌, ◌<◌};
    ghost use Rattle.surface_definitions.specs.Pieces as pieces;

    ghost Value = { pieces.Arc };

    ghost view = { λ a. record { tet = a.tet; face = a.face; vertex = a.vertex; place = a.place } };

    ghost inverse = { λ a. record { tet = a.tet; face = a.face; vertex = a.vertex; place = a.place } };

    ghost invariant = { λ a. (a.face < 4) × (a.vertex < 4) × (a.vertex ≢ a.face) };
}

/// The first of `columns` at which `x` is not 0, or `other` if there is none.
#[tactic(auto, using(crate::proofs::FirstNonzero::nonzero_here, crate::proofs::FirstNonzero::zero_here))]
pub fn first_nonzero_of(x: &[u32], columns: &[u32], other: u32) -> u32
    requires { All (λ c. c < length x.now) columns.now }
    ensures { result ≡ first_nonzero x.now columns.now other }
{
    for column in columns {
        if x[*column as usize] > 0 {
            return *column;
        }
    }
    other
}
