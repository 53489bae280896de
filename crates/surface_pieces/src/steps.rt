//! What is across an arc of a disc.

ghost use Rattle.std.specs.Prelude.{◌≡◌, ◌<◌, ◌%◌, IfSome, IfNone};
ghost use Rattle.surface_definitions.specs.Pieces as pieces;
ghost use Rattle.surface_pieces.specs.Meetings.{IsMeetingAt, HasNoMeeting};
ghost use Rattle.surface_pieces.specs.Joinings.{IsJoinedAt};
ghost use Rattle.surface_pieces.specs.Slots.{vertex_of_slot};

use crate::columns::{DiscSlot, FaceCorner, SurfaceArc, corner_at};
use crate::joined::Adjacent;
use crate::surface::{ArcInSurface, ListedDisc};
use gluing_table::{Face, Glue};
use normal_discs::place_of;

/// The arc to which `glue` maps `arc`.
fn across(glue: Glue, arc: SurfaceArc) -> SurfaceArc
    ensures { result ≡ pieces.arc_across glue arc }
{
    SurfaceArc {
        tet: glue.tet,
        face: glue.perm.image(arc.face),
        vertex: glue.perm.image(arc.vertex),
        place: arc.place,
    }
}

/// An arc of a disc, the arc to which it is glued, and whether the gluing is odd.
#[derive(Clone, Copy)]
pub struct Meeting {
    pub arc: SurfaceArc,
    pub other: SurfaceArc,
    pub odd: bool,
}

impl<'a> ListedDisc<'a> {
    /// The arc of the disc around the vertex of `corner`, if it has one there and the face is glued.
    fn meeting_at(&self, corner: FaceCorner) -> Option<Meeting>
        ensures some { IfSome result (λ m.
            IsMeetingAt self.now.pieces.surface.table.now self.now.pieces.surface.coords.system
            self.now.pieces.surface.entries.now self.now.piece corner.face corner.vertex m.arc m.other m.odd) }
        ensures none { IfNone result (HasNoMeeting self.now.pieces.surface.table.now
            self.now.pieces.surface.coords.system self.now.pieces.surface.entries.now self.now.piece corner.face
            corner.vertex) }
    {
        let arc = self.arc_of(corner)?;
        let glue = self.pieces.surface.table.glue(Face {
            tet: arc.tet,
            face: corner.face,
        })?;
        Some(Meeting {
            arc,
            other: across(glue, arc),
            odd: glue.perm.is_odd(),
        })
    }

    /// The neighbour of the disc across its arc of `slot`, or `None` if it has no such arc or the arc is in a boundary
    /// face.
    pub fn joined_at(&self, slot: u32) -> Option<Adjacent>
        requires { slot < 8 }
        ensures some { IfSome result (IsJoinedAt self.now.pieces.surface.table.now self.now.pieces.surface.coords.system
            self.now.pieces.surface.entries.now self.now.piece (slot % 4)
            (vertex_of_slot self.now.pieces.surface.coords.system self.now.piece slot)) }
        ensures none { IfNone result (HasNoMeeting self.now.pieces.surface.table.now
            self.now.pieces.surface.coords.system self.now.pieces.surface.entries.now self.now.piece (slot % 4)
            (vertex_of_slot self.now.pieces.surface.coords.system self.now.piece slot)) }
    {
        let piece = self.piece;
        let pieces = self.pieces;
        let surface = pieces.surface;
        let place = place_of(surface.coords.system, piece.column);
        let corner = corner_at(DiscSlot { place, slot })?;
        let meeting = self.meeting_at(corner)?;
        let near = ArcInSurface {
            surface,
            arc: meeting.arc,
        };
        let far = ArcInSurface {
            surface,
            arc: meeting.other,
        };
        let other = ListedDisc {
            pieces,
            piece: far.piece_of(),
        };
        let from = near.looks_positive();
        let to = far.looks_positive();
        let keeps_sides = from == to;
        Some(Adjacent {
            piece: other.number_of(),
            keeps_sides,
            keeps_orientation: meeting.odd == keeps_sides,
        })
    }
}
