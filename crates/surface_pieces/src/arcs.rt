//! The disc of an arc, and the arc of a disc.

ghost use Rattle.std.specs.Prelude.{◌≡◌, ◌+◌, ◌-◌, ◌<◌, length, IfSome, IfNone, if◌then◌else◌};
ghost use Rattle.surface_definitions.specs.Pieces as pieces;
ghost use Rattle.surface_pieces.specs.Arcs.{IsOnlyArcOf, HasNoArc};

use crate::columns::{FaceCorner, SurfaceArc, first_nonzero_of};
use crate::counts::NumberedDisc;
use crate::surface::{ArcInSurface, ListedDisc};
use normal_discs::{keeping, octagon_arcs, partner, quad_column, tet_of, triangle_column, type_of};

/// The column of the arcs after those of the triangles, and whether its discs have the vertex on the side of vertex 0.
#[derive(Clone, Copy)]
struct Further {
    column: u32,
    by_zero: bool,
}

/// The number of position `place` among `entry` positions, counted from the one end if `by_zero`, otherwise from the
/// other.
fn number_from_end(entry: u32, place: u32, by_zero: bool) -> u32
    ensures { result ≡ (if by_zero then place else entry - 1 - place) }
{
    if by_zero {
        place
    } else {
        entry.saturating_sub(1).saturating_sub(place)
    }
}

impl<'a> ArcInSurface<'a> {
    /// The number of triangles around the vertex of the arc.
    fn triangles(&self) -> u32
        ensures { result ≡ pieces.triangles_around self.now.surface.coords.system self.now.surface.entries.now
            self.now.arc }
    {
        let arc = self.arc;
        self.surface.entries[triangle_column(self.surface.coords, arc.tet, arc.vertex) as usize]
    }

    /// The column of the arcs after those of the triangles around the vertex of the arc.
    fn across(&self) -> Further
        ensures column { result.column ≡ pieces.further_column self.now.surface.coords.system
            self.now.surface.entries.now self.now.arc }
        ensures in_range { result.column < length self.now.surface.entries.now }
        ensures side { result.by_zero ≡ pieces.keeps_by_zero
            (pieces.type_in self.now.surface.coords.system result.column) self.now.arc.vertex }
    {
        let arc = self.arc;
        let surface = self.surface;
        let system = surface.coords.system;
        let octagons = octagon_arcs(system, arc.tet, arc.face, arc.vertex);
        let quads = quad_column(system, arc.tet, keeping(arc.vertex, arc.face));
        let column = first_nonzero_of(surface.entries, octagons.as_slice(), quads);
        let kind = type_of(surface.coords, column);
        Further {
            column,
            by_zero: arc.vertex == 0 || partner(kind, arc.vertex) == 0,
        }
    }

    /// The normal disc that has the arc on its boundary.
    pub fn piece_of(&self) -> NumberedDisc
        ensures { result ≡ pieces.disc_of self.now.surface.coords.system self.now.surface.entries.now self.now.arc }
    {
        let arc = self.arc;
        let triangles = self.triangles();
        if arc.place < triangles {
            return NumberedDisc {
                column: triangle_column(self.surface.coords, arc.tet, arc.vertex),
                number: arc.place,
            };
        }
        let further = self.across();
        let entry = self.surface.entries[further.column as usize];
        NumberedDisc {
            column: further.column,
            number: number_from_end(entry, arc.place - triangles, further.by_zero),
        }
    }

    /// Whether the disc of the arc faces the vertex of the arc with its positive side.
    pub fn looks_positive(&self) -> bool
        ensures { result ≡ pieces.looks_positive self.now.surface.coords.system self.now.surface.entries.now
            self.now.arc }
    {
        if self.arc.place < self.triangles() {
            return true;
        }
        self.across().by_zero
    }
}

impl<'a> ListedDisc<'a> {
    /// The arc of the disc around the vertex of `corner`, in its face, or `None` if the disc has none there.
    pub fn arc_of(&self, corner: FaceCorner) -> Option<SurfaceArc>
        ensures some { IfSome result (IsOnlyArcOf self.now.pieces.surface.coords.system
            self.now.pieces.surface.entries.now self.now.piece corner.face corner.vertex) }
        ensures none { IfNone result (HasNoArc self.now.pieces.surface.coords.system self.now.pieces.surface.entries.now
            self.now.piece corner.face corner.vertex) }
    {
        let surface = self.pieces.surface;
        let piece = self.piece;
        let tet = tet_of(surface.coords.system, piece.column);
        let FaceCorner { face, vertex } = corner;
        let first = SurfaceArc {
            tet,
            face,
            vertex,
            place: 0,
        };
        if piece.column == triangle_column(surface.coords, tet, vertex) {
            return Some(SurfaceArc {
                tet,
                face,
                vertex,
                place: piece.number,
            });
        }
        let around = ArcInSurface {
            surface,
            arc: first,
        };
        let further = around.across();
        if piece.column != further.column {
            return None;
        }
        let entry = surface.entries[further.column as usize];
        let place = number_from_end(entry, piece.number, further.by_zero);
        Some(SurfaceArc {
            tet,
            face,
            vertex,
            place: around.triangles() + place,
        })
    }
}
