//! The vertex across a face, and the quads on both sides.

ghost use Rattle.std.specs.Prelude.{◌≡◌, ◌≢◌, ◌*◌, ◌/◌, ◌%◌, ◌<◌, length, slice_index, IfNone, IfSome, None};
ghost use Rattle.surface_definitions.specs.declared.Coords.TheVariants.{Quad as QuadCoords};
ghost use Rattle.surface_definitions.specs.Coordinates as coordinates;
ghost use Rattle.table_definitions.specs.Table as gluings;
ghost use Rattle.skeleton_definitions.specs.Skeleton.{IsSkeleton};
ghost use Rattle.quad_lift.specs.Crossings.{IsCrossing};

use crate::quad_vector::QuadVector;
use gluing_table::Face;
use normal_discs::{keeping, quad_column};
use surface_definitions::Coords;

/// The vertex across a face, with index 4t + v, and the quads around both vertices there: the height across is the
/// height here plus `up` less `down`.
#[derive(Clone, Copy)]
pub struct Crossing {
    pub other: u32,
    pub up: u128,
    pub down: u128,
}

/// The vertex with index `vertex`, 4t + v, and the face with number `face` of its tetrahedron.
#[derive(Clone, Copy)]
pub struct VertexWithFace {
    pub vertex: u32,
    pub face: u8,
    pub ghost a_face: { face < 4 },
}

/// The type of the arcs in `face` around `vertex`, a vertex of this face by its number.
#[derive(Clone, Copy)]
struct ArcType {
    face: Face,
    vertex: u8,
    ghost a_vertex: { vertex < 4 },
    ghost off: { vertex ≢ face.face },
}

impl QuadVector<'_> {
    /// The number of quads with an arc of type `arc`.
    fn quads_along(&self, arc: ArcType) -> u128
        requires { arc.face.tet < length self.now.skeleton.now.rows }
        ensures { result ≡ slice_index self.now.entries.now
            (coordinates.quad_column QuadCoords arc.face.tet (coordinates.keeping arc.vertex arc.face.face)) }
    {
        let kind = keeping(arc.vertex, arc.face.face);
        self.entries[quad_column(Coords::Quad, arc.face.tet, kind) as usize]
    }

    /// The vertex to which the vertex `at` is glued across its face, with the quads on both sides; `None` if the face
    /// is opposite the vertex or a boundary face.
    pub fn across(&self, at: VertexWithFace) -> Option<Crossing>
        requires { at.vertex < 4 * length self.now.skeleton.now.rows }
        ensures some { IfSome result (λ c.
            IsCrossing self.now.skeleton.now self.now.entries.now at.vertex at.face c.other c.up c.down) }
        ensures none { IfNone result (at.vertex % 4 ≢ at.face
            → gluings.glue self.now.skeleton.now.rows (record { tet = at.vertex / 4; face = at.face }) ≡ None) }
        ensures skeleton { IsSkeleton self.now.skeleton.now }
    {
        let table = self.skeleton.table();
        let v = (at.vertex % 4) as u8;
        if v == at.face {
            return None;
        }
        let here = Face {
            tet: at.vertex / 4,
            face: at.face,
        };
        let glue = table.glue(here)?;
        let w = glue.perm.image(v);
        let near = ArcType {
            face: here,
            vertex: v,
        };
        let far = ArcType {
            face: glue.other_side(here),
            vertex: w,
        };
        Some(Crossing {
            other: 4 * glue.tet + w as u32,
            up: self.quads_along(near),
            down: self.quads_along(far),
        })
    }
}
