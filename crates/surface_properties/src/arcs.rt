//! Counts the normal arcs in which a surface meets the faces.

ghost use Rattle.std.specs.Prelude.{◌≡◌, ◌≢◌, ◌<◌, length, slice_index};
ghost use Rattle.table_definitions.specs.Permutation.{others};
ghost use Rattle.table_definitions.specs.Table as gluings;
ghost use Rattle.skeleton_definitions.specs.Links.{is_first_side as is_first};
ghost use Rattle.surface_definitions.specs.Pieces as pieces;
ghost use Rattle.surface_definitions.specs.Characteristic as characteristic;
ghost use Rattle.surface_properties.specs.Capped.{capped};
ghost use Rattle.surface_properties.specs.Counted.{counted as counted_at};

use crate::sums::{add, sum_at};
use crate::vectors::{DiscVector, VectorFace};
use gluing_table::Face;
use normal_discs::arc_columns;

// The vertices of each face, by face.
const CORNERS: [[u8; 3]; 4] = [[1, 2, 3], [0, 2, 3], [0, 1, 3], [0, 1, 2]];

/// Vertex `number` (0 to 2) of `face`, as a vertex of its tetrahedron.
fn corner(face: Face, number: usize) -> u8
    requires { number < 3 }
    ensures value { result ≡ slice_index (others face.face) number }
    ensures in_range { result < 4 }
    ensures off { result ≢ face.face }
{
    CORNERS[face.face as usize][number]
}

impl<'a> VectorFace<'a> {
    /// Whether the face is a boundary face, or the first of two faces glued to each other: true once for each face
    /// class.
    fn is_first_side(&self) -> bool
        ensures { result ≡ is_first self.now.face (gluings.glue self.now.vector.table.now self.now.face) }
    {
        let face = self.face;
        match self.vector.table.glue(face) {
            None => true,
            Some(glue) => face.is_before(glue.other_side(face)),
        }
    }

    /// The number of arcs in the face around its vertex `number` (0 to 2).
    fn arcs_around_vertex(&self, number: usize) -> u128
        requires { number < 3 }
        ensures a_face { self.now.face.face < 4 }
        ensures value { result ≡ capped
            (pieces.arcs_around self.now.vector.coords.system self.now.vector.entries.now self.now.face.tet
            self.now.face.face (slice_index (others self.now.face.face) number)) }
    {
        let vector = self.vector;
        let face = self.face;
        let columns = arc_columns(vector.coords, face.tet, face.face, corner(face, number));
        sum_at(vector.entries, columns.as_slice())
    }

    /// The number of arcs in the face.
    pub fn arcs_in(&self) -> u128
        ensures { result ≡ capped (characteristic.arcs_in self.now.vector.coords.system self.now.vector.entries.now
            self.now.face) }
    {
        let one = self.arcs_around_vertex(0);
        let two = add(one, self.arcs_around_vertex(1));
        add(two, self.arcs_around_vertex(2))
    }
}

impl<'a> DiscVector<'a> {
    /// The number of arcs in `face` if it is a boundary face or the first of two faces glued to each other, and 0
    /// otherwise.
    fn arcs_if_first(&self, face: Face) -> u128
        requires { face.tet < length self.now.table.now }
        ensures { result ≡ capped (counted_at self.now.table.now self.now.coords.system self.now.entries.now face) }
    {
        let vector = *self;
        let at = VectorFace { vector, face };
        if at.is_first_side() { at.arcs_in() } else { 0 }
    }

    /// The number of arcs, counted once for each face class.
    pub fn arcs(&self) -> u128
        ensures { result ≡ capped (characteristic.arcs self.now.table.now self.now.coords.system self.now.entries.now) }
    {
        let mut total = 0;
        for tet in 0..self.table.len() {
            let one = self.arcs_if_first(Face { tet, face: 0 });
            let two = add(one, self.arcs_if_first(Face { tet, face: 1 }));
            let three = add(two, self.arcs_if_first(Face { tet, face: 2 }));
            let four = add(three, self.arcs_if_first(Face { tet, face: 3 }));
            total = add(total, four);
        }
        total
    }
}
