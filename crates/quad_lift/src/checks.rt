//! Checks whether heights and quads agree across each gluing.

ghost use Rattle.std.specs.Prelude.{◌≡◌, ◌*◌, ◌<◌, false, length, IsTrue};
ghost use Rattle.quad_lift.specs.Agreements.{Agrees, AgreesAround, IsLeastWrong};

use crate::crossing::VertexWithFace;
use crate::quad_vector::Heights;

impl Heights<'_> {
    /// Whether height plus quads at the vertex `at` are equal on both sides of its face.
    fn agrees(&self, at: VertexWithFace) -> bool
        requires { at.vertex < 4 * length self.now.vector.skeleton.now.rows }
        ensures agrees { IsTrue result → Agrees self.now.vector.skeleton.now self.now.vector.entries.now
            self.now.values.now at.vertex at.face }
        ensures wrong { result ≡ false → Agrees self.now.vector.skeleton.now self.now.vector.entries.now
            self.now.values.now at.vertex at.face → ⊥ }
    {
        match self.vector.across(at) {
            None => true,
            Some(step) => {
                self.values[at.vertex as usize] + step.up
                    == self.values[step.other as usize] + step.down
            }
        }
    }

    /// Whether height plus quads at `vertex` are equal on both sides of each face.
    fn agrees_around(&self, vertex: u32) -> bool
        requires { vertex < 4 * length self.now.vector.skeleton.now.rows }
        ensures agrees { IsTrue result → AgreesAround self.now.vector.skeleton.now self.now.vector.entries.now
            self.now.values.now vertex }
        ensures wrong { result ≡ false → AgreesAround self.now.vector.skeleton.now self.now.vector.entries.now
            self.now.values.now vertex → ⊥ }
    {
        for face in 0..4 {
            if !self.agrees(VertexWithFace { vertex, face }) {
                return false;
            }
        }
        true
    }

    /// The least vertex class with a vertex at which heights and quads do not agree across a face, or the number of
    /// classes if there is none.
    pub fn first_spinning_vertex(&self) -> u32
        ensures { IsLeastWrong self.now.vector.skeleton.now self.now.vector.entries.now self.now.values.now result }
    {
        let skeleton = self.vector.skeleton;
        let mut least = skeleton.vertices();
        for vertex in 0..4 * skeleton.table().len() {
            let class = skeleton.vertex_class(vertex / 4, (vertex % 4) as u8);
            if class < least && !self.agrees_around(vertex) {
                least = class;
            }
        }
        least
    }
}
