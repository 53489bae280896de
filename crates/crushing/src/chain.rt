//! Crush chains: a face of a retained tetrahedron is followed through the removed ones.

ghost use Rattle.std.specs.Prelude.{◌≡◌, ◌<◌, ℕ, List, length, false, Option, IfSome};
ghost use Rattle.std.specs.List.{position_or_len};
ghost use Rattle.table_definitions.specs.Table.{Gluing};
ghost use Rattle.surface_definitions.specs.Coordinates.{three};
ghost use Rattle.surface_definitions.specs.Crushing.{has_quad, is_removed, passed, CrushesTo};

use crate::quads::exchange;
use crate::surface::StandardSurface;
use gluing_table::{Face, Glue};
use normal_discs::partner;

impl StandardSurface<'_> {
    /// The next gluing of the chain from `start`, which has reached by `glue` a removed tetrahedron whose quads have
    /// type `kind`; `None` at a boundary face.
    fn pass(&self, start: Face, glue: Glue, kind: u8) -> Option<Glue>
        requires reached { glue.tet < length self.now.table.now }
        requires one_of_three { kind < 3 }
        ensures { (xs : List ℕ) → kind ≡ position_or_len (has_quad xs glue.tet) three
            → result ≡ passed self.now.table.now xs start glue }
    {
        let into = glue.perm.image(start.face);
        let out = partner(kind, into);
        let next = self.table.glue(Face {
            tet: glue.tet,
            face: out,
        })?;
        let across = exchange(into, out).compose(glue.perm);
        Some(Glue {
            tet: next.tet,
            perm: next.perm.compose(across),
        })
    }

    /// The gluing at the end of the chain from `start`, a face of a retained tetrahedron, or `None` if the chain ends
    /// at a boundary face.
    pub fn follow(&self, start: Face) -> Option<Glue>
        requires in_range { start.tet < length self.now.table.now }
        requires kept { is_removed self.now.entries.now start.tet ≡ false }
        ensures end { CrushesTo self.now.table.now self.now.entries.now start result }
        ensures only { (other : Option Gluing) → CrushesTo self.now.table.now self.now.entries.now start other
            → other ≡ result }
        ensures in_range { IfSome result (λ g. g.tet < length self.now.table.now) }
    {
        let mut reached = self.table.glue(start);
        while let Some(glue) = reached {
            let Some(kind) = self.quad_type(glue.tet) else {
                return Some(glue);
            };
            reached = self.pass(start, glue, kind);
        }
        None
    }
}
