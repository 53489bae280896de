//! The quads of a tetrahedron, and what its faces become if it is removed.

ghost use Rattle.std.specs.Prelude.{◌≡◌, ◌<◌, length, true, false, IfNone, IfSome, if◌then◌else◌, ◌==◌};
ghost use Rattle.table_definitions.specs.Lists.{substitute};
ghost use Rattle.std.specs.List.{position_or_len};
ghost use Rattle.table_definitions.specs.Permutation.{IsPermutationOfFour};
ghost use Rattle.surface_definitions.specs.Coordinates.{three};
ghost use Rattle.surface_definitions.specs.Crushing.{has_quad, is_removed as is_taken, exchange as exchange_of};

use crate::surface::StandardSurface;
use normal_discs::{columns_each, triangles_each};
use perm_four::Perm4;
use surface_definitions::Coords;

impl StandardSurface<'_> {
    /// The type of the quads of tetrahedron `tet`, 0, 1 or 2, or `None` if and only if it has none.
    pub fn quad_type(&self, tet: u32) -> Option<u8>
        requires { tet < length self.now.table.now }
        ensures kept { IfNone result (is_taken self.now.entries.now tet ≡ false) }
        ensures removed { IfSome result (λ k. is_taken self.now.entries.now tet ≡ true) }
        ensures first { IfSome result (λ k. k ≡ position_or_len (has_quad self.now.entries.now tet) three) }
        ensures in_range { IfSome result (λ k. k < 3) }
    {
        let before = columns_each(Coords::Standard) as usize * tet as usize;
        let quads = before + triangles_each(Coords::Standard) as usize;
        if self.entries[quads] > 0 {
            Some(0)
        } else if self.entries[quads + 1] > 0 {
            Some(1)
        } else if self.entries[quads + 2] > 0 {
            Some(2)
        } else {
            None
        }
    }

    /// Whether tetrahedron `tet` has quads, so that crushing removes it.
    pub fn is_removed(&self, tet: u32) -> bool
        requires { tet < length self.now.table.now }
        ensures { result ≡ is_taken self.now.entries.now tet }
    {
        self.quad_type(tet).is_some()
    }
}

/// The image of `u` under the transposition of `v` and `w`.
fn exchange_image(v: u8, w: u8, u: u8) -> u8
    ensures { result ≡ (if u == v then w else substitute w v u) }
{
    if u == v {
        w
    } else if u == w {
        v
    } else {
        u
    }
}

/// The transposition of the vertices `v` and `w`.
pub fn exchange(v: u8, w: u8) -> Perm4
    requires first { v < 4 }
    requires second { w < 4 }
    ensures value { result ≡ exchange_of v w }
    ensures permutes { IsPermutationOfFour result }
{
    Perm4::new(
        exchange_image(v, w, 0),
        exchange_image(v, w, 1),
        exchange_image(v, w, 2),
        exchange_image(v, w, 3),
    )
    .unwrap()
}
