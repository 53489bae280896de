//! What lies across the faces of a tetrahedron.

ghost use Rattle.std.specs.Prelude.{◌≡◌, ◌*◌, ◌<◌, ◌≤◌, length, IfSome};
ghost use Rattle.table_definitions.specs.Table as gluings;
ghost use Rattle.table_definitions.specs.Table.{max_tets, IsTable};
ghost use Rattle.skeleton_class_laws.specs.Crossings.{crossed_vertex, crossed_face};

use gluing_table::{Face, Glue, Table};

/// A table, and the number of the face through which tetrahedra are left. Invariant: `face` is below 4.
#[derive(Clone, Copy)]
pub struct Exit<'a> {
    pub table: &'a Table,
    pub face: u8,
    pub ghost a_face: { face < 4 },
}

/// The gluing of `face`, or `None` if it is a boundary face.
pub fn across(table: &Table, face: Face) -> Option<Glue>
    requires { face.tet < length table.now }
    ensures value { result ≡ gluings.glue table.now face }
    ensures in_range { IfSome result (λ g. g.tet < length table.now) }
    ensures limited { length table.now ≤ max_tets }
    ensures is_table { IsTable table.now }
{
    table.glue(face)
}

impl Exit<'_> {
    /// The gluing of this face of tetrahedron `tet`, or `None` if it is a boundary face.
    pub fn of(self, tet: u32) -> Option<Glue>
        requires { tet < length self.table.now }
        ensures value { result ≡ gluings.glue self.entry.table.now (record { tet = tet; face = self.entry.face }) }
        ensures in_range { IfSome result (λ g. g.tet < length self.entry.table.now) }
        ensures limited { length self.entry.table.now ≤ max_tets }
    {
        across(
            self.table,
            Face {
                tet,
                face: self.face,
            },
        )
    }
}

/// The vertex, with index 4t + v, to which `vertex` is glued across `exit.face`; `None` if it is the opposite vertex or
/// the face is a boundary face.
pub fn vertex_across(exit: Exit<'_>, vertex: u32) -> Option<u32>
    requires { vertex < 4 * length exit.table.now }
    ensures { result ≡ crossed_vertex exit.entry.table.now vertex exit.entry.face }
{
    let v = (vertex % 4) as u8;
    if v == exit.face {
        return None;
    }
    let Some(glue) = exit.of(vertex / 4) else {
        return None;
    };
    Some(4 * glue.tet + glue.perm.image(v) as u32)
}

/// The face, with index 4t + f, to which face `place` is glued. `None` if it is a boundary face, or if `choice` is not
/// 0, since a face has only one neighbour.
pub fn face_across(table: &Table, place: u32, choice: u8) -> Option<u32>
    requires { place < 4 * length table.now }
    ensures { result ≡ crossed_face table.now place choice }
{
    if choice != 0 {
        return None;
    }
    let face = Face {
        tet: place / 4,
        face: (place % 4) as u8,
    };
    let Some(glue) = across(table, face) else {
        return None;
    };
    let other = glue.other_side(face);
    Some(4 * other.tet + other.face as u32)
}
