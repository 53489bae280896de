//! The gluings known so far while the faces of a table are glued in order, by face.

ghost use Rattle.std.specs.Prelude.{◌≡◌, length, replicate, slice_set, Some, None, unwrap_or, IfOk};
ghost use Rattle.table_definitions.specs.Table as gluings;
ghost use Rattle.table_definitions.specs.Table.{face_number};
ghost use Rattle.signature_text_laws.specs.Slots as slots;
ghost use Rattle.signature_text_laws.specs.Slots.{meet_at};

use gluing_table::{Face, Glue, Row};
use std::alloc::{AllocError, Global};

/// The index of `face` among the faces of all tetrahedra: 4t + f.
fn place(face: Face) -> usize
    ensures { result ≡ face_number face }
{
    4 * face.tet as usize + face.face as usize
}

/// Whether `first` and `second` are one face.
pub fn same_face(first: Face, second: Face) -> bool
    ensures { result ≡ gluings.same_face first second }
{
    first.tet == second.tet && first.face == second.face
}

/// An entry for each of `faces` faces, none of them read.
pub fn no_faces_read(alloc: Global, faces: u32) -> Result<Vec<Option<Option<Glue>>>, AllocError>
    ensures unmet { IfOk result (λ read_faces. read_faces.items ≡ replicate faces None) }
    ensures size { IfOk result (λ read_faces. length read_faces.items ≡ faces) }
{
    let read_faces = vec![in alloc; None; faces as usize]?;
    Ok(read_faces)
}

/// What is known of `face`: its gluing (`None` at a boundary face), or `None` if it is not yet read or out of range.
pub fn slot(read_faces: &[Option<Option<Glue>>], face: Face) -> Option<Option<Glue>>
    ensures { result ≡ slots.slot read_faces.now face }
{
    let place = place(face);
    if place < read_faces.len() {
        read_faces[place]
    } else {
        None
    }
}

/// Records that `face` is read and has gluing `glue`; does nothing if `face` is out of range.
pub fn set_slot(read_faces: &mut [Option<Option<Glue>>], face: Face, glue: Option<Glue>)
    ensures { read_faces.new ≡ slice_set read_faces.old (face_number face) (Some glue) }
{
    let place = place(face);
    if place < read_faces.len() {
        read_faces[place] = Some(glue);
    }
}

/// Records both sides of the gluing `glue` of `face`.
pub fn meet(read_faces: &mut [Option<Option<Glue>>], face: Face, glue: Glue)
    ensures { read_faces.new ≡ meet_at read_faces.old face glue }
{
    set_slot(
        read_faces,
        glue.other_side(face),
        Some(glue.inverse_gluing(face)),
    );
    set_slot(read_faces, face, Some(glue));
}

/// The gluing of `face`, or `None` if it is a boundary face or not read.
fn gluing_in(read_faces: &[Option<Option<Glue>>], face: Face) -> Option<Glue>
    ensures { result ≡ unwrap_or (slots.slot read_faces.now face) None }
{
    slot(read_faces, face).unwrap_or(None)
}

fn row_of(read_faces: &[Option<Option<Glue>>], tet: u32) -> Row
    ensures { result ≡ slots.slot_row read_faces.now tet }
{
    [
        gluing_in(read_faces, Face { tet, face: 0 }),
        gluing_in(read_faces, Face { tet, face: 1 }),
        gluing_in(read_faces, Face { tet, face: 2 }),
        gluing_in(read_faces, Face { tet, face: 3 }),
    ]
}

/// The rows of `count` tetrahedra, from the gluings in `read_faces`.
pub fn rows_of(
    alloc: Global,
    count: u32,
    read_faces: &[Option<Option<Glue>>],
) -> Result<Vec<Row>, AllocError>
    ensures { IfOk result (λ rows. rows.items ≡ slots.slot_rows count read_faces.now) }
{
    let mut rows = Vec::new(alloc);
    for tet in 0..count {
        rows.push(row_of(read_faces, tet))?;
    }
    Ok(rows)
}
