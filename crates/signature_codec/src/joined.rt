//! The rows of the table that the sections of a signature describe.

ghost use Rattle.std.specs.Prelude.{◌<◌};
ghost use Rattle.signature_definitions.specs.SignatureText as signatures;
ghost use Rattle.signature_text_laws.specs.Faults.{Reads};
ghost use Rattle.signature_text_laws.specs.Slots.{IsSlots, slots_begun};
ghost use Rattle.signature_codec.specs.Views.{parts_view};

use crate::SigFault;
use crate::joining::Joining;
use crate::read::Parts;
use crate::slots::{no_faces_read, rows_of};
use gluing_table::Row;
use std::alloc::Global;

/// Glues the faces as `parts` describes, and returns the rows. Fails at the first face, in order, that is in a
/// tetrahedron not yet seen (`Unreached`), has a destination not yet seen (`Destination`), or is glued to itself or to
/// a face already read (`FaceTaken`).
pub fn join(alloc: Global, parts: &Parts) -> Result<Vec<Row>, SigFault>
    requires { 0 < parts.now.count → IsSlots parts.now.count (slots_begun parts.now.count (parts_view parts.now)) }
    ensures { Reads (λ rows. rows.items) result (signatures.table_of parts.now.count (parts_view parts.now)) }
{
    if parts.count == 0 {
        return Ok(Vec::new(alloc));
    }
    let read_faces = no_faces_read(alloc, 4 * parts.count)?;
    let mut joining = Joining {
        parts,
        read_faces,
        seen: 1,
        types_used: 0,
        seen_used: 0,
    };
    joining.join_faces()?;
    let rows = rows_of(alloc, parts.count, &joining.read_faces)?;
    Ok(rows)
}
