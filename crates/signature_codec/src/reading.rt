//! Reads the table of a signature.

ghost use Rattle.std.specs.Prelude.{IfOk, IfErr};
ghost use Rattle.signature_definitions.specs.Spelling.{Spells};
ghost use Rattle.table_definitions.specs.Table.{IsTable};
ghost use Rattle.signature_definitions.specs.SignatureText.{signature_table};
ghost use Rattle.signature_text_laws.specs.Faults.{Reads, SpellsNothing};

use crate::SigFault;
use crate::heads::head_of;
use crate::joined::join;
use crate::parts::read_parts;
use crate::types::read_types;
use gluing_table::{Row, Table};
use std::alloc::Global;

/// A table of `rows`, which are known to be valid. Fails only if memory runs out.
fn table_of(alloc: Global, rows: Vec<Row>) -> Result<Table, SigFault>
    requires { IsTable rows.items }
    ensures { Reads (λ t. t) result (Ok rows.items) }
{
    let table = Table::from_sound_rows(alloc, rows)?;
    Ok(table)
}

/// Reads `text` as a walk-ordered table. Fails with the first error of the first phase that has one; the phases are the
/// head, the types of the faces, the destinations, the gluings, and the gluing of the faces. The format is this
/// project's profile of isomorphism signatures (Burton 2011).
pub fn read_signature(alloc: Global, text: &[u8]) -> Result<Table, SigFault>
    ensures reads { Reads (λ t. t) result (signature_table text.now) }
    ensures spelled { IfOk result (Spells text.now) }
    ensures refused { IfErr result (SpellsNothing text.now) }
{
    let head = head_of(text)?;
    let types = read_types(alloc, text, head)?;
    let parts = read_parts(alloc, text, head, types)?;
    let rows = join(alloc, &parts)?;
    table_of(alloc, rows)
}
