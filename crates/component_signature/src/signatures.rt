//! The component signature of a table.

ghost use Rattle.std.specs.Prelude.{◌≡◌, IfOk};
ghost use Rattle.component_definitions.specs.ComponentSignature.{component_text, IsComponentSignature};
ghost use Rattle.component_signature.specs.Entries.{entries_of};
ghost use Rattle.component_laws.specs.Ordered.{texts_of};

use crate::order::{PartSignature, in_order};
use gluing_table::Table;
use out_of_memory::NoMemory;
use std::alloc::Global;
use text_io::append;

/// The signatures of `signed` with a full stop between each two; `a` if there are none.
fn join_signatures(alloc: Global, signed: &[PartSignature]) -> Result<Vec<u8>, NoMemory>
    ensures { IfOk result (λ text. text.items ≡ component_text (texts_of (entries_of signed.now))) }
{
    let mut text = Vec::new(alloc);
    if signed.is_empty() {
        append(&mut text, b"a")?;
        return Ok(text);
    }
    append(&mut text, &signed[0].signature)?;
    for place in 1..signed.len() {
        append(&mut text, b".")?;
        append(&mut text, &signed[place].signature)?;
    }
    Ok(text)
}

/// The component signature of `table`: the signatures of its components in lexicographic order, each as often as it
/// occurs, with a full stop between each two; `a` if there is no tetrahedron. Two tables have equal component
/// signatures if and only if they are isomorphic.
pub fn component_signature(alloc: Global, table: &Table) -> Result<Vec<u8>, NoMemory>
    ensures { IfOk result (λ text. IsComponentSignature table.now text.items) }
{
    let ordered = in_order(alloc, table)?;
    let text = join_signatures(alloc, &ordered.signed)?;
    Ok(text)
}
