//! The components of a table in the order of their signatures.

ghost use Rattle.std.specs.Prelude.{All, IfOk, OnOk};
ghost use Rattle.table_definitions.specs.Table.{IsTable};
ghost use Rattle.table_definitions.specs.Places.{IsConnected};
ghost use Rattle.component_definitions.specs.Parts as definition;
ghost use Rattle.component_definitions.specs.Parts.{AreParts};
ghost use Rattle.component_signature.specs.Entries.{entries_of};
ghost use Rattle.component_laws.specs.Ordered.{AreSigned, AreInOrder};

use crate::split::{Part, parts};
use canonical_labelling::signature_of_connected;
use gluing_table::Table;
use out_of_memory::NoMemory;
use std::alloc::Global;

/// The signature of a component, and the index of the component. Ordered by signature, then by index.
#[derive(PartialEq, Eq, PartialOrd, Ord, Drop)]
pub struct PartSignature {
    pub signature: Vec<u8>,
    pub part: usize,
}

/// The components of a table, and their signatures in order.
#[derive(Drop)]
pub struct OrderedParts {
    pub parts: Vec<Part>,
    pub signed: Vec<PartSignature>,
}

/// The signature of each of `parts`.
fn sign_parts(alloc: Global, parts: &[Part]) -> Result<Vec<PartSignature>, NoMemory>
    requires { All (λ (part : definition.Part). IsConnected part.rows) parts.now }
    ensures { IfOk result (λ signed. AreSigned parts.now (entries_of signed.items)) }
{
    let mut signed = Vec::with_capacity(alloc, parts.len())?;
    for number in 0..parts.len() {
        let part = &parts[number];
        let signature = signature_of_connected(alloc, &part.table)?;
        signed.push(PartSignature {
            signature,
            part: number,
        })?;
    }
    Ok(signed)
}

/// The components of `table`, and their signatures in lexicographic order, equal ones by least tetrahedron.
pub fn in_order(alloc: Global, table: &Table) -> Result<OrderedParts, NoMemory>
    ensures parts { IfOk result (λ ordered. AreParts table.now ordered.parts.items) }
    ensures order { IfOk result (λ ordered. AreInOrder ordered.parts.items (entries_of ordered.signed.items)) }
    ensures is_table { OnOk result (IsTable table.now) }
{
    let parts = parts(alloc, table)?;
    let mut signed = sign_parts(alloc, &parts)?;
    signed.sort_unstable();
    Ok(OrderedParts { parts, signed })
}
