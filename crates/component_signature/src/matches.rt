//! The least isomorphism of two tables, component by component.

ghost use Rattle.std.specs.Prelude.{◌≡◌, ◌<◌, ◌+◌, ◌↔◌, length, IsTrue, IfOk, OnOk, IfSome, IfNone};
ghost use Rattle.table_definitions.specs.Places.{IsConnected};
ghost use Rattle.table_definitions.specs.Relabelling.{AreIsomorphic};
ghost use Rattle.signature_definitions.specs.Labellings.{IsLeastRelabelling, Relabels};
ghost use Rattle.component_definitions.specs.SameParts.{IsSameParts};
ghost use Rattle.component_signature.specs.Entries.{entries_of};
ghost use Rattle.component_laws.specs.Ordered.{texts_of, numbers_of};
ghost use Rattle.component_laws.specs.Drafts.{AreMatched, AreWritten};

use crate::drafts::{Draft, blank_draft, write_part};
use crate::order::{OrderedParts, PartSignature, in_order};
use canonical_labelling::same_of_connected;
use gluing_table::{Relabelling, Table};
use out_of_memory::NoMemory;
use std::alloc::Global;

/// Whether `first` and `second` have equal signatures, index by index.
fn agree(first: &[PartSignature], second: &[PartSignature]) -> bool
    ensures { IsTrue result ↔ (texts_of (entries_of first.now) ≡ texts_of (entries_of second.now)) }
{
    if first.len() != second.len() {
        return false;
    }
    for place in 0..first.len() {
        if first[place].signature != second[place].signature {
            return false;
        }
    }
    true
}

/// The least isomorphism from `first` to `second`, which are connected and isomorphic.
fn relabelling_of_connected(
    alloc: Global,
    first: &Table,
    second: &Table,
) -> Result<Relabelling, NoMemory>
    requires connected { IsConnected first.now }
    requires second_connected { IsConnected second.now }
    requires relabelled { AreIsomorphic first.now second.now }
    ensures { IfOk result (IsLeastRelabelling first.now second.now) }
{
    match same_of_connected(alloc, first, second)? {
        Some(by) => Ok(by),
        None => unreachable!(),
    }
}

/// Writes the images of the tetrahedra of the component with index `place`.
fn write_place(
    alloc: Global,
    draft: &mut Draft,
    first: &OrderedParts,
    second: &OrderedParts,
    place: usize,
) -> Result<(), NoMemory>
    requires matched { AreMatched (length draft.old.images) first.now.parts.items (entries_of first.now.signed.items)
        second.now.parts.items (entries_of second.now.signed.items) }
    requires in_range { place < length first.now.signed.items }
    requires perms { length draft.old.perms ≡ length draft.old.images }
    requires written { AreWritten first.now.parts.items (numbers_of (entries_of first.now.signed.items))
        second.now.parts.items (numbers_of (entries_of second.now.signed.items)) place draft.old }
    ensures written { OnOk result (AreWritten first.now.parts.items (numbers_of (entries_of first.now.signed.items))
        second.now.parts.items (numbers_of (entries_of second.now.signed.items)) (place + 1) draft.new) }
    ensures images { OnOk result (length draft.new.images ≡ length draft.old.images) }
    ensures perms { OnOk result (length draft.new.perms ≡ length draft.old.perms) }
{
    let part = &first.parts[first.signed[place].part];
    let other = &second.parts[second.signed[place].part];
    let by = relabelling_of_connected(alloc, &part.table, &other.table)?;
    write_part(draft, part, other, &by);
    Ok(())
}

/// The images of all `tets` tetrahedra.
fn draft_of_parts(
    alloc: Global,
    tets: u32,
    first: &OrderedParts,
    second: &OrderedParts,
) -> Result<Draft, NoMemory>
    requires { AreMatched tets first.now.parts.items (entries_of first.now.signed.items) second.now.parts.items
        (entries_of second.now.signed.items) }
    ensures written { IfOk result (AreWritten first.now.parts.items (numbers_of (entries_of first.now.signed.items))
        second.now.parts.items (numbers_of (entries_of second.now.signed.items)) (length first.now.signed.items)) }
    ensures images { IfOk result (λ draft. length draft.images ≡ tets) }
    ensures perms { IfOk result (λ draft. length draft.perms ≡ tets) }
{
    let mut draft = blank_draft(alloc, tets)?;
    for place in 0..first.signed.len() {
        write_place(alloc, &mut draft, first, second, place)?;
    }
    Ok(draft)
}

/// An isomorphism from `first` to `second`, or `None` if and only if there is none. Both lists of components are
/// ordered by signature and then by least tetrahedron, and each component is carried to the one with its index by the
/// isomorphism that [`same`] returns.
pub fn same_parts(
    alloc: Global,
    first: &Table,
    second: &Table,
) -> Result<Option<Relabelling>, NoMemory>
    ensures reported { IfOk result (λ r. IfSome r (IsSameParts first.now second.now)) }
    ensures relabels { IfOk result (λ r. IfSome r (Relabels first.now second.now)) }
    ensures size { IfOk result (λ r. IfSome r (λ by. length by.images ≡ length first.now)) }
    ensures none { IfOk result (λ r. IfNone r (AreIsomorphic first.now second.now → ⊥)) }
{
    let parts = in_order(alloc, first)?;
    let others = in_order(alloc, second)?;
    if !agree(&parts.signed, &others.signed) {
        return Ok(None);
    }
    let draft = draft_of_parts(alloc, first.len(), &parts, &others)?;
    Ok(Some(draft.relabelling()))
}
