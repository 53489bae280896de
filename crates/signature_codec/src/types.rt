//! Reads the types of faces: 0 boundary, 1 glued to a tetrahedron not yet seen, 2 glued to one already seen.

ghost use Rattle.std.specs.Prelude.{◌≡◌, ◌<◌, ◌≤◌, ◌*◌, ◌-◌, ◌+◌, [], length, IfOk, OnOk};
ghost use Rattle.signature_definitions.specs.SignatureText as signatures;
ghost use Rattle.signature_text_laws.specs.Faults.{Reads, Leaves};
ghost use Rattle.signature_codec.specs.Views.{types_view, read_after};
ghost use Rattle.signature_text_laws.specs.Parts.{types_begun};

use crate::SigFault;
use crate::numbers::value_at;
use crate::read::{Head, Types, TypesRead};
use std::alloc::Global;

/// The number of faces that type `kind` accounts for: 1 for boundary, otherwise 2.
fn faces_of_type(kind: u8) -> u32
    ensures { result ≡ signatures.faces_of_type kind }
{
    if kind == 0 { 1 } else { 2 }
}

/// Whether type `kind` is impossible with `left` faces left and `ones` types 1 so far.
fn is_wrong_type(count: u32, kind: u8, left: u32, ones: u32) -> bool
    ensures { result ≡ signatures.is_wrong_type count kind (record { read = []; left = left; ones = ones }) }
{
    kind == 3 || left < faces_of_type(kind) || (kind == 1 && count.saturating_sub(1) <= ones)
}

/// Reads one of the three types of the character at position `at`. Fails with `Leftover` if no face is left and `kind`
/// is not 0, or with `BadType` if the type is impossible.
fn take_type(types: &mut Types, head: Head, at: usize, kind: u8) -> Result<(), SigFault>
    ensures reads { Leaves (types_view types.new) result
        (signatures.type_at head.count at kind (types_view types.old)) }
    ensures less { OnOk result (types.new.left ≤ types.old.left - 1) }
{
    if types.left == 0 {
        if kind != 0 {
            return Err(SigFault::Leftover { at });
        }
        return Ok(());
    }
    if is_wrong_type(head.count, kind, types.left, types.ones) {
        return Err(SigFault::BadType { at });
    }
    types.read.push(kind)?;
    types.left -= faces_of_type(kind);
    if kind == 1 {
        types.ones += 1;
    }
    Ok(())
}

/// Reads the three types of the character with value `value`. Fails at the first type at which `take_type` does.
fn take_character(types: &mut Types, head: Head, at: usize, value: u8) -> Result<(), SigFault>
    ensures reads { Leaves (types_view types.new) result
        (signatures.character_types head.count at value (types_view types.old)) }
    ensures less { OnOk result (types.new.left ≤ types.old.left - 1) }
{
    take_type(types, head, at, value % 4)?;
    take_type(types, head, at, value / 4 % 4)?;
    take_type(types, head, at, value / 16)?;
    Ok(())
}

/// Reads the types of `text` from position `head.next` on. Fails at the first missing (`Short`) or foreign (`BadChar`)
/// character, impossible type (`BadType`), or type after the last face that is not 0 (`Leftover`).
pub fn read_types(alloc: Global, text: &[u8], head: Head) -> Result<TypesRead, SigFault>
    requires { head.next ≤ length text.now }
    ensures reads { Reads read_after result
        (signatures.types_from (4 * head.count) text.now head.count head.next (types_begun head.count)) }
    ensures in_text { IfOk result (λ t. t.next ≤ length text.now) }
{
    let mut types = Types {
        read: Vec::new(alloc),
        left: 4 * head.count,
        ones: 0,
    };
    let mut next = head.next;
    while types.left > 0 {
        let value = value_at(text, next)?;
        take_character(&mut types, head, next, value as u8)?;
        next += 1;
    }
    Ok(TypesRead { types, next })
}
