//! Reads the sections of a signature after its types.

ghost use Rattle.std.specs.Prelude.{◌≡◌, ◌<◌, ◌≤◌, length, IfOk};
ghost use Rattle.table_definitions.specs.Lists.{times_in};
ghost use Rattle.signature_text_laws.specs.Faults.{Reads};
ghost use Rattle.signature_codec.specs.Views.{head_view, types_view, parts_view};
ghost use Rattle.signature_text_laws.specs.Parts.{parts_of};

use crate::SigFault;
use crate::numbers::{NumberField, Segment, numbers_in};
use crate::read::{Head, Parts, TypesRead};
use std::alloc::Global;

/// The number of `types` that are 2.
fn twos_of(types: &[u8]) -> usize
    ensures value { result ≡ times_in types.now 2 }
    ensures in_range { result ≤ length types.now }
{
    types.iter().filter(|kind| **kind == 2).count()
}

/// Reads the sections after the types. Fails with `Unreached` if fewer than `head.count` - 1 types are 1; then
/// with the first error among the destinations and the gluings (`Short`, `BadChar`, `Destination`, `Gluing`); then with
/// `Trailing` if characters are left.
pub fn read_parts(
    alloc: Global,
    text: &[u8],
    head: Head,
    types: TypesRead,
) -> Result<Parts, SigFault>
    requires { types.next ≤ length text.now }
    ensures reads { Reads parts_view result (parts_of text.now (head_view head) (types_view types.types) types.next) }
    ensures count { IfOk result (λ p. p.count ≡ head.count) }
{
    let twos = twos_of(&types.types.read) as u32;
    if types.types.ones + 1 < head.count {
        return Err(SigFault::Unreached);
    }
    let (width, at) = (head.width, types.next);
    let destinations = NumberField {
        segment: Segment::Destinations,
        many: twos,
        width,
        bound: head.count,
    };
    let destinations = numbers_in(alloc, text, destinations, at)?;
    let gluings_at = at + (width * twos) as usize;
    let gluings = NumberField {
        segment: Segment::Gluings,
        many: twos,
        width: 1,
        bound: 24,
    };
    let gluings = numbers_in(alloc, text, gluings, gluings_at)?;
    let end = gluings_at + twos as usize;
    if end < text.len() {
        return Err(SigFault::Trailing { at: end });
    }
    Ok(Parts {
        count: head.count,
        types: types.types.read,
        destinations,
        gluings,
    })
}
