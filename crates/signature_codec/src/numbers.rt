//! Reads values and numbers from a signature.

ghost use Rattle.std.specs.Prelude.{◌≡◌, ◌<◌, ◌≤◌, ◌+◌, ◌*◌, ◌^◌, length, IfOk, OnOk};
ghost use Rattle.signature_definitions.specs.SignatureText as signatures;
ghost use Rattle.signature_text_laws.specs.Faults.{Reads};
ghost use Rattle.signature_codec.specs.Views.{fault_of_segment};

use crate::SigFault;
use crate::characters::value_of;
use std::alloc::Global;

/// The two sections of a signature that consist of numbers.
#[derive(Clone, Copy)]
pub enum Segment {
    Destinations,
    Gluings,
}

/// The form of a section: `many` numbers, each in `width` characters and below `bound`. Invariant: `many` is at most
/// 4,000, and `width` at most 3.
#[derive(Clone, Copy)]
pub struct NumberField {
    pub segment: Segment,
    pub many: u32,
    pub width: u32,
    pub bound: u32,
    pub ghost limited: { many ≤ 4000 },
    pub ghost narrow: { width ≤ 3 },
}

impl Segment {
    ghost use Rattle.signature_codec.specs.Views.{fault_of_segment};

    /// The error for a number at position `at` that is not below its bound.
    fn fault(self, at: usize) -> SigFault
        ensures { result ≡ fault_of_segment self at }
    {
        match self {
            Segment::Destinations => SigFault::Destination { at },
            Segment::Gluings => SigFault::Gluing { at },
        }
    }
}

/// The value of the character at position `at`. Fails with `Short` if the text ends before it, or with `BadChar` if it
/// is none of the 64 characters.
pub fn value_at(text: &[u8], at: usize) -> Result<u32, SigFault>
    ensures reads { Reads (λ v. v) result (signatures.value_at text.now at) }
    ensures in_range { IfOk result (λ v. v < 64) }
    ensures in_text { OnOk result (at < length text.now) }
{
    if at >= text.len() {
        return Err(SigFault::Short { at: text.len() });
    }
    match value_of(text[at]) {
        Some(value) => Ok(value as u32),
        None => Err(SigFault::BadChar { at }),
    }
}

/// Reads the number in `width` characters from position `at`, lowest six bits first. Fails with `Short` or `BadChar` at
/// the first missing or foreign character.
pub fn number_in(text: &[u8], width: u32, at: usize) -> Result<u32, SigFault>
    requires in_text { at ≤ length text.now }
    requires narrow { width ≤ 3 }
    ensures reads { Reads (λ v. v) result (signatures.number_in text.now width at) }
    ensures in_range { IfOk result (λ v. v < 64 ^ width) }
    ensures in_text { OnOk result (at + width ≤ length text.now) }
{
    if width == 0 {
        return Ok(0);
    }
    let low = value_at(text, at)?;
    let high = number_in(text, width - 1, at + 1)?;
    Ok(low + 64 * high)
}

/// Reads the section described by `numbers` from position `at`: its numbers, each with its position. Fails at the first
/// missing (`Short`) or foreign (`BadChar`) character, or number not below the bound (`Destination` or `Gluing`, by the
/// section).
pub fn numbers_in(
    alloc: Global,
    text: &[u8],
    numbers: NumberField,
    at: usize,
) -> Result<Vec<(u32, usize)>, SigFault>
    requires { at ≤ length text.now }
    ensures reads { Reads (λ v. v.items) result
        (signatures.numbers_in numbers.many text.now numbers.width numbers.bound (fault_of_segment numbers.segment)
        at) }
    ensures in_text { OnOk result (at + numbers.width * numbers.many ≤ length text.now) }
{
    let mut read = Vec::new(alloc);
    for i in 0..numbers.many {
        let next = at + (numbers.width * i) as usize;
        let value = number_in(text, numbers.width, next)?;
        if value >= numbers.bound {
            return Err(numbers.segment.fault(next));
        }
        read.push((value, next))?;
    }
    Ok(read)
}
