//! The number of tetrahedra, with which a signature begins.

ghost use Rattle.std.specs.Prelude.{◌≡◌, ◌≤◌, length, IfOk};
ghost use Rattle.signature_definitions.specs.SignatureText as signatures;
ghost use Rattle.signature_definitions.specs.Spelling as spellings;
ghost use Rattle.signature_text_laws.specs.Faults.{Reads};
ghost use Rattle.signature_codec.specs.Views.{head_view};

use crate::SigFault;
use crate::numbers::{number_in, value_at};
use crate::read::Head;
use gluing_table::MAX_TETS;

/// The least number of tetrahedra that takes more than one character.
const FIRST_LONG: u32 = 63;

/// The number of characters for each number in the signature of a table of `count` tetrahedra.
pub fn width(count: u32) -> u32
    ensures value { result ≡ spellings.width count }
    ensures in_range { result ≤ 3 }
{
    if count < 64 {
        1
    } else if count < 4096 {
        2
    } else {
        3
    }
}

/// Reads the head of a text that begins with `-`. Fails with `Width` if the width is 0 or not the least, and with
/// `TooMany` if the width is 3 or more or the count exceeds `MAX_TETS`.
fn long_head(text: &[u8]) -> Result<Head, SigFault>
    ensures reads { Reads head_view result (signatures.long_head text.now) }
    ensures in_text { IfOk result (λ h. h.next ≤ length text.now) }
{
    let width_read = value_at(text, 1)?;
    if width_read == 0 {
        return Err(SigFault::Width { at: 1 });
    }
    if width_read >= 3 {
        return Err(SigFault::TooMany);
    }
    let count = number_in(text, width_read, 2)?;
    if count > MAX_TETS {
        return Err(SigFault::TooMany);
    }
    if count < FIRST_LONG || width_read != width(count) {
        return Err(SigFault::Width { at: 1 });
    }
    Ok(Head {
        count,
        width: width_read,
        next: width_read as usize + 2,
    })
}

/// Reads the head of `text`: the number of tetrahedra and the width of its numbers. Fails with `Short` or `BadChar` at
/// the first missing or foreign character, with `TooMany` above `MAX_TETS` tetrahedra, or with `Width` if the width is
/// 0 or not the least for the count.
#[tactic(auto, unfolding(signature_definitions::specs::SignatureText::head_of))]
pub fn head_of(text: &[u8]) -> Result<Head, SigFault>
    ensures reads { Reads head_view result (signatures.head_of text.now) }
    ensures in_text { IfOk result (λ h. h.next ≤ length text.now) }
{
    let count = value_at(text, 0)?;
    if count == FIRST_LONG {
        return long_head(text);
    }
    Ok(Head {
        count,
        width: 1,
        next: 1,
    })
}
