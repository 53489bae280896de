//! Writes the step of an enumeration at which a number exceeds the limit.
ghost use Rattle.std.specs.Prelude.{◌≡◌, ◌++◌, ◌<◌, length, IfOk, OnOk};
ghost use Rattle.outcome_definitions.specs.Enumerations.{large_outcome, kind_text};

use command_answers::Outcome;
use double_description::LargeKind;
use out_of_memory::NoMemory;
use outcome_definitions::Status;
use std::alloc::Global;
use text_io::{append, append_decimal};
use vector_text::write_entries;

/// Appends the ray or the pair of rays of `kind`.
fn append_kind(alloc: Global, text: &mut Vec<u8>, kind: &LargeKind) -> Result<(), NoMemory>
    ensures { OnOk result (text.new.items ≡ text.old.items ++ kind_text kind.now) }
{
    match kind {
        LargeKind::Value(ray) => {
            append(text, b" value")?;
            write_entries(alloc, ray, text)
        }
        LargeKind::Pair(positive, negative) => {
            append(text, b" pair")?;
            write_entries(alloc, positive, text)?;
            append(text, b" and")?;
            write_entries(alloc, negative, text)
        }
    }
}

/// The outcome `large`, if a number exceeds the limit at a step: the step, counted from 0, the last row of `order`, and
/// the ray or pair of rays in `kind`.
pub fn large_outcome(alloc: Global, order: &[u32], kind: &LargeKind) -> Result<Outcome, NoMemory>
    requires { 0 < length order.now }
    ensures { IfOk result (λ o. o ≡ large_outcome order.now kind.now) }
{
    let step = order.len() - 1;
    let mut text = Vec::new(alloc);
    append(&mut text, b"refused: large step ")?;
    append_decimal(alloc, &mut text, step as u128)?;
    append(&mut text, b" row ")?;
    append_decimal(alloc, &mut text, u128::from(order[step]))?;
    append_kind(alloc, &mut text, kind)?;
    append(&mut text, b"\n")?;
    Ok(Outcome::with_text(Status::Large, text))
}
