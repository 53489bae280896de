//! Writes truth values, numbers and whole outcomes in lines.
ghost use Rattle.std.specs.Prelude.{◌≡◌, ◌++◌, IfOk, OnOk};
ghost use Rattle.outcome_definitions.specs.Information as information;
ghost use Rattle.text_definitions.specs.Written as written;
ghost use Rattle.text_definitions.specs.Written.{line};
ghost use Rattle.outcome_definitions.specs.Lines.{number_line};
ghost use Rattle.outcome_definitions.specs.Canonical.{done};
ghost use Rattle.outcome_definitions.specs.Sums.{accepted_outcome};

use crate::Outcome;
use out_of_memory::NoMemory;
use outcome_definitions::Status;
use std::alloc::Global;
use text_io::{append, append_decimal};

/// `yes` if `value` is true, otherwise `no`.
pub fn yes_or_no(value: bool) -> &'static [u8]
    ensures { result.now ≡ written.yes_or_no value }
{
    if value { b"yes" } else { b"no" }
}

/// Appends a line of `name` and `yes` or `no`.
pub fn append_flag(text: &mut Vec<u8>, name: &[u8], value: bool) -> Result<(), NoMemory>
    ensures { OnOk result (text.new.items ≡ text.old.items ++ information.reported name.now value) }
{
    append(text, name)?;
    append(text, yes_or_no(value))?;
    append(text, b"\n")?;
    Ok(())
}

/// Appends a line of `name` and the decimal `number`.
pub fn append_number_line(
    alloc: Global,
    text: &mut Vec<u8>,
    name: &[u8],
    number: u128,
) -> Result<(), NoMemory>
    ensures { OnOk result (text.new.items ≡ text.old.items ++ number_line name.now number) }
{
    append(text, name)?;
    append_decimal(alloc, text, number)?;
    append(text, b"\n")?;
    Ok(())
}

/// The outcome `text` as one line, with status 0.
pub fn line_outcome(mut text: Vec<u8>) -> Result<Outcome, NoMemory>
    ensures { IfOk result (λ o. o ≡ done (line text.items)) }
{
    append(&mut text, b"\n")?;
    Ok(Outcome::with_text(Status::Done, text))
}

/// The outcome `accepted`, with status 0.
#[tactic(auto, unfolding(outcome_definitions::specs::Lines::accepted_text))]
pub fn accepted_outcome(alloc: Global) -> Result<Outcome, NoMemory>
    ensures { IfOk result (λ o. o ≡ accepted_outcome) }
{
    let mut text = Vec::new(alloc);
    append(&mut text, b"accepted\n")?;
    Ok(Outcome::with_text(Status::Done, text))
}
