//! The outcomes of the commands that list rays or surfaces.
ghost use Rattle.std.specs.Prelude.{◌≡◌, IfOk};
ghost use Rattle.outcome_definitions.specs.Enumerations.{list_outcome};

use command_answers::Outcome;
use cone_arithmetic::PackedRay;
use out_of_memory::NoMemory;
use outcome_definitions::Status;
use std::alloc::Global;
use text_io::{append, append_decimal};
use vector_text::write_packed_list;

/// The outcome of a list: a line `#` with `name` and the number of vectors, and a line for each vector of `list`.
pub fn list_outcome(alloc: Global, name: &[u8], list: &[PackedRay]) -> Result<Outcome, NoMemory>
    ensures { IfOk result (λ o. o ≡ list_outcome name.now list.now) }
{
    let mut text = Vec::new(alloc);
    append(&mut text, b"# ")?;
    append(&mut text, name)?;
    append(&mut text, b" ")?;
    append_decimal(alloc, &mut text, list.len() as u128)?;
    append(&mut text, b"\n")?;
    write_packed_list(alloc, list, &mut text)?;
    Ok(Outcome::with_text(Status::Done, text))
}
