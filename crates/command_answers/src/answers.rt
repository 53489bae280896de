//! The outcome of a command that reads a document.
ghost use Rattle.std.specs.Prelude.{IfOk, MatchResult};
ghost use Rattle.std.specs.Result.{ForOk};
ghost use Rattle.command_answers.specs.Refusals.{IsFaultOutcome};

use crate::{Outcome, fault_outcome};
use out_of_memory::NoMemory;
use signature_codec::InputFault;
use std::alloc::Global;

/// The outcome of a command that reads a document: `answer` of the value in `read`, or the refusal of its error.
pub fn answer_read<T, F: FnOnce(T) -> Result<Outcome, NoMemory>>(
    alloc: Global,
    read: Result<T, InputFault>,
    answer: F,
) -> Result<Outcome, NoMemory>
    requires { ForOk read (λ value. F.pre answer value) }
    ensures { MatchResult read (λ value. F.post answer value result) (λ fault. IfOk result (IsFaultOutcome fault)) }
{
    match read {
        Ok(value) => answer(value),
        Err(fault) => fault_outcome(alloc, fault),
    }
}
