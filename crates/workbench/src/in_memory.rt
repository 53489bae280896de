//! The outcome for words and an input in memory.
ghost use Rattle.std.specs.Prelude.{IfOk};
ghost use Rattle.outcome_definitions.specs.Answers.{IsOutcome, IsRequestOutcome};
ghost use Rattle.command_definitions.specs.Requests.{HoldsRange};
ghost use Rattle.workbench.specs.Runs.{IsAnswered};

use crate::dispatch::{MOST_BYTES, outcome_of_request, reads_input};
use command_answers::Outcome;
use command_words::{Request, WordsFault, read_words};
use out_of_memory::NoMemory;
use std::alloc::Global;
use text_io::Words;

/// The outcome of `request` for `input`, which may be too long.
fn answer_in_memory(alloc: Global, request: Request, input: &[u8]) -> Result<Outcome, NoMemory>
    requires { HoldsRange request }
    ensures outcome { IfOk result (λ o. IsRequestOutcome request input.now o) }
    ensures answered { IfOk result (λ o. IsAnswered o.status) }
{
    if !reads_input(request) {
        return outcome_of_request(alloc, request, &[]);
    }
    if MOST_BYTES < input.len() as u64 {
        return Ok(Outcome::too_long());
    }
    outcome_of_request(alloc, request, input)
}

/// The outcome for `words` and the input `input`, with the text that a run would write. Its status is never
/// `ReadFault`, `WriteFault` or `NoMemory`. Fails with `NoMemory` if memory runs out.
pub fn outcome_of(alloc: Global, words: &Words, input: &[u8]) -> Result<Outcome, NoMemory>
    ensures outcome { IfOk result (λ o. IsOutcome words.now input.now o) }
    ensures answered { IfOk result (λ o. IsAnswered o.status) }
{
    match read_words(alloc, words) {
        Ok(request) => answer_in_memory(alloc, request, input),
        Err(WordsFault::Usage) => Ok(Outcome::usage()),
        Err(WordsFault::NoMemory) => Err(NoMemory),
    }
}
