//! Splits words at zero bytes, and computes their outcome.
ghost use Rattle.std.specs.Prelude.{◌≡◌, ◌==◌, map, IfOk};
ghost use Rattle.std.specs.List.{slice_split};
ghost use Rattle.outcome_definitions.specs.Answers.{IsOutcome};
ghost use Rattle.workbench.specs.Runs.{IsAnswered};
ghost use Rattle.trinorm_c.specs.Calls.{words_of};

use command_answers::Outcome;
use out_of_memory::NoMemory;
use std::alloc::{AllocError, Global};
use text_io::Words;
use workbench::outcome_of;

/// The words of `text` as slices.
fn parts(alloc: Global, text: &str) -> Result<Vec<&str>, AllocError>
    ensures { IfOk result (λ v. map (λ x. x.now) v.items ≡ slice_split (λ b. b == 0) text.now) }
{
    text.split('\0').collect(alloc)
}

/// The words of `text`, which has a zero byte between each two.
fn words_between(alloc: Global, text: &str) -> Result<Words, NoMemory>
    ensures { IfOk result (λ words. words ≡ words_of text.now) }
{
    let parts = parts(alloc, text)?;
    let mut words = Words::new(alloc);
    for part in &parts {
        words.push(part)?;
    }
    Ok(words)
}

/// The outcome for the words of `text`, which has a zero byte between each two, and the input `input`. Its status is
/// never `ReadFault`, `WriteFault` or `NoMemory`. Fails with `NoMemory` if memory runs out.
pub fn outcome_between(alloc: Global, text: &str, input: &[u8]) -> Result<Outcome, NoMemory>
    ensures outcome { IfOk result (λ o. IsOutcome (words_of text.now) input.now o) }
    ensures answered { IfOk result (λ o. IsAnswered o.status) }
{
    let words = words_between(alloc, text)?;
    outcome_of(alloc, &words, input)
}
