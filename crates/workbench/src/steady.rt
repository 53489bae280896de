//! A run whose source and sink cannot fail.
ghost use Rattle.std.specs.Prelude.{◌≡◌, ◌≢◌, ◌⊎◌};
ghost use Rattle.outcome_definitions.specs.Outcomes as outcomes;
ghost use Rattle.outcome_definitions.specs.Answers.{IsOutcome};
ghost use Rattle.workbench.specs.Runs.{IsAnswered};

use crate::dispatch::run;
use outcome_definitions::Status;
use std::alloc::Global;
use text_io::{NullSink, SteadySource, Words};

/// Runs `words` on the input `bytes`, with a sink that discards the answer. Returns the status of the outcome, or
/// `NoMemory`; never `ReadFault` or `WriteFault`.
pub fn run_steadily(alloc: Global, words: &Words, bytes: Vec<u8>) -> Status
    ensures outcome { IsAnswered result → (o : outcomes.Outcome) × IsOutcome words.now bytes.items o
        × (result ≡ o.status) }
    ensures answered { IsAnswered result ⊎ (result ≡ Status.NoMemory) }
    ensures reads { result ≢ Status.ReadFault }
    ensures writes { result ≢ Status.WriteFault }
{
    let mut source = SteadySource::new(bytes);
    let mut sink = NullSink::new();
    run(alloc, words, &mut source, &mut sink)
}
