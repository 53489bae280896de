//! The outcome of a run of the program: its exit status and its text, for each list of words and each input. The
//! definitions are in `specs/`.
//!
//! Words: an *answer* to a request on an input is an exit status with a text.
#![tactic(auto)]

ghost use Rattle.outcome_definitions.specs.Laws.{StatusesAreOwn};

use sum_definitions::AddFault;
use surface_definitions::VectorFault;

/// How a run ends. The number is the exit status of the program.
#[derive(Clone, Copy, PartialEq, Eq)]
pub enum Status {
    /// 0: the whole answer was written.
    Done,
    /// 2: the words are no command with its options.
    Usage,
    /// 3: the input is too long, or no document of the command.
    Input,
    /// 4: a check of the command refused the document.
    Refused,
    /// 5: a number exceeds the limit.
    Large,
    /// 6: the source failed.
    ReadFault,
    /// 7: the sink failed, after a proper prefix of the text.
    WriteFault,
    /// 8: memory ran out, and nothing was written.
    NoMemory,
}

/// Why a vector is not answered as a sum, or a sum is not accepted.
#[derive(Clone, Copy)]
pub enum SumRefusal {
    /// The vector is no admissible solution.
    Unfit { fault: VectorFault },
    /// The term with this number, counted from 0, is no admissible solution.
    UnfitTerm { term: usize, fault: VectorFault },
    /// At this step, counted from 0, an entry of the vector, times its factor, exceeds the limit; the first such
    /// column.
    LargeTimes { turn: u32, column: u32 },
    /// The terms do not add up to the multiple of the vector.
    NoSum { fault: AddFault },
}

/// Lemma: each answer to a request, on any input, has exit status 0, 3, 4 or 5: done, a faulty input, refused, or a
/// number above the limit.
pub fn statuses_are_own()
    ensures { StatusesAreOwn }
{}
