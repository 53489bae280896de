//! The workbench for callers in C, as one call that does all that the program does, in memory that the caller provides.
#![tactic(auto)]

mod words;

ghost use Rattle.std.specs.Prelude.{◌≡◌, ◌↔◌, ◌<◌, length, take, drop};
ghost use Rattle.std.specs.Str.{IsUtf8};
ghost use Rattle.trinorm_c.specs.Calls.{words_of, IsCallAnswer, IsLonger, IsCallStatus, IsHandedOut};

use command_answers::Outcome;
use out_of_memory::NoMemory;
use std::alloc::Global;
use words::outcome_between;
use workbench::exit_code;

/// The status if the answer is longer than the room for it.
const TOO_LITTLE_ROOM: u8 = 7;

/// The status if memory runs out.
const NO_MEMORY: u8 = 8;

/// The status if the words are not UTF-8.
const NO_WORDS: u8 = 9;

/// Copies an outcome's text into `answer` if it fits, writes its length to `needed`, and returns the status.
fn copy_out(outcome: &Outcome, answer: &mut [u8], needed: &mut usize) -> u8
    ensures { IsHandedOut outcome.now result answer.old answer.new needed.new }
{
    let text = outcome.text();
    *needed = text.len();
    if answer.len() < text.len() {
        return TOO_LITTLE_ROOM;
    }
    answer[..text.len()].copy_from_slice(text);
    exit_code(outcome.status())
}

/// Answers `words` and `input` as the program does. `words` has a zero byte between each two words. The answer is
/// written to the front of `answer`, and its length to `needed`. Returns the program's status 0, 2, 3, 4 or 5;
/// otherwise 7 if the answer is longer than `answer`, which is then unchanged, with the length that it needs in
/// `needed`; 8 if memory runs out; 9 if `words` is not UTF-8.
#[unsafe(no_mangle)]
pub extern "C" fn trinorm_answer(
    alloc: Global,
    words: &[u8],
    input: &[u8],
    answer: &mut [u8],
    needed: &mut usize,
) -> u8
    ensures statuses { IsCallStatus result }

    // A status below 6 is that of the outcome for the words and the input, whose text is in the first `needed` bytes.
    ensures answered { result < 6 → IsCallAnswer (words_of words.now) input.now result (take needed.new answer.new)
        needed.new }

    // With status 7 that text is longer than the room, and `needed` is its length.
    ensures longer { result ≡ 7 → IsLonger (words_of words.now) input.now (length answer.old) needed.new }

    // Status 9 is returned if and only if the words are not UTF-8. With status 8 or 9 `needed` is 0.
    ensures not_text { (result ≡ 9) ↔ (IsUtf8 words.now → ⊥) }
    ensures no_answer { 7 < result → needed.new ≡ 0 }

    // The bytes after the answer are unchanged, and all bytes if there is no answer.
    ensures rest { drop needed.new answer.new ≡ drop needed.new answer.old }
    ensures untouched { 6 < result → answer.new ≡ answer.old }
{
    *needed = 0;
    let Ok(text) = str::from_utf8(words) else {
        return NO_WORDS;
    };
    match outcome_between(alloc, text, input) {
        Ok(outcome) => copy_out(&outcome, answer, needed),
        Err(NoMemory) => NO_MEMORY,
    }
}
