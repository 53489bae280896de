//! A run in memory.
ghost use Rattle.std.specs.Prelude.{◌<◌};

use memory_io::{MemorySink, MemorySource};
use std::alloc::Global;
use std::process::Abort;
use std::test::Fail;
use text_io::Words;
use workbench::{Status, run};

/// Words and an input, with the expected status and text.
#[derive(Clone, Copy)]
pub struct RunRow {
    pub words: &'static [&'static str],
    pub input: &'static [u8],
    pub status: Status,
    pub text: &'static [u8],
}

/// The status of a run, and what its sink holds.
#[derive(Drop)]
pub struct Ended {
    pub status: Status,
    pub text: Vec<u8>,
}

/// No call fails, and each transfers as much as possible.
pub const STEADY: u64 = 0;

/// Runs `words` over `input`, with room for the answer. The source fails at call `failing_read` and the sink at call
/// `failing_write`, counted from 1, or at none; each other call transfers at most `most` bytes.
pub fn answered(
    alloc: Global,
    words: &[&str],
    input: &[u8],
    failing_read: u64,
    failing_write: u64,
    most: usize,
) -> Result<Ended, Fail>
    requires { 0 < most }
{
    let mut named = Words::new(alloc);
    for word in words {
        named.push(word)?;
    }
    let mut source = MemorySource::new(input.to_vec(alloc)?, vec![in alloc; failing_read]?, most);
    let mut sink = MemorySink::new(alloc, 1 << 16, vec![in alloc; failing_write]?, most)?;
    let status = run(alloc, &named, &mut source, &mut sink);
    Ok(Ended {
        status,
        text: sink.bytes().to_vec(alloc)?,
    })
}

/// Runs `row` over a source that returns 7 bytes a call and fails at the first call, at the second, and further, until
/// a run succeeds. Each earlier run reports a failed read.
fn each_read_fails(rt: &impl Abort, alloc: Global, row: &RunRow) -> Result<(), Fail> {
    let mut is_answered = false;
    for call in 1..100 {
        let answer = answered(alloc, row.words, row.input, call, STEADY, 7)?;
        if answer.status == row.status {
            assert_eq!(rt; answer.text.as_slice(), row.text);
            is_answered = true;
            break;
        }
        assert!(rt; answer.status == Status::ReadFault);
        assert_eq!(rt; answer.text.as_slice(), b"refused: read\n".as_slice());
    }
    assert!(rt; is_answered);
    Ok(())
}

/// Runs `row` over a sink that takes 5 bytes a call and fails at the call that would exceed a number of bytes.
fn each_write_fails(rt: &impl Abort, alloc: Global, row: &RunRow) -> Result<(), Fail> {
    for held in 0..row.text.len() {
        if held % 5 == 0 {
            let answer = answered(alloc, row.words, row.input, STEADY, held as u64 / 5 + 1, 5)?;
            assert!(rt; answer.status == Status::WriteFault);
            assert_eq!(rt; answer.text.as_slice(), &row.text[..held]);
        }
    }
    let after = row.text.len() as u64 / 5 + 2;
    let answer = answered(alloc, row.words, row.input, STEADY, after, 5)?;
    assert!(rt; answer.status == row.status);
    assert_eq!(rt; answer.text.as_slice(), row.text);
    Ok(())
}

/// Asserts that each of `rows` has its status and its text. Of a short row each read and each write fails in turn.
pub fn are_answered(rt: &impl Abort, alloc: Global, rows: &[RunRow]) -> Result<(), Fail> {
    for row in rows {
        let answer = answered(alloc, row.words, row.input, STEADY, STEADY, 1 << 16)?;
        assert!(rt; answer.status == row.status);
        assert_eq!(rt; answer.text.as_slice(), row.text);
        if row.input.len() < 400 && row.text.len() < 300 {
            each_read_fails(rt, alloc, row)?;
            each_write_fails(rt, alloc, row)?;
        }
    }
    Ok(())
}
