//! Reads all bytes of a source, and writes all bytes of a list.
ghost use Rattle.std.specs.Prelude.{◌≡◌, ◌↔◌, ◌+◌, ◌-◌, ◌^◌, ◌<◌, ◌≤◌, ℕ, List, [], length, take, IfOk, IfSome, OnOk, OnErr, IsOk, IsErr, IsErrOf, Err};
ghost use Rattle.text_io.specs.Causes.{TakesBytes, Grows, IsEnded};

use crate::{Failed, Sink, Source};
use std::alloc::{AllocError, Global};

/// The least number of bytes that one read asks for, if there is room for them.
const FEWEST_ASKED: usize = 4096;

/// The greatest number of bytes that one read asks for.
const MOST_ASKED: usize = 65536;

/// Why `read_all` fails.
#[derive(Clone, Copy)]
pub enum ReadEnd {
    /// The source failed.
    Failed,
    /// The source has more bytes than the limit.
    TooLong,
    /// Memory ran out, before the first read.
    NoMemory,
}

impl From<Failed> for ReadEnd {
    ghost use Rattle.text_io.specs.declared.transfer.ReadEnd.TheVariants.{Failed as failed_end};

    ghost from_gives = { λ _ e. e ≡ failed_end };

    fn from(_: Failed) -> Self {
        ReadEnd::Failed
    }
}

impl From<AllocError> for ReadEnd {
    ghost use Rattle.text_io.specs.declared.transfer.ReadEnd.TheVariants.{NoMemory as no_memory};

    ghost from_gives = { λ _ e. e ≡ no_memory };

    fn from(_: AllocError) -> Self {
        ReadEnd::NoMemory
    }
}

/// The number of bytes that the next read asks for, if `len` bytes were read and `room` more fit. It grows with `len`:
/// most inputs are short, and each requested byte is written before the read.
fn read_length(len: usize, room: usize) -> usize
    requires { 0 < room }
    ensures some { 0 < result }
    ensures within { result ≤ room }
{
    room.min(len.max(FEWEST_ASKED).min(MOST_ASKED))
}

/// Reads all bytes that are left in `source`. Allocates before the first read, and fails with `NoMemory` if that is
/// impossible; then with `Failed` if the source fails, or with `TooLong` if more than `limit` bytes are left. Reads at
/// most `limit` + 1 bytes.
pub fn read_all<S: Source>(alloc: Global, source: &mut S, limit: u64) -> Result<Vec<u8>, ReadEnd>
    requires { limit < 2 ^ 63 }

    ensures all { IfOk result (λ bytes. TakesBytes (S.left source.old) (S.left source.new) bytes.items) }
    ensures end { OnOk result (IsEnded (S.left source.new)) }
    ensures within { IfOk result (λ bytes. length bytes.items ≤ limit) }

    // At most `limit` + 1 bytes are read; they are more than `limit` if and only if the error is `TooLong`.
    ensures too_long { IsErrOf result ReadEnd.TooLong → IfSome (S.left source.old) (λ bytes. limit < length bytes) }
    ensures taken { (taken : List ℕ) × TakesBytes (S.left source.old) (S.left source.new) taken
        × (length taken ≤ limit + 1) × (IsErrOf result ReadEnd.TooLong ↔ (limit < length taken)) }

    // Fails with `Failed` if and only if the count of `source` grew.
    ensures failed { S.faults source.old < 2 ^ 64 - 1
        → (IsErrOf result ReadEnd.Failed ↔ (S.faults source.old < S.faults source.new)) }
    ensures later { S.faults source.old ≤ S.faults source.new }
    ensures no_memory { IsErrOf result ReadEnd.NoMemory → source.new ≡ source.old }
{
    let most = limit as usize + 1;
    // reserves only, so that a short input touches little of it
    let mut bytes = Vec::with_capacity(alloc, most)?;
    while bytes.len() < most {
        let len = bytes.len();
        bytes.resize(len + read_length(len, most - len), 0)?;
        let count = source.read(&mut bytes[len..])?;
        bytes.truncate(len + count);
        if count == 0 {
            return Ok(bytes);
        }
    }
    Err(ReadEnd::TooLong)
}

/// Writes all of `bytes` to `sink`; calls nothing if there are none. Fails with `Failed` if the sink does, and then a
/// proper prefix of `bytes` is written.
pub fn write_all<K: Sink>(sink: &mut K, bytes: &[u8]) -> Result<(), Failed>
    ensures all { OnOk result (Grows (K.held sink.old) (K.held sink.new) bytes.now) }
    ensures prefix { OnErr result ((n : ℕ) × (n < length bytes.now)
        × Grows (K.held sink.old) (K.held sink.new) (take n bytes.now)) }

    // Fails if and only if the count of `sink` grew.
    ensures failed { K.faults sink.old < 2 ^ 64 - 1 → (IsErr result ↔ (K.faults sink.old < K.faults sink.new)) }
    ensures later { K.faults sink.old ≤ K.faults sink.new }
    ensures none { bytes.now ≡ [] → IsOk result × (sink.new ≡ sink.old) }
{
    let mut written = 0;
    while written < bytes.len() {
        written += sink.write(&bytes[written..])?;
    }
    Ok(())
}
