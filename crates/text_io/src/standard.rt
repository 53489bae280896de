//! Sources and sinks over the readers and writers of the standard library, whose contents contracts do not see.
ghost use Rattle.std.specs.Prelude.{◌≡◌, ◌<◌, ◌≤◌, length, None, IfOk, OnOk, OnErr};
ghost use Rattle.text_io.specs.Causes.{next_count};

use crate::{Failed, Sink, Source};
use std::io::{Read, Write};
use std::marker::Model;

/// A source over a reader. Contracts see the number of the reader's errors, up to 2^64 - 1.
#[derive(Drop)]
pub struct StdSource<R> {
    input: R,
    faults: u64,
}

impl<R> Model for StdSource<R> {
    ghost use Rattle.std.specs.Prelude.{ℕ};

    ghost Value = { ℕ };

    ghost view = { λ s. s.faults };
}

impl<R: Read + Drop> StdSource<R> {
    /// A source over `input`, with no error counted.
    pub fn new(input: R) -> StdSource<R>
        ensures { result ≡ 0 }
    {
        StdSource { input, faults: 0 }
    }
}

impl<R: Read + Drop> Source for StdSource<R> {
    ghost left = { λ _. None };

    ghost faults = { λ s. s };

    fn read(&mut self, buf: &mut [u8]) -> Result<usize, Failed>
        requires { 0 < length buf.old }
        ensures count { IfOk result (λ n. n ≤ length buf.new) }
        ensures fault { OnErr result (self.new ≡ next_count self.old) }
        ensures ok { OnOk result (self.new ≡ self.old) }
        ensures later { self.old ≤ self.new }
    {
        match self.input.read(buf) {
            Ok(count) => Ok(count),
            Err(_) => {
                self.faults = self.faults.saturating_add(1);
                Err(Failed)
            }
        }
    }
}

/// A sink over a writer, which it flushes after each write. Contracts see the number of failures: errors of the writer,
/// writes of no byte, and failed flushes.
#[derive(Drop)]
pub struct StdSink<W> {
    output: W,
    faults: u64,
}

impl<W> Model for StdSink<W> {
    ghost use Rattle.std.specs.Prelude.{ℕ};

    ghost Value = { ℕ };

    ghost view = { λ s. s.faults };
}

impl<W: Write + Drop> StdSink<W> {
    /// A sink over `output`, with no failure counted.
    pub fn new(output: W) -> StdSink<W>
        ensures { result ≡ 0 }
    {
        StdSink { output, faults: 0 }
    }
}

impl<W: Write + Drop> Sink for StdSink<W> {
    ghost held = { λ _. None };

    ghost faults = { λ s. s };

    fn write(&mut self, piece: &[u8]) -> Result<usize, Failed>
        requires { 0 < length piece.now }
        ensures count { IfOk result (λ n. (0 < n) × (n ≤ length piece.now)) }
        ensures fault { OnErr result (self.new ≡ next_count self.old) }
        ensures ok { OnOk result (self.new ≡ self.old) }
        ensures later { self.old ≤ self.new }
    {
        let written = write_and_flush(&mut self.output, piece);
        if written.is_err() {
            self.faults = self.faults.saturating_add(1);
        }
        written
    }
}

/// Writes the first bytes of `piece`, at least one, flushes `output`, and returns how many. Fails if the write or the
/// flush fails, or if no byte was written.
fn write_and_flush<W: Write>(output: &mut W, piece: &[u8]) -> Result<usize, Failed>
    ensures { IfOk result (λ n. (0 < n) × (n ≤ length piece.now)) }
{
    let count = output.write(piece).map_err(|_| Failed)?;
    if count == 0 {
        return Err(Failed);
    }
    output.flush().map_err(|_| Failed)?;
    Ok(count)
}
