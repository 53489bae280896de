//! A source and a sink in memory that fail at listed calls, for tests.
//!
//! - `MemorySource`: a source with a greatest number of bytes for each read
//! - `MemorySink`: a sink with a capacity, and a greatest number of bytes for each write
//!
//! Contracts state each call's result and the state after it, failures included.
#![tactic(auto)]

ghost use Rattle.std.specs.Prelude.{◌≡◌, ◌↔◌, ◌⊎◌, ◌-◌, ◌<◌, ◌≤◌, [], ◌++◌, length, take, drop, min, Some, Contains, IfOk, OnErr, IsErr};
ghost use Rattle.text_io.specs.Causes.{next_count};

use out_of_memory::NoMemory;
use std::alloc::Global;
use std::marker::Model;
use text_io::{Failed, Sink, Source, copy_front};

/// A source over bytes in memory. It fails at the calls listed in `failing`, counted from 1, and returns at most `most`
/// bytes in each other call. Contracts see the bytes left, `failing`, `most`, and the numbers of calls and of failures.
/// Invariant: `most` is positive, and `at` is at most the number of bytes.
#[derive(Drop)]
pub struct MemorySource {
    bytes: Vec<u8>,
    at: usize,
    failing: Vec<u64>,
    most: usize,
    calls: u64,
    faults: u64,
}

impl Model for MemorySource {
    ghost use Rattle.std.specs.Prelude.{◌<◌, ◌≤◌, drop, length};
    ghost use Rattle.memory_io.specs.Memory.{MemoryInput};

    ghost Value = { MemoryInput };

    ghost view = { λ s. record { left = drop s.at s.bytes.items; failing = s.failing.items; most = s.most; calls = s.calls; faults = s.faults } };

    ghost invariant = { λ s. (s.at ≤ length s.bytes.items) × (0 < s.most) };
}

impl MemorySource {
    /// A source of `bytes` that fails at the calls listed in `failing`, counted from 1, and returns at most `most`
    /// bytes in each other call; `most` is positive.
    pub fn new(bytes: Vec<u8>, failing: Vec<u64>, most: usize) -> MemorySource
        requires { 0 < most }
        ensures { result ≡ record { left = bytes.items; failing = failing.items; most = most; calls = 0; faults = 0 } }
    {
        MemorySource {
            bytes,
            at: 0,
            failing,
            most,
            calls: 0,
            faults: 0,
        }
    }
}

impl Source for MemorySource {
    ghost left = { λ s. Some s.left };

    ghost faults = { λ s. s.faults };

    fn read(&mut self, buf: &mut [u8]) -> Result<usize, Failed>
        requires { 0 < length buf.old }
        ensures fails { IsErr result ↔ Contains self.old.failing (next_count self.old.calls) }
        ensures fault { OnErr result (self.new
            ≡ record self.old { calls = next_count self.old.calls; faults = next_count self.old.faults }) }
        ensures gives { IfOk result (λ n. n ≡ min (min (length buf.old) self.old.most) (length self.old.left)) }
        ensures bytes { IfOk result (λ n. take n buf.new ≡ take n self.old.left) }
        ensures rest { IfOk result (λ n.
            self.new ≡ record self.old { left = drop n self.old.left; calls = next_count self.old.calls }) }
        ensures end { IfOk result (λ n. (n ≡ 0) ↔ (self.old.left ≡ [])) }
        ensures later { self.old.faults ≤ self.new.faults }
    {
        self.calls = self.calls.saturating_add(1);
        if self.failing.contains(&self.calls) {
            self.faults = self.faults.saturating_add(1);
            return Err(Failed);
        }
        let count = copy_front(&self.bytes[self.at..], buf, self.most);
        self.at += count;
        Ok(count)
    }
}

/// A sink in memory. It fails at the calls listed in `failing`, counted from 1, and at every call once `room` bytes are
/// held; any other call takes at most `most` bytes. Invariant: memory for all `room` bytes is allocated.
#[derive(Drop)]
pub struct MemorySink {
    held: Vec<u8>,
    room: usize,
    failing: Vec<u64>,
    most: usize,
    calls: u64,
    faults: u64,
}

impl Model for MemorySink {
    ghost use Rattle.std.specs.Prelude.{◌<◌, ◌≤◌, length, vec_capacity};
    ghost use Rattle.memory_io.specs.Memory.{MemoryOutput};

    ghost Value = { MemoryOutput };

    ghost view = { λ s. record { held = s.held.items; room = s.room; failing = s.failing.items; most = s.most; calls = s.calls; faults = s.faults } };

    ghost invariant = { λ s. (length s.held.items ≤ s.room) × (s.room ≤ vec_capacity s.held) × (0 < s.most) };
}

impl MemorySink {
    /// An empty sink for `room` bytes, whose memory is allocated here. It fails at the calls listed in `failing`,
    /// counted from 1, and once it is full; any other call takes at most `most` bytes, and `most` is positive.
    pub fn new(
        alloc: Global,
        room: usize,
        failing: Vec<u64>,
        most: usize,
    ) -> Result<MemorySink, NoMemory>
        requires { 0 < most }
        ensures { IfOk result (λ s.
            s ≡ record { held = []; room = room; failing = failing.items; most = most; calls = 0; faults = 0 }) }
    {
        Ok(MemorySink {
            held: Vec::with_capacity(alloc, room)?,
            room,
            failing,
            most,
            calls: 0,
            faults: 0,
        })
    }

    /// The bytes that were written.
    pub fn bytes(&self) -> &[u8]
        ensures { result.now ≡ self.now.held }
    {
        &self.held
    }
}

impl Sink for MemorySink {
    ghost held = { λ s. Some s.held };

    ghost faults = { λ s. s.faults };

    fn write(&mut self, piece: &[u8]) -> Result<usize, Failed>
        requires { 0 < length piece.now }
        ensures fails { IsErr result ↔ (Contains self.old.failing (next_count self.old.calls)
            ⊎ (self.old.room ≤ length self.old.held)) }
        ensures fault { OnErr result (self.new
            ≡ record self.old { calls = next_count self.old.calls; faults = next_count self.old.faults }) }
        ensures takes { IfOk result (λ n.
            n ≡ min (min (length piece.now) self.old.most) (self.old.room - length self.old.held)) }
        ensures bytes { IfOk result (λ n.
            self.new ≡ record self.old {
              held = self.old.held ++ take n piece.now;
              calls = next_count self.old.calls;
            }) }
        ensures count { IfOk result (λ n. (0 < n) × (n ≤ length piece.now)) }
        ensures later { self.old.faults ≤ self.new.faults }
    {
        self.calls = self.calls.saturating_add(1);
        let free = self.room - self.held.len();
        if free == 0 || self.failing.contains(&self.calls) {
            self.faults = self.faults.saturating_add(1);
            return Err(Failed);
        }
        let count = piece.len().min(self.most).min(free);
        self.held.extend_from_slice(&piece[..count]).unwrap();
        Ok(count)
    }
}
