//! A source over bytes in memory that never fails.
ghost use Rattle.std.specs.Prelude.{◌≡◌, ◌↔◌, ◌<◌, [], length, take, drop, min, Some, IfOk, IsOk};

use crate::{Failed, Source};
use std::marker::Model;

/// A source over bytes in memory that never fails. Contracts see the bytes that are left. Invariant: `at` is at most
/// the number of bytes.
#[derive(Drop)]
pub struct SteadySource {
    bytes: Vec<u8>,
    at: usize,
}

impl Model for SteadySource {
    ghost use Rattle.std.specs.Prelude.{◌≤◌, ℕ, List, drop, length};

    ghost Value = { List ℕ };

    ghost view = { λ s. drop s.at s.bytes.items };

    ghost invariant = { λ s. s.at ≤ length s.bytes.items };
}

impl SteadySource {
    /// A source of `bytes`, of which it takes ownership.
    pub fn new(bytes: Vec<u8>) -> SteadySource
        ensures { result ≡ bytes.items }
    {
        SteadySource { bytes, at: 0 }
    }
}

impl Source for SteadySource {
    ghost left = { λ s. Some s };

    ghost faults = { λ _. 0 };

    fn read(&mut self, buf: &mut [u8]) -> Result<usize, Failed>
        requires { 0 < length buf.old }
        ensures never { IsOk result }
        ensures gives { IfOk result (λ n. n ≡ min (length buf.old) (length self.old)) }
        ensures bytes { IfOk result (λ n. take n buf.new ≡ take n self.old) }
        ensures rest { IfOk result (λ n. self.new ≡ drop n self.old) }
        ensures end { IfOk result (λ n. (n ≡ 0) ↔ (self.old ≡ [])) }
    {
        let count = copy_front(&self.bytes[self.at..], buf, usize::MAX);
        self.at += count;
        Ok(count)
    }
}

/// Copies the first bytes of `bytes` into the front of `buf`, as many as both have but at most `most`, and returns how
/// many.
pub fn copy_front(bytes: &[u8], buf: &mut [u8], most: usize) -> usize
    ensures count { result ≡ min (min (length buf.old) most) (length bytes.now) }
    ensures copied { take result buf.new ≡ take result bytes.now }
{
    let count = buf.len().min(most).min(bytes.len());
    buf[..count].copy_from_slice(&bytes[..count]);
    count
}
