//! The trait of sources of bytes.
ghost use Rattle.std.specs.Prelude.{◌≡◌, ◌↔◌, ◌<◌, ◌≤◌, ℕ, List, [], Option, length, take, IfOk, OnOk, OnErr, IfSome};
ghost use Rattle.text_io.specs.Causes.{TakesBytes, Rose};

use crate::Failed;

/// A source of bytes.
pub trait Source {
    /// The bytes that are left, if they are visible to contracts.
    ghost left: { Self → Option (List ℕ) };

    /// The number of its failures, up to 2^64 - 1.
    ghost faults: { Self → ℕ };

    /// Moves the next bytes to the front of `buf`, and returns how many; 0 is the end of the input. Fails with
    /// `Failed`, and then reads nothing; `buf` is not empty.
    fn read(&mut self, buf: &mut [u8]) -> Result<usize, Failed>
        requires { 0 < length buf.old }

        ensures count { IfOk result (λ n. n ≤ length buf.new) }
        ensures taken { IfOk result (λ n. TakesBytes (left self.old) (left self.new) (take n buf.new)) }
        ensures end { IfOk result (λ n. IfSome (left self.old) (λ bytes. (n ≡ 0) ↔ (bytes ≡ []))) }

        // Fails only if `faults` grew.
        ensures failed { OnErr result (Rose (faults self.old) (faults self.new)) }
        ensures untouched { OnErr result (left self.new ≡ left self.old) }
        ensures ok { OnOk result (faults self.new ≡ faults self.old) }
        ensures later { faults self.old ≤ faults self.new };
}
