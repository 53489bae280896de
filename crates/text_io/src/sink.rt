//! The trait of sinks of bytes.
ghost use Rattle.std.specs.Prelude.{◌≡◌, ◌<◌, ◌≤◌, ℕ, List, Option, length, take, IfOk, OnOk, OnErr};
ghost use Rattle.text_io.specs.Causes.{Grows, Rose};

use crate::Failed;

/// A sink of bytes.
pub trait Sink {
    /// The bytes that the sink holds, if its contents are visible to contracts.
    ghost held: { Self → Option (List ℕ) };

    /// The number of its failures, up to 2^64 - 1.
    ghost faults: { Self → ℕ };

    /// Appends the first bytes of `piece`, at least one, and returns how many. Fails with `Failed`, and then appends
    /// nothing; `piece` is not empty.
    fn write(&mut self, piece: &[u8]) -> Result<usize, Failed>
        requires { 0 < length piece.now }

        ensures count { IfOk result (λ n. (0 < n) × (n ≤ length piece.now)) }
        ensures appended { IfOk result (λ n. Grows (held self.old) (held self.new) (take n piece.now)) }

        // Fails only if `faults` grew.
        ensures failed { OnErr result (Rose (faults self.old) (faults self.new)) }
        ensures untouched { OnErr result (held self.new ≡ held self.old) }
        ensures ok { OnOk result (faults self.new ≡ faults self.old) }
        ensures later { faults self.old ≤ faults self.new };
}
