//! The error of the elimination.

use out_of_memory::NoMemory;
use std::alloc::{AllocError, AllocFailed};

/// Why an elimination fails: `Passed` if a coefficient of a sum exceeds 1,000,000; `NoMemory` if memory, or the room of
/// a system, runs out.
#[derive(Clone, Copy)]
pub enum SolveFault {
    Passed,
    NoMemory,
}

impl From<NoMemory> for SolveFault {
    ghost use Rattle.std.specs.Prelude.{◌≡◌};
    ghost use Rattle.row_reduction.specs.declared.fault.SolveFault.TheVariants.{NoMemory};

    ghost from_gives = { λ _ fault. fault ≡ NoMemory };

    fn from(_error: NoMemory) -> SolveFault {
        SolveFault::NoMemory
    }
}

impl From<AllocError> for SolveFault {
    ghost use Rattle.std.specs.Prelude.{◌≡◌};
    ghost use Rattle.row_reduction.specs.declared.fault.SolveFault.TheVariants.{NoMemory};

    ghost from_gives = { λ _ fault. fault ≡ NoMemory };

    fn from(_error: AllocError) -> SolveFault {
        SolveFault::NoMemory
    }
}

impl<T: Drop> From<AllocFailed<T>> for SolveFault {
    ghost use Rattle.std.specs.Prelude.{◌≡◌};
    ghost use Rattle.row_reduction.specs.declared.fault.SolveFault.TheVariants.{NoMemory};

    ghost from_gives = { λ _ fault. fault ≡ NoMemory };

    fn from(_failed: AllocFailed<T>) -> SolveFault {
        SolveFault::NoMemory
    }
}
