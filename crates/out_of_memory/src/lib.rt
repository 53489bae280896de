//! The error of a call that runs out of memory, alone and together with the errors of the call's own definition.
//!
//! - `NoMemory`: the error of calls that fail in no other way
//! - `Failure<F>`: that error, or an error `F` of the call's definition
//!
//! Contracts state when `Fault` is returned and what it names. They do not state when memory runs out.
#![tactic(auto)]

ghost use Rattle.std.specs.Prelude.{◌≡◌};
ghost use Rattle.out_of_memory.specs.declared.Failure.TheVariants as failures;

use std::alloc::{AllocError, AllocFailed};
use std::error::Error;
use std::fmt;

/// Memory ran out during a call.
#[derive(Clone, Copy, Debug)]
pub struct NoMemory;

impl fmt::Display for NoMemory {
    fn fmt<W: fmt::Write>(&self, f: &mut fmt::Formatter<W>) -> fmt::Result {
        write!(f, "no memory")
    }
}

impl Error for NoMemory {}

impl From<AllocError> for NoMemory {
    fn from(_error: AllocError) -> NoMemory {
        NoMemory
    }
}

impl<T: Drop> From<AllocFailed<T>> for NoMemory {
    fn from(_failed: AllocFailed<T>) -> NoMemory {
        NoMemory
    }
}

/// Why a call returns no value: memory ran out, or the error `F` of its definition.
#[derive(Clone, Copy, Drop)]
pub enum Failure<F> {
    NoMemory,
    Fault(F),
}

impl<F> From<NoMemory> for Failure<F> {
    ghost from_gives = { λ _ e. e ≡ failures.NoMemory };

    fn from(_error: NoMemory) -> Failure<F> {
        Failure::NoMemory
    }
}

impl<F> From<AllocError> for Failure<F> {
    ghost from_gives = { λ _ e. e ≡ failures.NoMemory };

    fn from(_error: AllocError) -> Failure<F> {
        Failure::NoMemory
    }
}

impl<F, T: Drop> From<AllocFailed<T>> for Failure<F> {
    ghost from_gives = { λ _ e. e ≡ failures.NoMemory };

    fn from(_failed: AllocFailed<T>) -> Failure<F> {
        Failure::NoMemory
    }
}
