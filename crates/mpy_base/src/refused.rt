//! The two ways in which a call gives no answer.

ghost use Rattle.std.specs.Prelude.{◌≡◌};
ghost use Rattle.mpy_base.specs.declared.refused.Refused.TheVariants as refused;

use std::alloc::{AllocError, AllocFailed};
use thiserror::Error;

/// Memory wasn't found.
#[derive(Clone, Copy, Debug, PartialEq, Eq, Error)]
#[error("out of memory")]
pub struct NoMemory;

impl From<AllocError> for NoMemory {
    fn from(_error: AllocError) -> NoMemory {
        NoMemory
    }
}

impl<T: Drop> From<AllocFailed<T>> for NoMemory {
    fn from(_error: AllocFailed<T>) -> NoMemory {
        NoMemory
    }
}

/// Why a call that takes memory gives no answer: a fault of what it was given, or want of memory.
#[derive(Debug, Drop)]
pub enum Refused<F> {
    Fault(F),
    NoMemory,
}

impl<F> From<NoMemory> for Refused<F> {
    ghost from_gives = { λ _ e. e ≡ refused.NoMemory };

    fn from(_error: NoMemory) -> Refused<F> {
        Refused::NoMemory
    }
}

impl<F> From<AllocError> for Refused<F> {
    ghost from_gives = { λ _ e. e ≡ refused.NoMemory };

    fn from(_error: AllocError) -> Refused<F> {
        Refused::NoMemory
    }
}

impl<F, T: Drop> From<AllocFailed<T>> for Refused<F> {
    ghost from_gives = { λ _ e. e ≡ refused.NoMemory };

    fn from(_error: AllocFailed<T>) -> Refused<F> {
        Refused::NoMemory
    }
}
