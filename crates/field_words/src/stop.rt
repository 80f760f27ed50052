//! Answers for want of memory.
ghost use Rattle.std.specs.Prelude.{◌≡◌};
ghost use Rattle.field_words.specs.declared.stop.Stop.TheVariants.{NoMemory as OutOfMemory};
ghost use Rattle.field_words.specs.Stops.{IfFault, IsFaultAnd};

use std::alloc::{AllocError, AllocFailed};
use std::fmt::Display;
use thiserror::Error;

/// Memory ran out. It may come from any call that allocates, and says nothing else.
#[derive(Clone, Copy, Debug, PartialEq, Eq, Error)]
#[error("memory ran out")]
pub struct NoMemory;

impl From<AllocError> for NoMemory {
    fn from(_error: AllocError) -> NoMemory {
        NoMemory
    }
}

impl<T: Drop> From<AllocFailed<T>> for NoMemory {
    fn from(_error: AllocFailed<T>) -> NoMemory {
        NoMemory
    }
}

/// Why a call stopped: a fault of its input, or want of memory. The two are never merged.
#[derive(Clone, Copy, Debug, PartialEq, Eq, Error)]
#[error_bound(F: Display)]
pub enum Stop<F> {
    /// A rule is broken by the input.
    #[error("{0}")]
    Fault(F),
    /// Memory ran out.
    #[error("memory ran out")]
    NoMemory,
}

impl<F> From<AllocError> for Stop<F> {
    ghost from_gives = { λ _ stop. stop ≡ OutOfMemory };

    fn from(_error: AllocError) -> Stop<F> {
        Stop::NoMemory
    }
}

impl<F, T: Drop> From<AllocFailed<T>> for Stop<F> {
    ghost from_gives = { λ _ stop. stop ≡ OutOfMemory };

    fn from(_error: AllocFailed<T>) -> Stop<F> {
        Stop::NoMemory
    }
}

impl<F> From<NoMemory> for Stop<F> {
    ghost from_gives = { λ _ stop. stop ≡ OutOfMemory };

    fn from(_error: NoMemory) -> Stop<F> {
        Stop::NoMemory
    }
}

impl<F> Stop<F> {
    /// The same stop, with its fault changed.
    pub fn map_fault<G, C: FnOnce(F) -> G>(self, change: C) -> Stop<G>
        requires { IfFault self (C.pre change) }
        ensures fault { IfFault self (λ fault. IsFaultAnd result (C.post change fault)) }
        ensures memory { self ≡ OutOfMemory → result ≡ OutOfMemory }
    {
        match self {
            Stop::Fault(fault) => Stop::Fault(change(fault)),
            Stop::NoMemory => Stop::NoMemory,
        }
    }
}
