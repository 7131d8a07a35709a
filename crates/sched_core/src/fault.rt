//! Why a core is not made, or a step is not taken.

ghost use Rattle.std.specs.Prelude.{◌≡◌};
ghost use Rattle.sched_core.specs.declared.fault.CoreFault.TheVariants.{NoMemory};

use std::alloc::{AllocError, AllocFailed};
use thiserror::Error;

/// Why a core was not made, or steps were not run.
#[derive(Clone, Copy, Debug, Error)]
pub enum CoreFault {
    /// Want of memory: refusal 0.
    #[error("no memory")]
    NoMemory,
    /// A run needs a worker: refusal 60.
    #[error("no workers")]
    NoWorkers,
    /// A run has at most 64 workers: refusal 61.
    #[error("more than 64 workers")]
    TooManyWorkers,
}

impl From<AllocError> for CoreFault {
    ghost from_gives = { λ _ e. e ≡ NoMemory };

    fn from(_error: AllocError) -> CoreFault {
        CoreFault::NoMemory
    }
}

impl<T: Drop> From<AllocFailed<T>> for CoreFault {
    ghost from_gives = { λ _ e. e ≡ NoMemory };

    fn from(_error: AllocFailed<T>) -> CoreFault {
        CoreFault::NoMemory
    }
}

/// The step is not possible now: refusal 62.
#[derive(Clone, Copy, PartialEq, Eq, Debug, Error)]
#[error("not enabled")]
pub struct NotEnabled;
