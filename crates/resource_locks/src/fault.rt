//! Why there is no plan.

ghost use Rattle.std.specs.Prelude.{◌≡◌};
ghost use Rattle.resource_locks.specs.declared.fault.PlanFault.TheVariants.{NoMemory};

use std::alloc::{AllocError, AllocFailed};
use thiserror::Error;

/// Why there is no plan of a tree.
#[derive(Clone, Copy, Debug, Error)]
pub enum PlanFault {
    /// There was no memory for the plan.
    #[error("no memory")]
    NoMemory,
    /// Refusal 50: the nodes declare more than 256 keys, the global one included.
    #[error("more than 256 keys")]
    TooManyKeys,
}

impl PlanFault {
    ghost use Rattle.resource_locks.specs.Plans.{fault_number};

    /// The number of the refusal, or 0 for want of memory.
    pub fn number(self) -> u8
        ensures { result ≡ fault_number self }
    {
        match self {
            PlanFault::NoMemory => 0,
            PlanFault::TooManyKeys => 50,
        }
    }
}

impl From<AllocError> for PlanFault {
    ghost from_gives = { λ _ e. e ≡ NoMemory };

    fn from(_error: AllocError) -> PlanFault {
        PlanFault::NoMemory
    }
}

impl<T: Drop> From<AllocFailed<T>> for PlanFault {
    ghost from_gives = { λ _ e. e ≡ NoMemory };

    fn from(_failed: AllocFailed<T>) -> PlanFault {
        PlanFault::NoMemory
    }
}
