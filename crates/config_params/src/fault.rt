//! Why parameters were not taken.

ghost use Rattle.std.specs.Prelude.{◌≡◌};
ghost use Rattle.config_params.specs.Faults.{number, place};
ghost use Rattle.config_params.specs.declared.fault.ParamsFault.TheVariants.{NoMemory};

use std::alloc::{AllocError, AllocFailed};
use thiserror::Error;

/// Why parameters were not taken. The place is the number of a line or of an argument, from 1.
#[derive(Clone, Copy, PartialEq, Eq, Debug, Error)]
pub enum ParamsFault {
    /// The memory ran out.
    #[error("no memory")]
    NoMemory,
    /// No equals sign stands there (refusal 30).
    #[error("no equals sign at {0}")]
    NoEquals(usize),
    /// Nothing stands before the equals sign there (refusal 31).
    #[error("an empty key at {0}")]
    EmptyKey(usize),
}

impl ParamsFault {
    /// The refusal's number, and 0 where the memory ran out.
    pub fn number(self) -> u8
        ensures { result ≡ number self }
    {
        match self {
            ParamsFault::NoMemory => 0,
            ParamsFault::NoEquals(_) => 30,
            ParamsFault::EmptyKey(_) => 31,
        }
    }

    /// The line or the argument that the refusal is about, from 1.
    pub fn place(self) -> Option<u64>
        ensures { result ≡ place self }
    {
        match self {
            ParamsFault::NoMemory => None,
            ParamsFault::NoEquals(place) | ParamsFault::EmptyKey(place) => Some(place as u64),
        }
    }
}

impl From<AllocError> for ParamsFault {
    ghost from_gives = { λ _ e. e ≡ NoMemory };

    fn from(_error: AllocError) -> ParamsFault {
        ParamsFault::NoMemory
    }
}

impl<T: Drop> From<AllocFailed<T>> for ParamsFault {
    ghost from_gives = { λ _ e. e ≡ NoMemory };

    fn from(_failed: AllocFailed<T>) -> ParamsFault {
        ParamsFault::NoMemory
    }
}
