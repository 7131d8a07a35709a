//! Why a text is no saved run.

ghost use Rattle.std.specs.Prelude.{◌≡◌};
ghost use Rattle.saved_runs.specs.Faults.{number_of, place_of};
ghost use Rattle.saved_runs.specs.declared.fault.SavedFault.TheVariants.{NoMemory};

use std::alloc::{AllocError, AllocFailed};
use thiserror::Error;

/// Why a text is no saved run.
#[derive(Clone, Copy, Debug, Error)]
pub enum SavedFault {
    #[error("no memory")]
    NoMemory,
    /// The line of this number, from 1, is neither one of a feed nor one of the JSON of a run.
    #[error("no line of a run at {0}")]
    BadLine(usize),
}

impl From<AllocError> for SavedFault {
    ghost from_gives = { λ _ fault. fault ≡ NoMemory };

    fn from(_error: AllocError) -> SavedFault {
        SavedFault::NoMemory
    }
}

impl<T: Drop> From<AllocFailed<T>> for SavedFault {
    ghost from_gives = { λ _ fault. fault ≡ NoMemory };

    fn from(_error: AllocFailed<T>) -> SavedFault {
        SavedFault::NoMemory
    }
}

impl SavedFault {
    /// The refusal's number.
    pub fn number(&self) -> u8
        ensures { result ≡ number_of self.now }
    {
        match self {
            SavedFault::NoMemory => 0,
            SavedFault::BadLine(_) => 109,
        }
    }

    /// The number of the line, from 1, that the refusal is about, where it is about one.
    pub fn place(&self) -> Option<u64>
        ensures { result ≡ place_of self.now }
    {
        match self {
            SavedFault::NoMemory => None,
            SavedFault::BadLine(number) => Some(*number as u64),
        }
    }
}
