//! Why parameters give no limits of locks.

ghost use Rattle.std.specs.Prelude.{◌≡◌};
ghost use Rattle.config_params.specs.declared.limits_fault.LimitsFault.TheVariants.{NoMemory, Refused};

use crate::settings_fault::SettingsFault;
use std::alloc::{AllocError, AllocFailed};
use thiserror::Error;

/// Why parameters give no limits of locks.
#[derive(Clone, Copy, Debug, Error)]
pub enum LimitsFault {
    /// There was not enough memory (refusal 0).
    #[error("not enough memory")]
    NoMemory,
    /// What they say is refused (35, 36).
    #[error("{0}")]
    Refused(SettingsFault),
}

impl From<AllocError> for LimitsFault {
    ghost from_gives = { λ _ fault. fault ≡ NoMemory };

    fn from(_error: AllocError) -> LimitsFault {
        LimitsFault::NoMemory
    }
}

impl<T: Drop> From<AllocFailed<T>> for LimitsFault {
    ghost from_gives = { λ _ fault. fault ≡ NoMemory };

    fn from(_error: AllocFailed<T>) -> LimitsFault {
        LimitsFault::NoMemory
    }
}

impl From<SettingsFault> for LimitsFault {
    ghost from_gives = { λ cause fault. fault ≡ Refused cause };

    fn from(cause: SettingsFault) -> LimitsFault {
        LimitsFault::Refused(cause)
    }
}
