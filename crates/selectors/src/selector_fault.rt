//! Why a selector was not made.

ghost use Rattle.std.specs.Prelude.{◌≡◌};
ghost use Rattle.selectors.specs.declared.selector_fault.SelectorFault.TheVariants.{NoMemory};

use std::alloc::AllocError;
use thiserror::Error;

/// Why a selector was not made.
#[derive(Clone, Copy, PartialEq, Eq, Debug, Error)]
pub enum SelectorFault {
    /// The memory ran out.
    #[error("no memory")]
    NoMemory,
    /// The text is no selector of the kind (refusal 40).
    #[error("a text that is no selector")]
    BadSelector,
    /// A pattern of names that is empty (refusal 43).
    #[error("an empty pattern of names")]
    EmptyPattern,
}

impl SelectorFault {
    ghost use Rattle.selectors.specs.Faults.{selector_number};

    /// The refusal's number, and 0 where the memory ran out.
    pub fn number(self) -> u8
        ensures { result ≡ selector_number self }
    {
        match self {
            SelectorFault::NoMemory => 0,
            SelectorFault::BadSelector => 40,
            SelectorFault::EmptyPattern => 43,
        }
    }
}

impl From<AllocError> for SelectorFault {
    ghost from_gives = { λ _ e. e ≡ NoMemory };

    fn from(_error: AllocError) -> SelectorFault {
        SelectorFault::NoMemory
    }
}
