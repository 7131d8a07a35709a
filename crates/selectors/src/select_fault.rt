//! Why nothing was selected.

ghost use Rattle.std.specs.Prelude.{◌≡◌};
ghost use Rattle.selectors.specs.declared.select_fault.SelectFault.TheVariants.{NoMemory};

use std::alloc::AllocError;
use thiserror::Error;

/// Why nothing was selected.
#[derive(Clone, Copy, Debug, Error)]
pub enum SelectFault {
    /// The memory ran out.
    #[error("no memory")]
    NoMemory,
    /// The selector with this number, counted from 1, covers no node (refusal 41); names are counted
    /// behind selectors.
    #[error("selector {0} covers no node")]
    NothingMatches(usize),
}

impl SelectFault {
    ghost use Rattle.selectors.specs.Faults.{select_number, select_place};

    /// The refusal's number, and 0 where the memory ran out.
    pub fn number(self) -> u8
        ensures { result ≡ select_number self }
    {
        match self {
            SelectFault::NoMemory => 0,
            SelectFault::NothingMatches(_) => 41,
        }
    }

    /// The number of the selector that is refused, counted from 1.
    pub fn place(self) -> Option<usize>
        ensures { result ≡ select_place self }
    {
        match self {
            SelectFault::NoMemory => None,
            SelectFault::NothingMatches(number) => Some(number),
        }
    }
}

impl From<AllocError> for SelectFault {
    ghost from_gives = { λ _ e. e ≡ NoMemory };

    fn from(_error: AllocError) -> SelectFault {
        SelectFault::NoMemory
    }
}
