//! Why a text is no tag, or no tag expression.

ghost use Rattle.std.specs.Prelude.{◌≡◌};
ghost use Rattle.tag_expr.specs.declared.fault.TagFault.TheVariants.{NoMemory};

use std::alloc::{AllocError, AllocFailed};
use thiserror::Error;

/// Why a text is no tag, or no tag expression. Places are byte offsets in the text handed in.
#[derive(Clone, Copy, PartialEq, Eq, Debug, Error)]
pub enum TagFault {
    /// The memory ran out.
    #[error("no memory")]
    NoMemory,
    /// The expression has no token (refusal 20).
    #[error("an empty tag expression")]
    Empty,
    /// A tag has a character there that no tag has, or is blank (refusal 21).
    #[error("no tag at {0}")]
    BadTag(usize),
    /// An operand is missing there (refusal 22).
    #[error("an operand is missing at {0}")]
    OperandMissing(usize),
    /// An operator is missing there (refusal 23).
    #[error("an operator is missing at {0}")]
    OperatorMissing(usize),
    /// The parenthesis opened there is never closed (refusal 24).
    #[error("the parenthesis at {0} is never closed")]
    ParenOpen(usize),
    /// The parenthesis there closes none (refusal 25).
    #[error("the parenthesis at {0} closes none")]
    ParenClose(usize),
    /// More than 1,024 bytes, or more than 64 pending `!` and `(` (refusal 26).
    #[error("more than 1024 bytes or 64 pending operators")]
    TooDeep,
}

impl TagFault {
    ghost use Rattle.tag_expr.specs.Faults.{number, place};

    /// The refusal's number, and 0 where the memory ran out.
    pub fn number(self) -> u8
        ensures { result ≡ number self }
    {
        match self {
            TagFault::NoMemory => 0,
            TagFault::Empty => 20,
            TagFault::BadTag(_) => 21,
            TagFault::OperandMissing(_) => 22,
            TagFault::OperatorMissing(_) => 23,
            TagFault::ParenOpen(_) => 24,
            TagFault::ParenClose(_) => 25,
            TagFault::TooDeep => 26,
        }
    }

    /// Where in the text, for refusals 21 to 25.
    pub fn place(self) -> Option<usize>
        ensures { result ≡ place self }
    {
        match self {
            TagFault::NoMemory | TagFault::Empty | TagFault::TooDeep => None,
            TagFault::BadTag(place)
            | TagFault::OperandMissing(place)
            | TagFault::OperatorMissing(place)
            | TagFault::ParenOpen(place)
            | TagFault::ParenClose(place) => Some(place),
        }
    }
}

impl From<AllocError> for TagFault {
    ghost from_gives = { λ _ e. e ≡ NoMemory };

    fn from(_error: AllocError) -> TagFault {
        TagFault::NoMemory
    }
}

impl<T: Drop> From<AllocFailed<T>> for TagFault {
    ghost from_gives = { λ _ e. e ≡ NoMemory };

    fn from(_failed: AllocFailed<T>) -> TagFault {
        TagFault::NoMemory
    }
}
