//! Why a unique id was not made.

ghost use Rattle.std.specs.Prelude.{◌≡◌};
ghost use Rattle.unique_id.specs.declared.fault.UidFault.TheVariants.{NoMemory};

use std::alloc::{AllocError, AllocFailed};
use thiserror::Error;

/// Why a unique id was not made.
#[derive(Clone, Copy, Debug, Error)]
pub enum UidFault {
    /// The memory ran out.
    #[error("no memory")]
    NoMemory,
    /// The text is empty (refusal 1).
    #[error("an empty id")]
    Empty,
    /// At this byte, from 0, a `[`, a `]`, or a `/` or the end behind a segment is missing (refusal 2).
    #[error("no bracket at {0}")]
    NoBracket(usize),
    /// At this byte, from 0, the `:` behind a kind is missing (refusal 3).
    #[error("no colon at {0}")]
    NoColon(usize),
    /// At this byte, from 0, a `%` stands without two hexadecimal digits, or is the first of a part
    /// whose bytes aren't UTF-8 (refusal 4).
    #[error("a bad escape at {0}")]
    BadEscape(usize),
    /// A part is empty (refusal 5): of a text that is read, the byte, from 0, that ends the part; of
    /// parts that are given, 0 for the kind and 1 for the value.
    #[error("an empty part at {0}")]
    EmptyPart(usize),
    /// More than 64 segments, or more than 1,024 bytes in the text or its canonical spelling
    /// (refusal 6).
    #[error("more than 64 segments or 1024 bytes")]
    TooLong,
}

impl UidFault {
    ghost use Rattle.unique_id.specs.Faults.{number, place_of};

    /// The refusal's number, and 0 where the memory ran out.
    pub fn number(self) -> u8
        ensures { result ≡ number self }
    {
        match self {
            UidFault::NoMemory => 0,
            UidFault::Empty => 1,
            UidFault::NoBracket(_) => 2,
            UidFault::NoColon(_) => 3,
            UidFault::BadEscape(_) => 4,
            UidFault::EmptyPart(_) => 5,
            UidFault::TooLong => 6,
        }
    }

    /// The place that the refusal names, if it names one.
    pub fn place(self) -> Option<usize>
        ensures { result ≡ place_of self }
    {
        match self {
            UidFault::NoMemory | UidFault::Empty | UidFault::TooLong => None,
            UidFault::NoBracket(place)
            | UidFault::NoColon(place)
            | UidFault::BadEscape(place)
            | UidFault::EmptyPart(place) => Some(place),
        }
    }
}

impl From<AllocError> for UidFault {
    ghost from_gives = { λ _ e. e ≡ NoMemory };

    fn from(_error: AllocError) -> UidFault {
        UidFault::NoMemory
    }
}

impl<T: Drop> From<AllocFailed<T>> for UidFault {
    ghost from_gives = { λ _ e. e ≡ NoMemory };

    fn from(_error: AllocFailed<T>) -> UidFault {
        UidFault::NoMemory
    }
}
