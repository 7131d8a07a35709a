//! Why a step is not taken.

ghost use Rattle.std.specs.Prelude.{◌≡◌};

use descriptor::BodyId;
use thiserror::Error;

/// The step is not possible for this seat: refusal 62.
#[derive(Clone, Copy, PartialEq, Eq, Debug, Error)]
#[error("not enabled")]
pub struct NotEnabled;

impl NotEnabled {
    /// The number of the refusal.
    pub fn number(self) -> u8
        ensures { result ≡ 62 }
    {
        62
    }
}

/// Why a run is not prepared.
#[derive(Clone, Copy, Debug, Error)]
pub enum TableFault {
    /// Want of memory: refusal 0.
    #[error("no memory")]
    NoMemory,
    /// A run needs a worker: refusal 60.
    #[error("no workers")]
    NoWorkers,
    /// A run has at most 64 workers: refusal 61.
    #[error("more than 64 workers")]
    TooManyWorkers,
    /// The ring of places has 1 to 16,384 words: refusal 71.
    #[error("no ring of so many words")]
    BadRing,
    /// There is no job for this body, the least such of the plan: refusal 70.
    #[error("a body has no job")]
    JobsMissing(BodyId),
}

impl TableFault {
    ghost use Rattle.table_contents.specs.Refusals.{number_of};

    /// The number of the refusal, or 0 for want of memory.
    pub fn number(self) -> u8
        ensures { result ≡ number_of self }
    {
        match self {
            TableFault::NoMemory => 0,
            TableFault::NoWorkers => 60,
            TableFault::TooManyWorkers => 61,
            TableFault::BadRing => 71,
            TableFault::JobsMissing(_) => 70,
        }
    }
}
