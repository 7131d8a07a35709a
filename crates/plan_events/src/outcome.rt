//! What a body answers.

ghost use Rattle.std.specs.Prelude.{◌≡◌, IfOk};

use crate::status::Status;
use std::alloc::AllocError;
use unique_id::Text;

/// How a body ended, and what it says of it.
#[derive(Debug, Drop)]
pub struct Outcome {
    pub status: Status,
    pub text: Text,
}

impl Outcome {
    /// A copy. It takes no memory, since a long text is shared; an `Err` says that no more copies of it can be counted.
    pub fn copy(&self) -> Result<Outcome, AllocError>
        ensures { IfOk result (λ copy. copy ≡ self.now) }
    {
        Ok(Outcome {
            status: self.status,
            text: self.text.copy()?,
        })
    }
}

/// What a body answers when it is run: how many dynamic tests it registers first, and its outcome.
#[derive(Debug, Drop)]
pub struct Reply {
    pub pulls: u16,
    pub outcome: Outcome,
}
