//! What a suite has a body answer.

ghost use Rattle.std.specs.Prelude.{◌≡◌, IfOk};

use descriptor::BodyId;
use plan_events::{Outcome, Reply, Status};
use std::alloc::{AllocError, Global};
use unique_id::Text;

/// What a suite has a body answer.
#[derive(Debug, Drop)]
pub struct Script {
    pub body: BodyId,
    /// How far the body counts before it answers.
    pub spin: u32,
    /// From how many milliseconds on the body is slow, if its line says it.
    pub slow: Option<u32>,
    pub reply: Reply,
}

impl Script {
    ghost use Rattle.suite_words.specs.Reading.Scripts.{ending};

    /// The script of a body that counts as far as `spin`, is slow from so many milliseconds on,
    /// registers so many tests, and ends with this status and text.
    pub fn ending(
        alloc: Global,
        body: BodyId,
        spin: u32,
        slow: Option<u32>,
        pulls: u16,
        status: Status,
        text: &str,
    ) -> Result<Script, AllocError>
        ensures { IfOk result (λ script. script ≡ ending body spin slow pulls status text.now) }
    {
        let outcome = Outcome {
            status,
            text: Text::new(alloc, text)?,
        };
        Ok(Script {
            body,
            spin,
            slow,
            reply: Reply { pulls, outcome },
        })
    }
}
