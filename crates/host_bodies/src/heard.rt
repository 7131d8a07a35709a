//! What was heard of a host.

use crate::silence::Silence;
use plan_events::Outcome;
use unique_id::Text;

/// What was heard of a test's host, once it was asked for the test.
#[derive(Drop)]
pub enum Heard {
    /// It was not asked yet.
    Nothing,
    /// It said this line, which is an answer.
    Line(Text),
    /// It gave no answer, for this reason.
    Silent(Silence),
}

/// A line that answers, and what is told of the test by it.
#[derive(Drop)]
pub struct Answer {
    pub line: Text,
    pub outcome: Outcome,
}
