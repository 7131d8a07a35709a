//! What a step has to know of a job's reply.

use plan_events::Status;

/// What a step has to know of a job's reply: how many dynamic tests it registers, and how it ended.
#[derive(Clone, Copy)]
pub struct Answer {
    pub pulls: u16,
    pub status: Status,
}
