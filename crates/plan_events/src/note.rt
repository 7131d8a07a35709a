//! What is kept of a node that ended.

use unique_id::Text;

/// What is kept of a node that ended: where its text comes from.
#[derive(Debug, Drop)]
pub enum Note {
    /// The node's own reason.
    Reason,
    /// It was skipped since the plan was cancelled.
    Cancelled,
    /// What its body said.
    Own(Text),
    /// It registered too many dynamic tests.
    TooMany,
}
