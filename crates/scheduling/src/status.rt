//! Where a node of the plan is.

/// Where a node is. A worker is named by its place among the seats, from 0.
#[derive(Clone, Copy)]
pub enum NodeStatus {
    /// It is not offered yet.
    Hidden,
    /// It is offered to the worker at this place alone, or to any.
    Ready(Option<u8>),
    /// The worker at this place has claimed it.
    Claimed(u8),
    /// Its finish, or that it is skipped, is shown, and nothing more is to be done for it but to
    /// pass the turn on to its next sibling and to count it off at its parent.
    Settled,
}
