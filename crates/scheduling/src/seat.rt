//! What a worker has: its task, and perhaps a factory in hand.

use crate::task::Task;
use descriptor::NodeId;

/// A factory whose dynamic tests are being registered.
#[derive(Clone, Copy)]
pub struct Hand {
    pub factory: NodeId,
    /// How many of its dynamic tests are registered.
    pub registered: usize,
    /// The one whose end is waited for, before the factory goes on.
    pub waiting: Option<NodeId>,
}

/// A worker's task, and the factory in its hand.
#[derive(Clone, Copy)]
pub struct Seat {
    pub task: Task,
    pub hand: Option<Hand>,
}
