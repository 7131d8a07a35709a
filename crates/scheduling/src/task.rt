//! What a worker does next, and about which node.

use crate::lock_word::LockWord;
use descriptor::NodeId;
use plan_events::Status;

/// What a worker does about a node until the node's own guard is given up, or until it is to end with the guard kept.
#[derive(Clone, Copy)]
pub enum Opening {
    /// A dynamic test that is to be registered.
    Registering,
    /// Its registration stands at this place, from 0, and is to be shown.
    RegisteredAt(usize),
    /// It is registered, and is to be offered.
    Offering,
    /// It is to be looked at whether the plan is cancelled.
    Noticing,
    /// Its first so many keys are taken, and the next key's word is to be looked at.
    Locking(usize),
    /// The word of the key at this place, from 0, of those that it holds was seen, and lets it take the key.
    Weighed(usize, LockWord),
    /// A key was busy: so many keys are left to give back.
    Backing(usize),
    /// Its first event is to be drawn: that it is skipped, or its start.
    Beginning(bool),
    /// Its start stands at this place, from 0, and is to be shown.
    StartedAt(usize),
    /// Its job is run: what the job answers decides the task.
    Awaiting,
    /// This child of it is to be offered.
    Admitting(NodeId),
    /// All its children are offered: its own guard is to be given up.
    Guarding,
}

/// What a worker does about a node from then on.
#[derive(Clone, Copy)]
pub enum Closing {
    /// Its after-body is run: what that answers decides the task.
    AwaitingAfter,
    /// Its finish is to be drawn, with this status.
    Ending(Status),
    /// Its finish, with this status, stands at this place, from 0, and is to be shown.
    FinishedAt(usize, Status),
    /// That it is skipped stands at this place, from 0, and is to be shown.
    SkippedAt(usize),
    /// It failed, and the plan is to be cancelled.
    Raising,
    /// So many of its keys are left to give back.
    Giving(usize),
    /// It is to be settled.
    Settling,
    /// It is settled, and its next sibling in the same thread, this one, is to be offered to the
    /// worker that may take it.
    Looking(NodeId),
    /// That sibling is to be offered to the worker at this place.
    Passing(NodeId, u8),
    /// It is to be counted off at its parent.
    CountingOff,
}

/// What a worker does next.
#[derive(Clone, Copy)]
pub enum Task {
    /// Nothing: it may take a node that is offered to it, or go on with the factory in its hand.
    Free,
    /// It opens this node.
    Opens(NodeId, Opening),
    /// It closes this node.
    Closes(NodeId, Closing),
}
