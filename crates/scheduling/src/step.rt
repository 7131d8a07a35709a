//! The steps of a run.

ghost use Rattle.std.specs.Prelude.{◌≡◌};
ghost use Rattle.scheduling.specs.Actors.{actor_of};

use descriptor::NodeId;

/// Who takes a step.
#[derive(Clone, Copy)]
pub enum Actor {
    /// The worker with this number, from 1.
    Worker(u8),
    /// The one who gives the published events, in their order.
    Dispatcher,
}

/// What a worker does in one step.
#[derive(Clone, Copy, Debug)]
pub enum Action {
    /// Claims this node, which is offered to any.
    Claim(NodeId),
    /// Takes this node, which is offered to it alone.
    Own(NodeId),
    /// Looks whether the plan is cancelled.
    Notice,
    /// Looks at the word of the next key of its node.
    Weigh,
    /// Takes the key, if its word is the one that was seen.
    Take,
    /// Gives a key back.
    Give,
    /// Offers its node again, a key of which was busy.
    GiveUp,
    /// Draws the event of its node that is due: the event takes the next place of the history, not shown yet.
    Draw,
    /// Shows what it drew.
    Show,
    /// Offers a child of its node, or its node, or a sibling of it.
    Admit,
    /// Goes on to the next dynamic test of the factory in its hand, which is to be registered.
    AddChild,
    /// Takes its node's own guard, or its settled node, off the counter that counts it.
    Done,
    /// Settles its node, whose finish, or that it is skipped, is shown.
    Settle,
    /// Looks for the worker that may take the next sibling; or finds nothing to do, and nothing changes.
    Look,
    /// Cancels the plan, since its node failed.
    Raise,
}

/// A step of a run.
#[derive(Clone, Copy, Debug)]
pub enum Step {
    /// The worker with this number, from 1, does this.
    Worker(u8, Action),
    /// The dispatcher gives the event at the next place, if it is shown.
    Read,
}

impl Step {
    /// Who takes this step.
    pub fn actor(self) -> Actor
        ensures { result ≡ actor_of self }
    {
        match self {
            Step::Worker(worker, _) => Actor::Worker(worker),
            Step::Read => Actor::Dispatcher,
        }
    }
}
