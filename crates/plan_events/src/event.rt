//! Events, and which of them may be published.

ghost use Rattle.std.specs.Prelude.{◌≡◌};

use crate::status::Status;
use crate::workers::MOST_WORKERS;
use descriptor::{MOST_NODES, NodeId};

/// What happened to a node.
#[derive(Clone, Copy, PartialEq, Eq, Debug)]
pub enum EventKind {
    Started,
    Finished,
    Skipped,
    Registered,
}

/// What happened, to which node, and which worker saw to it. The start of node 0 is the plan's
/// start, its finish the plan's finish.
#[derive(Clone, Copy, PartialEq, Eq, Debug)]
pub struct Event {
    pub kind: EventKind,
    pub node: NodeId,
    /// How the node ended; there where it is finished, and nowhere else.
    pub status: Option<Status>,
    /// From 1 to 64.
    pub worker: u8,
}

impl EventKind {
    ghost use Rattle.plan_events.specs.Words.{fits_status, plan_may};

    /// Whether an event of this kind has this status, or none.
    fn fits(self, status: Option<Status>) -> bool
        ensures { result ≡ fits_status self status }
    {
        match self {
            EventKind::Finished => status.is_some(),
            _ => status.is_none(),
        }
    }

    /// Whether the plan's node may have such an event.
    fn may_be_of_plan(self, status: Option<Status>) -> bool
        ensures { result ≡ plan_may self status }
    {
        match self {
            EventKind::Started => true,
            EventKind::Finished => status == Some(Status::Successful),
            EventKind::Skipped | EventKind::Registered => false,
        }
    }
}

impl Event {
    ghost use Rattle.plan_events.specs.Words.{is_lawful};

    /// Whether a run may publish the event: a status stands exactly where the node is finished,
    /// the worker is from 1 to 64, the node from 0 to 16383, and node 0 only starts, or finishes
    /// successfully.
    pub fn is_lawful(&self) -> bool
        ensures { result ≡ is_lawful self.now }
    {
        self.kind.fits(self.status)
            && (1..=MOST_WORKERS).contains(&self.worker)
            && self.node.index() < MOST_NODES
            && (self.node != NodeId::ROOT || self.kind.may_be_of_plan(self.status))
    }
}
