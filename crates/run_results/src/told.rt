//! What events tell of each node.

ghost use Rattle.std.specs.Prelude.{◌≡◌, ◌||◌, ◌++◌, ◌∷◌, ◌↔◌, [], List, IfOk, IsTrue, length};
ghost use Rattle.std.specs.Option.{option_or};
ghost use Rattle.plan_events.specs.declared.event.Event.{Event};
ghost use Rattle.plan_events.specs.Statuses.{is_aborted, is_successful, is_failed};
ghost use Rattle.run_results.specs.Told.{all_told, is_start, is_skip, is_registration, status_by, has_line, ended};
ghost use Rattle.run_results.specs.Told.{tells_failure};
ghost use Rattle.run_results.specs.Inside.Tallies.{TellsFailure};

use descriptor::NodeId;
use plan_events::{Event, EventKind, Status};
use std::alloc::{AllocError, Global};

/// What events tell of a node.
#[derive(Clone, Copy)]
pub struct NodeEvents {
    pub started: bool,
    pub skipped: bool,
    pub registered: bool,
    /// How it ended, if it did.
    pub status: Option<Status>,
}

/// The status that stands with an event of this kind, which counts at a finish alone.
fn status_by(kind: EventKind, status: Option<Status>) -> Option<Status>
    ensures { result ≡ status_by kind status }
{
    match kind {
        EventKind::Finished => status,
        _ => None,
    }
}

/// Whether a node that ended so has failed.
fn is_failure(status: Option<Status>) -> bool
    ensures { result ≡ ended is_failed status }
{
    matches!(status, Some(Status::Failed))
}

/// Whether the event tells that a node failed, which is not the plan.
pub fn tells_failure(event: Event) -> bool
    ensures { result ≡ tells_failure event }
{
    event.node != NodeId::ROOT && is_failure(status_by(event.kind, event.status))
}

impl NodeEvents {
    /// What no event tells.
    pub const NOTHING: NodeEvents = NodeEvents {
        started: false,
        skipped: false,
        registered: false,
        status: None,
    };

    /// What is told when one more event of the node is.
    fn after(self, kind: EventKind, status: Option<Status>) -> NodeEvents
        ensures started { result.started ≡ (self.started || is_start kind) }
        ensures skipped { result.skipped ≡ (self.skipped || is_skip kind) }
        ensures registered { result.registered ≡ (self.registered || is_registration kind) }
        ensures status { result.status ≡ option_or self.status (status_by kind status) }
    {
        NodeEvents {
            started: self.started || matches!(kind, EventKind::Started),
            skipped: self.skipped || matches!(kind, EventKind::Skipped),
            registered: self.registered || matches!(kind, EventKind::Registered),
            status: self.status.or(status_by(kind, status)),
        }
    }

    /// Whether the node has a line in the tree.
    pub(crate) fn has_line(self) -> bool
        ensures { result ≡ has_line self }
    {
        self.started || self.skipped
    }

    pub(crate) fn is_successful(self) -> bool
        ensures { result ≡ ended is_successful self.status }
    {
        matches!(self.status, Some(Status::Successful))
    }

    pub(crate) fn has_aborted(self) -> bool
        ensures { result ≡ ended is_aborted self.status }
    {
        matches!(self.status, Some(Status::Aborted))
    }

    pub(crate) fn has_failed(self) -> bool
        ensures { result ≡ ended is_failed self.status }
    {
        is_failure(self.status)
    }
}

/// Adds an event to what was told; one of a node without a place tells nothing.
pub(crate) fn note(told: &mut Vec<NodeEvents>, event: Event)
    ensures places { length told.new.items ≡ length told.old.items }
    ensures more { (events : List Event) → told.old.items ≡ all_told (length told.old.items) events →
        told.new.items ≡ all_told (length told.old.items) (events ++ event ∷ []) }
{
    let place = event.node.index();
    if place < told.len() {
        told[place] = told[place].after(event.kind, event.status);
    }
}

/// What the events tell of each of so many nodes, from node 0, in one pass over them.
pub fn node_events(
    alloc: Global,
    nodes: usize,
    events: &[Event],
) -> Result<Vec<NodeEvents>, AllocError>
    ensures { IfOk result (λ told. told.items ≡ all_told nodes events.now) }
{
    let mut told = vec![in alloc; NodeEvents::NOTHING; nodes]?;
    for event in events {
        note(&mut told, *event);
    }
    Ok(told)
}

/// Whether it was told of a node other than node 0 that it failed.
pub(crate) fn any_failed(told: &[NodeEvents]) -> bool
    ensures { IsTrue result ↔ TellsFailure told.now }
{
    for place in 1..told.len() {
        if told[place].has_failed() {
            return true;
        }
    }
    false
}
