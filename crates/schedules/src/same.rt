//! Whether two lists of events are the same.

ghost use Rattle.std.specs.Prelude.{◌≡◌, IsTrue};

use plan_events::{Event, EventKind, Status};

/// Whether two kinds of events are the same.
fn is_same_kind(one: EventKind, other: EventKind) -> bool
    ensures { IsTrue result → one ≡ other }
{
    match (one, other) {
        (EventKind::Started, EventKind::Started) => true,
        (EventKind::Finished, EventKind::Finished) => true,
        (EventKind::Skipped, EventKind::Skipped) => true,
        (EventKind::Registered, EventKind::Registered) => true,
        _ => false,
    }
}

/// Whether two statuses are the same.
fn is_same_status(one: Status, other: Status) -> bool
    ensures { IsTrue result → one ≡ other }
{
    match (one, other) {
        (Status::Successful, Status::Successful) => true,
        (Status::Failed, Status::Failed) => true,
        (Status::Aborted, Status::Aborted) => true,
        _ => false,
    }
}

/// Whether two events end their nodes alike, or neither does.
fn end_alike(one: Option<Status>, other: Option<Status>) -> bool
    ensures { IsTrue result → one ≡ other }
{
    match (one, other) {
        (None, None) => true,
        (Some(one), Some(other)) => is_same_status(one, other),
        _ => false,
    }
}

/// Whether two events are the same.
fn is_same_event(one: &Event, other: &Event) -> bool
    ensures kind { IsTrue result → one.now.kind ≡ other.now.kind }
    ensures node { IsTrue result → one.now.node ≡ other.now.node }
    ensures status { IsTrue result → one.now.status ≡ other.now.status }
    ensures worker { IsTrue result → one.now.worker ≡ other.now.worker }
{
    is_same_kind(one.kind, other.kind)
        && one.node == other.node
        && end_alike(one.status, other.status)
        && one.worker == other.worker
}

/// Whether these are the same events in the same order.
pub(crate) fn are_same(some: &[Event], others: &[Event]) -> bool
    ensures { IsTrue result → some.now ≡ others.now }
{
    if some.len() != others.len() {
        return false;
    }
    for place in 0..some.len() {
        if !is_same_event(&some[place], &others[place]) {
            return false;
        }
    }
    true
}
