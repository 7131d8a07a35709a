//! Events as tokens: the worker, `+` for a start, `-` for a finish, `~` for a skip and `*` for a
//! registration, the node, and behind a finish `!` where it FAILED and `?` where it ABORTED.

use crate::words::{say, show};
use descriptor::NodeId;
use plan_events::{Event, EventKind, Status};

/// The sign of a kind.
fn sign_of(kind: EventKind) -> &'static str {
    match kind {
        EventKind::Started => "+",
        EventKind::Finished => "-",
        EventKind::Skipped => "~",
        EventKind::Registered => "*",
    }
}

/// What stands behind a finish.
fn end_of(status: Option<Status>) -> &'static str {
    match status {
        Some(Status::Failed) => "!",
        Some(Status::Aborted) => "?",
        _ => "",
    }
}

/// Adds each event as a token behind a blank.
pub(crate) fn push_words(text: &mut String, events: &[Event]) {
    for event in events {
        let (sign, end) = (sign_of(event.kind), end_of(event.status));
        show(text, " ", event.worker);
        show(text, sign, event.node.number());
        say(text, end)
    }
}

/// What stands before and behind the sign of a token, and the kind that it stands for.
fn cut(word: &str) -> Option<(&str, EventKind, &str)> {
    for (sign, kind) in [
        ('+', EventKind::Started),
        ('-', EventKind::Finished),
        ('~', EventKind::Skipped),
        ('*', EventKind::Registered),
    ] {
        if let Some((worker, node)) = word.split_once(sign) {
            return Some((worker, kind, node));
        }
    }
    None
}

/// The number of a node, and how it ended, if this is a finish.
fn ended(kind: EventKind, node: &str) -> (&str, Option<Status>) {
    if !matches!(kind, EventKind::Finished) {
        (node, None)
    } else if let Some(digits) = node.strip_suffix('!') {
        (digits, Some(Status::Failed))
    } else if let Some(digits) = node.strip_suffix('?') {
        (digits, Some(Status::Aborted))
    } else {
        (node, Some(Status::Successful))
    }
}

/// The event that a token stands for.
fn event_of(word: &str) -> Option<Event> {
    let (worker, kind, node) = cut(word)?;
    let (digits, status) = ended(kind, node);
    Some(Event {
        kind,
        node: NodeId::new(digits.parse().ok()?),
        status,
        worker: worker.parse().ok()?,
    })
}

/// Adds the events of tokens between blanks.
pub(crate) fn push_events(events: &mut Vec<Event>, words: &str) {
    for word in words.split(' ') {
        if let Some(event) = event_of(word) {
            let _ = events.push(event);
        }
    }
}
