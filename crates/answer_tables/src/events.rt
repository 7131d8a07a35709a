//! Questions about the words of events.

use crate::words::{say, show};
use plan_events::{Event, EventKind, Status};

pub(crate) fn kind_word(kind: EventKind) -> &'static str {
    match kind {
        EventKind::Started => "started",
        EventKind::Finished => "finished",
        EventKind::Skipped => "skipped",
        EventKind::Registered => "registered",
    }
}

/// What happened, where a node is finished how it ended.
fn sign(event: &Event) -> &'static str {
    match event.status {
        Some(Status::Successful) => "successful",
        Some(Status::Aborted) => "aborted",
        Some(Status::Failed) => "failed",
        None => kind_word(event.kind),
    }
}

/// Adds an event and its word.
fn push_read(answer: &mut String, event: &Event, word: u64) {
    show(answer, " => node ", event.node.number());
    show(answer, " ", sign(event));
    show(answer, " by worker ", event.worker);
    let _ = write!(answer, ", {word:016x}");
}

/// Adds the event of a word of hexadecimal digits, and the word of that event.
pub(crate) fn push_event(answer: &mut String, digits: &str) {
    let Ok(word) = u64::from_str_radix(digits, 16) else {
        say(answer, " => no number");
        return;
    };
    match Event::from_word(word) {
        Some(event) => {
            let word = event.to_word();
            push_read(answer, &event, word);
        }
        None => say(answer, " => no event"),
    }
}
