//! What is told of the events of a run.

use crate::events::kind_word;
use crate::words::{quote, say, show};
use descriptor::NodeId;
use listeners::Listener;
use plan_events::{Event, EventKind, Texts};
use resource_locks::Plan;
use run_results::{Summary, Theme, feed_text, summary_text, tree_text};
use sched_core::{Answers, texts_of};
use std::alloc::{AllocError, Global};

/// Tells a summary these events, as far as it has room.
fn tell_all(summary: &mut Summary, events: &[Event]) {
    for event in events {
        if summary.room() > 0 {
            summary.told(*event, None);
        }
    }
}

/// Adds the twelve counts of a summary that is told the events.
fn push_counts(alloc: Global, answer: &mut String, plan: &Plan, events: &[Event]) {
    let mut summary = Summary::new(alloc);
    if summary.prepare(plan).is_ok() {
        tell_all(&mut summary, events);
        quote(answer, "\n", summary.counts())
    }
}

/// Adds a line for each node that has a text, or that none has one.
fn push_texts(answer: &mut String, plan: &Plan, texts: &Texts) {
    for number in 0..plan.tree().len() {
        if let Some(text) = texts.of(NodeId::new(number as u16)) {
            show(answer, "\n", number);
            quote(answer, " ", text)
        }
    }
    if answer.is_empty() {
        say(answer, " => \"\"")
    }
}

/// Adds how a node ended: its status, and its text where it is not empty.
fn push_end(answer: &mut String, event: &Event, texts: &Texts) {
    if let Some(status) = event.status {
        show(answer, " ", status)
    }
    match texts.of(event.node) {
        Some(said) if !said.is_empty() => show(answer, " ", said),
        _ => {},
    }
}

/// Adds an event.
fn push_event(answer: &mut String, event: &Event, texts: &Texts) {
    show(answer, "\nw", event.worker);
    show(answer, " ", kind_word(event.kind));
    show(answer, " ", event.node.number());
    match event.kind {
        EventKind::Finished | EventKind::Skipped => push_end(answer, event, texts),
        EventKind::Started | EventKind::Registered => {},
    }
}

/// Adds the events with their texts, a line each.
fn push_history(answer: &mut String, events: &[Event], texts: &Texts) {
    for event in events {
        push_event(answer, event, texts);
    }
}

/// What is printed of these events and texts in the way that is asked for.
fn printed(
    alloc: Global,
    plan: &Plan,
    (events, texts): (&[Event], &Texts),
    way: &str,
) -> Result<String, AllocError> {
    match way {
        "feed" => feed_text(alloc, plan, events, texts),
        "tree" => tree_text(alloc, plan, events, texts, Theme::Unicode),
        "ascii" => tree_text(alloc, plan, events, texts, Theme::Ascii),
        "summary" => summary_text(alloc, plan, events),
        _ => String::from_str(alloc, "?"),
    }
}

/// Adds lines that are printed below the question, or a text that is no line behind it.
fn push_printed(answer: &mut String, printed: Result<String, AllocError>) {
    if let Ok(text) = printed {
        match text.strip_suffix('\n') {
            Some(lines) => show(answer, "\n", lines),
            None => quote(answer, " => ", text.as_str()),
        }
        drop(text)
    }
}

/// Adds what is told of these events and texts.
fn push_way(
    alloc: Global,
    answer: &mut String,
    plan: &Plan,
    (events, texts): (&[Event], &Texts),
    way: &str,
) {
    match way {
        "history" => push_history(answer, events, texts),
        "counts" => push_counts(alloc, answer, plan, events),
        "texts" => push_texts(answer, plan, texts),
        _ => push_printed(answer, printed(alloc, plan, (events, texts), way)),
    }
}

/// Adds what is told of these events of a run.
pub(crate) fn push_told(
    alloc: Global,
    answer: &mut String,
    (plan, answers): (&Plan, &Answers),
    events: &[Event],
    way: &str,
) {
    if let Ok(texts) = texts_of(alloc, plan, answers, events) {
        push_way(alloc, answer, plan, (events, &texts), way);
    }
}
