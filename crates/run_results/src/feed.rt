//! The feed: what a run published, a line for each event.

ghost use Rattle.std.specs.Prelude.{◌≡◌, ◌++◌, OnOk, IfOk, string_bytes};
ghost use Rattle.plan_events.specs.Texts.{text_at};
ghost use Rattle.run_results.specs.Feed.{kind_word, ending, plan_line, node_front, event_line, id_at, text_or, feed_of};

use crate::printed::push_text;
use descriptor::NodeId;
use plan_events::{Event, EventKind, Status, Texts};
use resource_locks::Plan;
use std::alloc::{AllocError, Global};

fn word_of(kind: EventKind) -> &'static str
    ensures { result.now ≡ kind_word kind }
{
    match kind {
        EventKind::Started => "started",
        EventKind::Finished => "finished",
        EventKind::Skipped => "skipped",
        EventKind::Registered => "registered",
    }
}

/// The canonical id of a node; nothing for node 0, and for a node that the plan lacks.
fn id_of(plan: &Plan, node: NodeId) -> &str
    ensures { result.now ≡ id_at plan.now node }
{
    if node == NodeId::ROOT || node.index() >= plan.tree().len() {
        return "";
    }
    plan.tree().node(node).id.text()
}

pub(crate) fn text_of(texts: &Texts, node: NodeId) -> &str
    ensures { result.now ≡ text_or (text_at texts.now node) }
{
    match texts.of(node) {
        Some(text) => text,
        None => "",
    }
}

/// Appends what stands behind the id.
fn push_ending(feed: &mut String, event: Event, text: &str) -> Result<(), AllocError>
    ensures { OnOk result (string_bytes feed.new ≡ string_bytes feed.old ++ ending event.kind event.status text.now) }
{
    match (event.kind, event.status) {
        (EventKind::Skipped, _) => push_text(feed, text),
        (EventKind::Finished, Some(Status::Successful)) => feed.push_str(" SUCCESSFUL"),
        (EventKind::Finished, Some(status)) => {
            write!(feed, " {status}")?;
            push_text(feed, text)
        }
        _ => Ok(()),
    }
}

/// Appends the line of an event of the plan.
fn push_plan_line(feed: &mut String, event: Event) -> Result<(), AllocError>
    ensures { OnOk result (string_bytes feed.new ≡ string_bytes feed.old ++ plan_line event) }
{
    let worker = event.worker;
    let word = word_of(event.kind);
    writeln!(feed, "w{worker} plan {word}")
}

/// Appends the front of a node's line.
fn push_node_front(feed: &mut String, event: Event, id: &str) -> Result<(), AllocError>
    ensures { OnOk result (string_bytes feed.new ≡ string_bytes feed.old ++ node_front event id.now) }
{
    let worker = event.worker;
    let word = word_of(event.kind);
    write!(feed, "w{worker} {word} {id}")
}

/// Appends the line of an event.
fn push_line(feed: &mut String, event: Event, id: &str, text: &str) -> Result<(), AllocError>
    ensures { OnOk result (string_bytes feed.new ≡ string_bytes feed.old ++ event_line event id.now text.now) }
{
    if event.node == NodeId::ROOT {
        return push_plan_line(feed, event);
    }
    push_node_front(feed, event, id)?;
    push_ending(feed, event, text)?;
    feed.push_str("\n")
}

/// Appends the line of an event to a feed. Of a node that the plan lacks, no id is printed.
pub fn push_feed_line(
    feed: &mut String,
    plan: &Plan,
    texts: &Texts,
    event: Event,
) -> Result<(), AllocError>
    ensures { OnOk result (string_bytes feed.new ≡ string_bytes feed.old
        ++ event_line event (id_at plan.now event.node) (text_or (text_at texts.now event.node))) }
{
    let event = &event;
    let id = id_of(plan, event.node);
    let text = text_of(texts, event.node);
    push_line(feed, *event, id, text)
}

/// The feed of these events: one line for each, in their order. Of a node that the plan lacks, no
/// id is printed.
pub fn feed_text(
    alloc: Global,
    plan: &Plan,
    events: &[Event],
    texts: &Texts,
) -> Result<String, AllocError>
    ensures { IfOk result (λ feed. string_bytes feed ≡ feed_of plan.now texts.now events.now) }
{
    let mut feed = String::new(alloc);
    for event in events {
        push_feed_line(&mut feed, plan, texts, *event)?;
    }
    Ok(feed)
}
