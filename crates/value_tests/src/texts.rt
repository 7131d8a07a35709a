//! Texts of nodes: what a job said, reasons, a cancelled plan, and too many dynamic tests.

ghost use Rattle.std.specs.Prelude.{◌≡◌, ◌<◌, length};

use crate::plans::{event, factory_plan, finished, plan_of};
use descriptor::{BodyId, NodeId};
use plan_events::{EventKind, Note, Outcome, Reply, Status, Texts};
use resource_locks::Plan;
use sched_core::{Answers, texts_of};
use std::alloc::Global;
use unique_id::Text;

/// Node 3 is an enabled test; 4 and 5 are disabled ones, the last with an empty reason.
const TESTS: &str = "engine e
  class A
    test adds pass
    test rounds disabled flaky
    test waits disabled
";

/// Whether a node has this text behind this note.
fn has_text(texts: &mut Texts, node: NodeId, note: Note, text: Option<&str>) -> bool
    requires { node < length texts.old.notes }
    ensures { length texts.new.notes ≡ length texts.old.notes }
{
    texts.set(node, note);
    texts.of(node) == text
}

/// Whether a node has no text at first, and then after each of four notes that of the note: one of
/// its own, that there were too many dynamic tests, that the plan was cancelled, and its reason.
fn has_all(texts: &mut Texts, node: NodeId, own: Text, reason: Option<&str>) -> bool
    requires { node < length texts.old.notes }
{
    let had_none = texts.of(node).is_none();
    let has_own = has_text(texts, node, Note::Own(own), Some("broken"));
    had_none
        && has_own
        && has_text(texts, node, Note::TooMany, Some("too many dynamic tests"))
        && has_text(texts, node, Note::Cancelled, Some("cancelled"))
        && has_text(texts, node, Note::Reason, reason)
}

/// Whether this node of a plan has these texts, and this reason.
fn has_texts(alloc: Global, plan: &Plan, number: u16, reason: Option<&str>) -> Option<bool> {
    let node = NodeId::new(number);
    if node.index() >= plan.tree().len() {
        return None;
    }
    let own = Text::new(alloc, "broken").ok()?;
    let mut texts = Texts::new(alloc, plan.tree()).ok()?;
    Some(has_all(&mut texts, node, own, reason))
}

/// Whether a node that is not there has no text.
fn has_none(alloc: Global, plan: &Plan, number: u16) -> Option<bool> {
    let texts = Texts::new(alloc, plan.tree()).ok()?;
    let node = NodeId::new(number);
    Some(node.index() >= plan.tree().len() && texts.of(node).is_none())
}

/// Whether each node has the texts of its notes, and a node that is not there has none.
pub(crate) fn the_last_note_of_a_node_is_its_text(alloc: Global) -> Option<bool> {
    let plan = plan_of(alloc, TESTS)?;
    let all = [
        has_texts(alloc, &plan, 3, None),
        has_texts(alloc, &plan, 4, Some("flaky")),
        has_texts(alloc, &plan, 5, Some("")),
        has_none(alloc, &plan, 6),
    ];
    Some(all == [Some(true); 4])
}

/// The answer of body 1, which asks for so many dynamic tests.
fn asking(alloc: Global, pulls: u16) -> Option<Answers> {
    let text = Text::new(alloc, "made").ok()?;
    let status = Status::Successful;
    let outcome = Outcome { status, text };
    let mut replies = Vec::new(alloc);
    replies
        .push((BodyId::new(1), Reply { pulls, outcome }))
        .ok()?;
    Some(Answers::of(replies))
}

/// Whether node 1, which is finished, has this text, and node 2, which is skipped, that of a cancelled plan.
fn tells(alloc: Global, plan: &Plan, answers: &Answers, text: &str) -> Option<bool> {
    let events = [
        event(EventKind::Skipped, 2, None),
        finished(1, Status::Failed),
    ];
    let texts = texts_of(alloc, plan, answers, &events).ok()?;
    Some(texts.of(NodeId::new(1)) == Some(text) && texts.of(NodeId::new(2)) == Some("cancelled"))
}

/// Whether a factory that asks for so many dynamic tests has this text.
fn factory_tells(alloc: Global, plan: &Plan, pulls: u16, text: &str) -> Option<bool> {
    let answers = asking(alloc, pulls)?;
    tells(alloc, plan, &answers, text)
}

/// Whether a factory with one spare has its own text, unless it asks for two dynamic tests.
pub(crate) fn a_factory_tells_of_too_many_dynamic_tests(alloc: Global) -> Option<bool> {
    let plan = factory_plan(alloc)?;
    let one = factory_tells(alloc, &plan, 1, "made");
    let two = factory_tells(alloc, &plan, 2, "too many dynamic tests");
    Some(one == Some(true) && two == Some(true))
}
