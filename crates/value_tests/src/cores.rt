//! Steps that no text spells, and replies that no suite gives.

use crate::plans::{finished, plan_of, started};
use descriptor::{BodyId, NodeId};
use plan_events::{Event, Outcome, Reply, Status, Texts};
use resource_locks::Plan;
use sched_core::{Answers, Core, NotEnabled, drive, texts_of};
use scheduling::{Action, Step};
use std::alloc::Global;
use unique_id::Text;

/// An engine with a class of two tests that pass: nodes 1 to 4.
const PASSING: &str = "engine e
  class A
    test adds pass
    test takes pass
";

/// Whether a core refuses steps of no worker and of no node, and then takes one.
fn refuses(core: &mut Core) -> bool {
    for step in [
        Step::Worker(0, Action::Claim(NodeId::ROOT)),
        Step::Worker(65, Action::Claim(NodeId::ROOT)),
        Step::Worker(1, Action::Claim(NodeId::new(65535))),
        Step::Read,
    ] {
        if core.step(step) != Err(NotEnabled) {
            return false;
        }
    }
    core.step(Step::Worker(1, Action::Claim(NodeId::ROOT)))
        .is_ok()
}

/// Whether a core of 64 workers refuses them.
pub(crate) fn refuses_what_no_worker_can_do(alloc: Global) -> Option<bool> {
    let plan = plan_of(alloc, PASSING)?;
    match Core::new(alloc, plan, Answers::of(Vec::new(alloc)), 64) {
        Ok(mut core) => Some(refuses(&mut core)),
        Err(_) => None,
    }
}

/// The replies of bodies.
type Replies = Vec<(BodyId, Reply)>;

/// Adds a reply of node 4's body with this status and text.
fn push_reply(alloc: Global, replies: &mut Replies, status: Status, text: &str) -> Option<()> {
    let text = Text::new(alloc, text).ok()?;
    let outcome = Outcome { status, text };
    replies
        .push((BodyId::new(4), Reply { pulls: 0, outcome }))
        .ok()
}

/// Two replies of node 4's body, and none of node 3's.
fn two_replies(alloc: Global) -> Option<Answers> {
    let mut replies = Vec::new(alloc);
    push_reply(alloc, &mut replies, Status::Aborted, "no disk")?;
    push_reply(alloc, &mut replies, Status::Failed, "late")?;
    Some(Answers::of(replies))
}

/// Whether node 3 ended by no reply, and node 4 by the first of its two.
fn ended(events: &[Event]) -> bool {
    events.contains(&finished(3, Status::Successful))
        && events.contains(&finished(4, Status::Aborted))
        && events.contains(&started(4))
        && events.len() == 10
}

/// Whether the text of node 3 is empty, and that of node 4 its first reply's.
fn said(texts: &Texts) -> bool {
    texts.of(NodeId::new(3)) == Some("")
        && texts.of(NodeId::new(4)) == Some("no disk")
        && texts.of(NodeId::new(2)).is_none()
}

/// What happens by the schedule.
fn history(alloc: Global, plan: &Plan, answers: &Answers) -> Option<Vec<Event>> {
    Some(drive(alloc, plan, answers).ok()?.published)
}

/// Whether the schedule takes the first of these answers of a body, or none.
fn takes_first_of(alloc: Global, plan: &Plan, answers: &Answers) -> Option<bool> {
    let events = history(alloc, plan, answers)?;
    let texts = texts_of(alloc, plan, answers, events.as_slice()).ok()?;
    Some(ended(events.as_slice()) && said(&texts))
}

/// Whether the schedule takes the first of two replies, or none.
pub(crate) fn takes_the_first_reply_or_none(alloc: Global) -> Option<bool> {
    let answers = two_replies(alloc)?;
    let plan = plan_of(alloc, PASSING)?;
    takes_first_of(alloc, &plan, &answers)
}
