//! What the jobs of a run answered, as its history and its texts tell it.

ghost use Rattle.std.specs.Prelude.{◌≡◌, ◌<◌, ℕ, IfOk, IsTrue};
ghost use Rattle.descriptor.specs.Nodes.{size};
ghost use Rattle.plan_events.specs.Texts.{text_at};
ghost use Rattle.run_outputs.specs.ScheduleLines.{HasTextsBy};

use descriptor::{BodyId, NodeId};
use plan_events::{Event, Outcome, Reply, Status, Texts};
use resource_locks::Plan;
use run_results::{NodeEvents, node_events};
use sched_core::{Answers, texts_of};
use scheduling::{NodeJobs, jobs_of};
use std::alloc::{AllocError, Global};
use unique_id::Text;

/// Which of a container's bodies is meant.
#[derive(Clone, Copy)]
enum Which {
    Body,
    After,
}

/// Whether anything is told of a node right below this one.
fn is_entered(plan: &Plan, told: &[NodeEvents], node: NodeId) -> bool
    requires { node < size plan.now.tree }
{
    for child in plan.tree().children(node) {
        if let Some(one) = told.get(child.index()) {
            if one.started || one.skipped || one.registered {
                return true;
            }
        }
    }
    false
}

/// How many of the nodes right below this one were registered.
fn registered_below(plan: &Plan, told: &[NodeEvents], node: NodeId) -> u16
    requires { node < size plan.now.tree }
{
    let mut registered: u16 = 0;
    for child in plan.tree().children(node) {
        if let Some(one) = told.get(child.index()) {
            registered = registered.saturating_add(u16::from(one.registered));
        }
    }
    registered
}

/// The job by whose answer a container ended: its after-body, if that is run and the container was not stopped before
/// its children, and else its body.
fn last_job(
    body: Option<BodyId>,
    after: Option<BodyId>,
    is_entered: bool,
    which: Which,
) -> Option<BodyId> {
    let by_after = is_entered && after.is_some();
    match which {
        Which::Body => { if by_after { None } else { body } }
        Which::After => { if by_after { after } else { None } }
    }
}

/// The job by whose answer a node ended, if it is its body, or if it is its after-body.
fn giver(plan: &Plan, node: NodeId, is_entered: bool, which: Which) -> Option<BodyId>
    requires { node < size plan.now.tree }
{
    match jobs_of(plan, node) {
        NodeJobs::Nothing => None,
        NodeJobs::Alone(body) | NodeJobs::Pulled(body, _) => last_job(
            Some(body),
            None,
            false,
            which,
        ),
        NodeJobs::Around(body, after) => last_job(body, after, is_entered, which),
    }
}

/// The reply by which a node ended so, with this text.
fn reply_told(
    alloc: Global,
    status: Status,
    registered: u16,
    text: Option<&str>,
) -> Result<Reply, AllocError> {
    Ok(Reply {
        pulls: registered,
        outcome: Outcome {
            status,
            text: Text::new(alloc, text.unwrap_or(""))?,
        },
    })
}

/// How a node ended by what is told of it, if it did.
fn status_told(told: &[NodeEvents], node: NodeId) -> Option<Status> {
    told.get(node.index())?.status
}

/// Appends the replies of bodies, or of after-bodies, by which nodes ended.
fn push_replies(
    alloc: Global,
    plan: &Plan,
    texts: &Texts,
    told: &[NodeEvents],
    which: Which,
    replies: &mut Vec<(BodyId, Reply)>,
) -> Result<(), AllocError> {
    for number in 0..plan.tree().len() {
        let node = NodeId::new(number as u16);
        let Some(status) = status_told(told, node) else {
            continue;
        };
        let Some(job) = giver(plan, node, is_entered(plan, told, node), which) else {
            continue;
        };
        let registered = registered_below(plan, told, node);
        replies.push((job, reply_told(alloc, status, registered, texts.of(node))?))?;
    }
    Ok(())
}

/// What the jobs of a run answered, as its history and its texts tell it: the job by which a node ended has the node's
/// status and text, and that of a factory as many pulls as dynamic tests were registered; all others are successful, and
/// say nothing. That these replies explain the run is not proved here.
pub(crate) fn told_answers(
    alloc: Global,
    plan: &Plan,
    history: &[Event],
    texts: &Texts,
) -> Result<Answers, AllocError> {
    let told = node_events(alloc, plan.tree().len(), history)?;
    let mut replies = Vec::new(alloc);
    // bodies first: so the numbers rise, and a reply is found fast
    push_replies(
        alloc,
        plan,
        texts,
        told.as_slice(),
        Which::Body,
        &mut replies,
    )?;
    push_replies(
        alloc,
        plan,
        texts,
        told.as_slice(),
        Which::After,
        &mut replies,
    )?;
    Ok(Answers::of(replies))
}

/// Whether a node has the same text in both.
fn is_same_text(node: NodeId, some: &Texts, others: &Texts) -> bool
    ensures { IsTrue result → text_at some.now node ≡ text_at others.now node }
{
    match (some.of(node), others.of(node)) {
        (None, None) => true,
        (Some(one), Some(other)) => one == other,
        _ => false,
    }
}

/// Whether each node of a plan has the same text in both.
fn are_same_texts(plan: &Plan, some: &Texts, others: &Texts) -> bool
    ensures { IsTrue result → (n : ℕ) → n < size plan.now.tree → text_at some.now n ≡ text_at others.now n }
{
    for number in 0..plan.tree().len() {
        if !is_same_text(NodeId::new(number as u16), some, others) {
            return false;
        }
    }
    true
}

/// Whether a replay of this history has these texts where the bodies answer so.
pub(crate) fn are_texts(
    alloc: Global,
    plan: &Plan,
    told: &Answers,
    history: &[Event],
    texts: &Texts,
) -> Result<bool, AllocError>
    ensures { IfOk result (λ are. IsTrue are → HasTextsBy plan.now told.now history.now texts.now) }
{
    let replayed = texts_of(alloc, plan, told, history)?;
    Ok(are_same_texts(plan, &replayed, texts))
}
