//! What the search asks of a plan, by the numbers of nodes. A number that the plan does not have
//! stands for a node that has nothing.

ghost use Rattle.std.specs.Prelude.{◌<◌, IfSome};
ghost use Rattle.descriptor.specs.Nodes.{size};

use descriptor::{LockMode, NodeId};
use plan_events::Status;
use resource_locks::Plan;
use sched_core::Answers;
use scheduling::{is_same, key_at_place, mode_at_place};

/// The node of this number, if the plan has one.
fn node_of(plan: &Plan, number: u16) -> Option<NodeId>
    ensures { IfSome result (λ node. node < size plan.now.tree) }
{
    if usize::from(number) < plan.tree().len() {
        Some(NodeId::new(number))
    } else {
        None
    }
}

/// The number of its parent.
pub(crate) fn parent_of(plan: &Plan, number: u16) -> Option<u16> {
    let node = node_of(plan, number)?;
    let parent = plan.tree().parent(node)?;
    Some(parent.number())
}

/// Whether it is executed in the thread of its parent.
pub(crate) fn is_same_thread(plan: &Plan, number: u16) -> bool {
    match node_of(plan, number) {
        Some(node) => is_same(plan, node),
        None => false,
    }
}

/// Whether it is executed in the thread of its parent, in its turn among its siblings.
pub(crate) fn has_turn(plan: &Plan, number: u16) -> bool {
    match node_of(plan, number) {
        Some(node) => is_same(plan, node) && !plan.tree().role(node).is_spare(),
        None => false,
    }
}

/// Whether it is a dynamic test.
pub(crate) fn is_spare(plan: &Plan, number: u16) -> bool {
    match node_of(plan, number) {
        Some(node) => plan.tree().role(node).is_spare(),
        None => false,
    }
}

/// Whether it is asked, once it is claimed, whether the plan is cancelled.
pub(crate) fn notices(plan: &Plan, number: u16) -> bool {
    match node_of(plan, number) {
        Some(node) => number > 0 && plan.fail_fast() && plan.tree().reason(node).is_none(),
        None => false,
    }
}

/// Whether it is a factory with a body.
pub(crate) fn pulls(plan: &Plan, number: u16) -> bool {
    match node_of(plan, number) {
        Some(node) => plan.tree().role(node).is_factory() && plan.tree().body(node).is_some(),
        None => false,
    }
}

/// Whether it is a container that its body lets go on to its children.
pub(crate) fn opens(plan: &Plan, answers: &Answers, number: u16) -> bool {
    let Some(node) = node_of(plan, number) else {
        return false;
    };
    if !plan.tree().kind(node).is_container() {
        return false;
    }
    let Some(body) = plan.tree().body(node) else {
        return true;
    };
    match answers.reply(body) {
        Some(reply) => reply.outcome.status.is_successful(),
        None => true,
    }
}

/// How many children it has.
pub(crate) fn child_count(plan: &Plan, number: u16) -> usize {
    match node_of(plan, number) {
        Some(node) => plan.tree().children(node).len(),
        None => 0,
    }
}

/// The number of its child at this place, from 0.
pub(crate) fn child_at(plan: &Plan, number: u16, place: usize) -> Option<u16> {
    let node = node_of(plan, number)?;
    let child = plan.tree().children(node).get(place)?;
    Some(child.number())
}

/// How many keys it holds.
pub(crate) fn key_count(plan: &Plan, number: u16) -> usize {
    match node_of(plan, number) {
        Some(node) => plan.held(node).locks().len(),
        None => 0,
    }
}

/// The number of its key at this place, from 0.
pub(crate) fn key_at(plan: &Plan, number: u16, place: usize) -> Option<usize> {
    let node = node_of(plan, number)?;
    if place < plan.held(node).locks().len() {
        Some(key_at_place(plan, node, place))
    } else {
        None
    }
}

/// Whether it holds this key.
pub(crate) fn holds(plan: &Plan, number: u16, key: usize) -> bool {
    for place in 0..key_count(plan, number) {
        if let Some(found) = key_at(plan, number, place)
            && found == key
        {
            return true;
        }
    }
    false
}

/// Whether it holds this key, and not to read it beside another that reads it.
fn keeps_out(plan: &Plan, number: u16, key: usize, mode: LockMode) -> bool {
    let Some(node) = node_of(plan, number) else {
        return false;
    };
    for place in 0..plan.held(node).locks().len() {
        if key_at_place(plan, node, place) == key
            && (mode == LockMode::ReadWrite
                || mode_at_place(plan, node, place) == LockMode::ReadWrite)
        {
            return true;
        }
    }
    false
}

/// Whether two nodes hold keys that keep them apart.
pub(crate) fn keep_apart(plan: &Plan, one: u16, other: u16) -> bool {
    let Some(node) = node_of(plan, one) else {
        return false;
    };
    for place in 0..plan.held(node).locks().len() {
        let key = key_at_place(plan, node, place);
        if keeps_out(plan, other, key, mode_at_place(plan, node, place)) {
            return true;
        }
    }
    false
}

/// Whether a node that ended so raises a failure.
pub(crate) fn raises(plan: &Plan, status: Option<Status>) -> bool {
    match status {
        Some(status) => plan.fail_fast() && status.is_failed(),
        None => false,
    }
}
