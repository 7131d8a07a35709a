//! Which child of a node is offered next, and which sibling takes its turn after it.

ghost use Rattle.std.specs.Prelude.{◌≡◌, ◌<◌, ℕ, IfOk, length, Some, None, slice_index_or};
ghost use Rattle.descriptor.specs.Nodes.{size};
ghost use Rattle.resource_locks.specs.Held.{table};
ghost use Rattle.resource_locks.specs.Plans.{PlanParts};
ghost use Rattle.scheduling.specs.Answers.{reply_by};
ghost use Rattle.scheduling.specs.Choices.{admit_next, after_settle as after_settle_of, answered as answered_of};
ghost use Rattle.scheduling.specs.Choices.{decided as decided_of};
ghost use Rattle.scheduling.specs.LinkLists.{AreTurns, IsLinked, is_offered as is_offered_of, is_same_child};
ghost use Rattle.scheduling.specs.LinkLists.{stays as stays_of};
ghost use Rattle.scheduling.specs.State.{subject};

use crate::answer::Answer;
use crate::choices::is_same;
use crate::links::Links;
use crate::task::{Closing, Opening, Task};
use descriptor::NodeId;
use plan_events::Status;
use resource_locks::Plan;
use std::alloc::{AllocError, Global};

/// Which child of a node is to be offered next, and which sibling takes its turn after it.
pub struct Turns {
    // the children that a node offers itself
    batch: Links,
    // those that are executed in the same thread
    same: Links,
}

impl Drop for Turns {
    fn drop(self) {
        let Turns { batch: _, same: _ } = self;
    }
}

/// How a node goes on whose next child to be offered is this one, if there is one.
fn admit(child: Option<NodeId>) -> Opening
    ensures { result ≡ admit_next child }
{
    match child {
        Some(child) => Opening::Admitting(child),
        None => Opening::Guarding,
    }
}

impl Turns {
    /// The turns of a plan, found in time that grows as its nodes do.
    pub fn new(alloc: Global, plan: &Plan) -> Result<Turns, AllocError>
        ensures { IfOk result (λ turns. AreTurns plan.now turns) }
    {
        let same = Links::new(alloc, plan.tree(), &same_nodes(alloc, plan)?)?;
        let batch = Links::new(alloc, plan.tree(), &offered_nodes(alloc, plan, &same)?)?;
        Ok(Turns { batch, same })
    }

    /// How a node goes on whose children are to be offered.
    pub fn admit_first(&self, node: NodeId) -> Opening
        requires { node < length self.now.batch.first.items }
        ensures { result ≡ admit_next (slice_index_or self.now.batch.first.items node None) }
    {
        admit(self.batch.first[node.index()])
    }

    /// How a node goes on whose child, this one, is offered.
    pub fn admit_after(&self, child: NodeId) -> Opening
        requires { child < length self.now.batch.next.items }
        ensures { result ≡ admit_next (slice_index_or self.now.batch.next.items child None) }
    {
        admit(self.batch.next[child.index()])
    }
}

/// What a worker does next that has settled a node.
pub fn after_settle(plan: &Plan, turns: &Turns, node: NodeId) -> Task
    requires turns { AreTurns plan.now turns.now }
    requires inside { node < size plan.now.tree }
    ensures { result ≡ after_settle_of plan.now node }
{
    if node == NodeId::ROOT {
        return Task::Free;
    }
    if !is_same(plan, node) || plan.tree().role(node).is_spare() {
        return Task::Closes(node, Closing::CountingOff);
    }
    match turns.same.next[node.index()] {
        Some(sibling) => Task::Closes(node, Closing::Looking(sibling)),
        None => Task::Closes(node, Closing::CountingOff),
    }
}

/// What the answer of a node's body decides: a test ends with it, and so does a container that it
/// stops; another one offers its children.
fn answered(plan: &Plan, turns: &Turns, node: NodeId, answer: Answer) -> Task
    requires turns { AreTurns plan.now turns.now }
    requires inside { node < size plan.now.tree }
    ensures { result ≡ answered_of plan.now node (reply_by answer) }
{
    let status = if plan.tree().body(node).is_some() {
        answer.status
    } else {
        Status::Successful
    };
    if plan.tree().kind(node).is_container() && status.is_successful() {
        Task::Opens(node, turns.admit_first(node))
    } else {
        Task::Closes(node, Closing::Ending(status))
    }
}

/// A task that awaits an answer, as the answer decides it; another task as it is.
pub fn decided(plan: &Plan, turns: &Turns, answer: Answer, task: Task) -> Task
    requires turns { AreTurns plan.now turns.now }
    requires inside { (n : ℕ) → subject task ≡ Some n → n < size plan.now.tree }
    ensures { result ≡ decided_of plan.now (reply_by answer) task }
{
    match task {
        Task::Free => Task::Free,
        Task::Opens(node, opening) => opened(plan, turns, answer, node, opening),
        Task::Closes(node, closing) => closed(answer, node, closing),
    }
}

/// A task that opens a node: where it awaits an answer, as the answer decides it.
fn opened(plan: &Plan, turns: &Turns, answer: Answer, node: NodeId, opening: Opening) -> Task
    requires turns { AreTurns plan.now turns.now }
    requires inside { node < size plan.now.tree }
    ensures { result ≡ decided_of plan.now (reply_by answer) (Task.Opens node opening) }
{
    match opening {
        Opening::Awaiting => answered(plan, turns, node, answer),
        _ => Task::Opens(node, opening),
    }
}

/// A task that closes a node: where it awaits the answer of its after-body, as the answer decides it.
fn closed(answer: Answer, node: NodeId, closing: Closing) -> Task
    ensures { (plan : PlanParts) → result ≡ decided_of plan (reply_by answer) (Task.Closes node closing) }
{
    match closing {
        Closing::AwaitingAfter => Task::Closes(node, Closing::Ending(answer.status)),
        _ => Task::Closes(node, closing),
    }
}

/// Whether a node is executed in the thread of its parent, and is no dynamic test.
fn stays(plan: &Plan, node: NodeId) -> bool
    requires { node < size plan.now.tree }
    ensures { result ≡ stays_of plan.now node }
{
    is_same(plan, node) && !plan.tree().role(node).is_spare()
}

/// For each node whether it is executed in the thread of its parent, and is no dynamic test.
fn same_nodes(alloc: Global, plan: &Plan) -> Result<Vec<bool>, AllocError>
    ensures { IfOk result (λ v. v.items ≡ table (stays_of plan.now) (size plan.now.tree)) }
{
    let mut nodes = Vec::with_capacity(alloc, plan.tree().len())?;
    for number in 0..plan.tree().len() {
        nodes.push(stays(plan, NodeId::new(number as u16)))?;
    }
    Ok(nodes)
}

/// For each node whether its parent offers it itself.
fn offered_nodes(alloc: Global, plan: &Plan, same: &Links) -> Result<Vec<bool>, AllocError>
    requires { IsLinked plan.now.tree (is_same_child plan.now) same.now }
    ensures { IfOk result (λ v. v.items ≡ table (is_offered_of plan.now) (size plan.now.tree)) }
{
    let mut nodes = Vec::with_capacity(alloc, plan.tree().len())?;
    for number in 0..plan.tree().len() {
        nodes.push(is_offered(plan, same, NodeId::new(number as u16)))?;
    }
    Ok(nodes)
}

/// Whether its parent offers a node itself: it is no dynamic test, and it is CONCURRENT or the
/// first child that is executed in the thread of the parent.
fn is_offered(plan: &Plan, same: &Links, node: NodeId) -> bool
    requires linked { IsLinked plan.now.tree (is_same_child plan.now) same.now }
    requires inside { node < size plan.now.tree }
    ensures { result ≡ is_offered_of plan.now node }
{
    let Some(parent) = plan.tree().parent(node) else {
        return false;
    };
    if plan.tree().role(node).is_spare() {
        return false;
    }
    !is_same(plan, node) || same.first[parent.index()] == Some(node)
}
