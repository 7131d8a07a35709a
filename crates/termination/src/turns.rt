//! Which two nodes take turns, so that they never run side by side.

ghost use Rattle.std.specs.Prelude.{◌≡◌, ◌<◌, ◌↔◌, ℕ, IsTrue};
ghost use Rattle.descriptor.specs.Nodes.{size, IsTree};
ghost use Rattle.resource_locks.specs.Declarations.{AtOrBelow};
ghost use Rattle.event_history.specs.Order.{goes_first as goes_first_of};
ghost use Rattle.termination.specs.Conflicts.{TakeTurns, AreInTheWay, AreKeptApart};
ghost use Rattle.termination.specs.Inside.Branches.{IsBranch};

use descriptor::{NodeId, Tree};
use resource_locks::Plan;
use scheduling::is_same;

/// Whether two nodes take turns if one is in the way of the other: their locks conflict, or both hold a limited key. Takes as
/// many steps as one holds locks, each as many as the other does, and where they are in the way at most 8,192 more.
pub(crate) fn are_kept_apart(plan: &Plan, one: NodeId, other: NodeId) -> bool
    requires one { one < size plan.now.tree }
    requires other { other < one }
    ensures { IsTrue result ↔ AreKeptApart plan.now one other }
{
    !are_in_the_way(plan, one, other) || take_turns(plan, one, other)
}

/// Whether the locks of two nodes conflict, or both hold a limited key.
fn are_in_the_way(plan: &Plan, one: NodeId, other: NodeId) -> bool
    requires one { one < size plan.now.tree }
    requires other { other < size plan.now.tree }
    ensures { IsTrue result ↔ AreInTheWay plan.now one other }
{
    plan.held(one).conflicts(plan.held(other)) || plan.share_limited(one, other)
}

/// Whether of two nodes that are in the way of one another one is settled before the other begins.
fn take_turns(plan: &Plan, one: NodeId, other: NodeId) -> bool
    requires one { one < size plan.now.tree }
    requires other { other < one }
    requires conflict { AreInTheWay plan.now one other }
    ensures { IsTrue result ↔ TakeTurns plan.now one other }
{
    let tree = plan.tree();
    let left = branch(tree, one, other);
    let right = branch(tree, other, one);
    if left.index() < right.index() {
        goes_first(plan, left, right)
    } else {
        goes_first(plan, right, left)
    }
}

/// Of the lowest node above two nodes the child that is at or above the first.
fn branch(tree: &Tree, one: NodeId, other: NodeId) -> NodeId
    requires tree { IsTree tree.now }
    requires one { one < size tree.now }
    requires other { other < size tree.now }
    requires apart { AtOrBelow tree.now one other → ⊥ }
    ensures { IsBranch tree.now one other result }
{
    let mut current = one;
    while let Some(parent) = tree.parent(current) {
        if parent == other || tree.below(other, parent) {
            return current;
        }
        current = parent;
    }
    current
}

/// Whether an elder child is settled before anything of a younger one begins: both are executed in their parent's thread, or
/// both are spares, and the elder is executed in it.
fn goes_first(plan: &Plan, elder: NodeId, younger: NodeId) -> bool
    requires elder { elder < size plan.now.tree }
    requires younger { younger < size plan.now.tree }
    ensures { result ≡ goes_first_of plan.now elder younger }
{
    let tree = plan.tree();
    is_same(plan, elder)
        && (is_same(plan, younger)
            || (tree.role(elder).is_spare() && tree.role(younger).is_spare()))
}
