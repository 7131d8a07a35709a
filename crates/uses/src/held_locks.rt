//! Calls `resource_locks`: a tree is hoisted, and two of its nodes are asked for what they hold.

ghost use Rattle.std.specs.Prelude.{◌≡◌, ◌<◌, ◌↔◌, IfOk, IsTrue, length};
ghost use Rattle.descriptor.specs.Nodes.{size};
ghost use Rattle.resource_locks.specs.Conflicts.{AreInConflict};
ghost use Rattle.resource_locks.specs.Held.{plan_of};
ghost use Rattle.resource_locks.specs.Plans.{held_of};

use descriptor::{Mode, NodeId, Tree};
use resource_locks::{Plan, PlanFault};
use std::alloc::Global;

/// Whether the locks conflict that two nodes of a hoisted tree hold.
pub fn exclude_each_other(
    alloc: Global,
    tree: Tree,
    modes: Vec<Mode>,
    node: NodeId,
    other: NodeId,
) -> Result<bool, PlanFault>
    requires modes { length modes.items ≡ size tree }
    requires node { node < size tree }
    requires other { other < size tree }
    ensures { IfOk result (λ r. IsTrue r ↔ AreInConflict (held_of (plan_of tree modes.items) node)
        (held_of (plan_of tree modes.items) other)) }
{
    let plan = Plan::of(alloc, tree, modes)?;
    Ok(plan.held(node).conflicts(plan.held(other)))
}
