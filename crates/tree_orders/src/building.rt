//! The tree of the nodes in an order.

ghost use Rattle.std.specs.Prelude.{◌≡◌, None, OnOk};
ghost use Rattle.descriptor.specs.Nodes.{appended, plan_alone, IsTree, MayTake};
ghost use Rattle.descriptor.specs.Refusals.{refusal};
ghost use Rattle.tree_orders.specs.Listed.{IsOrder};
ghost use Rattle.tree_orders.specs.Orders.{reordered};

use crate::parent::parent;
use crate::place::place_in;
use descriptor::{Node, NodeId, NodeLimit, Tree, TreeBuilder, TreeFault};
use std::alloc::{AllocError, Global};

/// Adds a node that is not refused where there may be as many as in any tree.
fn add(
    alloc: Global,
    builder: &mut TreeBuilder,
    parent: NodeId,
    node: Node,
) -> Result<(), AllocError>
    requires may_take { MayTake builder.old parent }
    requires accepted { refusal 16383 builder.old parent node ≡ None }
    ensures { OnOk result (builder.new ≡ appended builder.old parent node) }
{
    match builder.add(alloc, NodeLimit::most(), parent, node) {
        Ok(_) => Ok(()),
        Err(TreeFault::NoMemory) => Err(AllocError),
        Err(_) => unreachable!(),
    }
}

/// Adds copies of a tree's nodes, in an order, to the plan alone.
pub(crate) fn put_all(
    alloc: Global,
    tree: &Tree,
    order: &[NodeId],
    builder: &mut TreeBuilder,
) -> Result<(), AllocError>
    requires tree { IsTree tree.now }
    requires order { IsOrder tree.now order.now }
    requires plan { builder.old ≡ plan_alone }
    ensures { OnOk result (builder.new ≡ reordered tree.now order.now) }
{
    for place in 1..tree.len() {
        let node = order[place];
        let above = place_in(order, parent(tree, node));
        let copy = tree.node(node).copy(alloc)?;
        add(alloc, builder, NodeId::new(above as u16), copy)?;
    }
    Ok(())
}
