//! Where a node is put among the nodes before it.

ghost use Rattle.std.specs.Prelude.{◌≡◌, ◌<◌, ◌≤◌, ℕ, drop, length, slice_index};
ghost use Rattle.descriptor.specs.Nodes.{size, parent_of, IsTree};
ghost use Rattle.tree_orders.specs.Draws.{elders};
ghost use Rattle.tree_orders.specs.Listed.{IsListed};
ghost use Rattle.tree_orders.specs.Orders.{is_stop, left_behind, passed, place_behind, place_in, slot};

use crate::parent::parent;
use descriptor::{NodeId, Tree};

/// The place of a node in a list, or the list's length if it is not in it.
pub(crate) fn place_in(order: &[NodeId], node: NodeId) -> usize
    ensures { result ≡ place_in order.now node }
{
    for (i, other) in order.iter().enumerate() {
        if *other == node {
            return i;
        }
    }
    order.len()
}

/// How many elder siblings a node has.
pub(crate) fn elders(tree: &Tree, node: NodeId) -> usize
    requires above_zero { 0 < node }
    requires inside { node < size tree.now }
    ensures same { result ≡ elders tree.now node }
    ensures few { result ≤ node }
{
    let above = parent(tree, node);
    let mut count = 0;
    for number in 1..node.index() {
        if parent(tree, NodeId::new(number as u16)) == above {
            count += 1;
        }
    }
    count
}

/// Whether a child of a node that is still to pass so many siblings is put before a node below which
/// its parent is not.
fn is_stop(tree: &Tree, above: NodeId, left: usize, node: NodeId) -> bool
    requires above_zero { 0 < node }
    requires inside { node < size tree.now }
    ensures { result ≡ is_stop tree.now above left node }
{
    let other = parent(tree, node);
    other < above || other == above && left == 0
}

/// How many siblings are still to be passed behind a node.
fn left_behind(tree: &Tree, above: NodeId, left: usize, node: NodeId) -> usize
    requires above_zero { 0 < node }
    requires inside { node < size tree.now }
    ensures { result ≡ left_behind tree.now above left node }
{
    if parent(tree, node) == above {
        left.saturating_sub(1)
    } else {
        left
    }
}

/// How many of the nodes that stand behind a node are passed by a child of it that passes so many of
/// its siblings.
fn passed(tree: &Tree, above: NodeId, siblings: usize, behind: &[NodeId]) -> usize
    requires above_zero { (k : ℕ) → k < length behind.now → 0 < slice_index behind.now k }
    requires inside { (k : ℕ) → k < length behind.now → slice_index behind.now k < size tree.now }
    ensures same { result ≡ passed tree.now above siblings behind.now }
    ensures inside { result ≤ length behind.now }
{
    let mut left = siblings;
    for (i, node) in behind.iter().enumerate() {
        if is_stop(tree, above, left, *node) {
            return i;
        }
        left = left_behind(tree, above, left, *node);
    }
    behind.len()
}

/// The nodes from a place on.
fn rest_from(order: &[NodeId], start: usize) -> &[NodeId]
    requires { start ≤ length order.now }
    ensures { result.now ≡ drop start order.now }
{
    &order[start..]
}

/// The place behind a node of a child of it that passes so many of its siblings.
fn place_behind(tree: &Tree, above: NodeId, left: usize, order: &[NodeId], count: usize) -> usize
    requires listed { IsListed order.now count }
    requires parent { above < count }
    requires inside { count ≤ size tree.now }
    ensures same { result ≡ place_behind tree.now above left order.now }
    ensures inside { result ≤ count }
{
    let start = place_in(order, above) + 1;
    let behind = rest_from(order, start);
    start + passed(tree, above, left, behind)
}

/// Where a node is put among all nodes before it, of which it passes so many elder siblings.
pub(crate) fn slot(tree: &Tree, drawn: usize, node: NodeId, order: &[NodeId]) -> usize
    requires tree { IsTree tree.now }
    requires above_zero { 0 < node }
    requires inside { node < size tree.now }
    requires listed { IsListed order.now node }
    ensures same { result ≡ slot tree.now drawn node order.now }
    ensures inside { result ≤ node }
{
    if tree.role(node).is_spare() {
        return place_in(order, NodeId::new(node.number() - 1)) + 1;
    }
    place_behind(tree, parent(tree, node), drawn, order, node.index())
}
