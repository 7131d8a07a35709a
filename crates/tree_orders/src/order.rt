//! The order of a tree's nodes by a seed.

ghost use Rattle.std.specs.Prelude.{◌≡◌, ◌<◌, ◌≤◌, IfOk};
ghost use Rattle.descriptor.specs.Nodes.{size, IsTree};
ghost use Rattle.tree_orders.specs.Draws.{draw, word_of};
ghost use Rattle.tree_orders.specs.Listed.{IsListed, IsOrder};
ghost use Rattle.tree_orders.specs.Orders.{seeded_order, slot};

use crate::place::{elders, slot};
use crate::words::words;
use descriptor::{NodeId, Tree};
use std::alloc::{AllocError, Global};

/// Where a node is put that has this word.
fn drawn_slot(tree: &Tree, word: u32, node: NodeId, order: &[NodeId], seed: u64) -> usize
    requires tree { IsTree tree.now }
    requires above_zero { 0 < node }
    requires inside { node < size tree.now }
    requires listed { IsListed order.now node }
    requires word { word ≡ word_of seed node }
    ensures same { result ≡ slot tree.now (draw tree.now seed node) node order.now }
    ensures inside { result ≤ node }
{
    let drawn = word as usize % (elders(tree, node) + 1);
    slot(tree, drawn, node, order)
}

/// All nodes of a tree in their order by a seed.
pub(crate) fn order(alloc: Global, tree: &Tree, seed: u64) -> Result<Vec<NodeId>, AllocError>
    requires { IsTree tree.now }
    ensures same { IfOk result (λ order. order.items ≡ seeded_order seed tree.now) }
    ensures order { IfOk result (λ order. IsOrder tree.now order.items) }
{
    let words = words(alloc, seed, tree.len())?;
    let mut order = Vec::with_capacity(alloc, tree.len())?;
    order.push(NodeId::ROOT)?;
    for last in 0..tree.len() - 1 {
        let node = NodeId::new((last + 1) as u16);
        let place = drawn_slot(tree, words[last + 1], node, order.as_slice(), seed);
        order.insert(place, node)?;
    }
    Ok(order)
}
