//! The tree whose nodes a seed has put in another order.

ghost use Rattle.std.specs.Prelude.{◌≡◌, ℕ, IfOk};
ghost use Rattle.descriptor.specs.Children.{ListsChildren};
ghost use Rattle.descriptor.specs.Nodes.{IsTree};
ghost use Rattle.tree_orders.specs.Orders.{seeded};
ghost use Rattle.tree_orders.specs.Reordered.{IsReordered};

use crate::building::put_all;
use crate::order::order;
use descriptor::{Tree, TreeBuilder};
use std::alloc::{AllocError, Global};

/// The tree in which the children of each node stand in an order drawn from a seed, dynamic tests but
/// not: the same seed gives the same order of the same tree.
pub fn ordered_by_seed(alloc: Global, tree: Tree, seed: u64) -> Result<Tree, AllocError>
    ensures ok { IfOk result (λ found. found ≡ seeded seed tree) }
    ensures tree { IfOk result (λ found. IsTree found) }
    ensures children { IfOk result (λ found. (n : ℕ) → ListsChildren found n) }
    // It has the same nodes, told of as before, below the same parents; dynamic tests stay where they are.
    ensures reordered { IsReordered tree (seeded seed tree) }
{
    // the contract of `len` tells that it is a tree
    let _ = tree.len();
    reordered_tree(alloc, &tree, seed)
}

/// Builds that tree of copies.
fn reordered_tree(alloc: Global, tree: &Tree, seed: u64) -> Result<Tree, AllocError>
    requires { IsTree tree.now }
    ensures ok { IfOk result (λ found. found ≡ seeded seed tree.now) }
    ensures tree { IfOk result (λ found. IsTree found) }
    ensures children { IfOk result (λ found. (n : ℕ) → ListsChildren found n) }
{
    let order = order(alloc, tree, seed)?;
    let mut builder = TreeBuilder::with_capacity(alloc, tree.len() - 1)?;
    match put_all(alloc, tree, order.as_slice(), &mut builder) {
        Ok(()) => Ok(builder.finish()),
        Err(error) => {
            drop(builder);
            Err(error)
        }
    }
}
