//! Calls `tree_orders`: the tree of tests in a seed's order.

ghost use Rattle.std.specs.Prelude.{IfOk};
ghost use Rattle.uses.specs.OrderResults.{EndsAsBefore};

use descriptor::Tree;
use std::alloc::{AllocError, Global};
use tree_orders::ordered_by_seed;

/// The tree in the order of a seed. Each of its nodes is expected to end as in the order of the tree itself: so a test
/// that ends otherwise depends on what runs before it.
pub fn shuffled(alloc: Global, tree: Tree, seed: u64) -> Result<Tree, AllocError>
    ensures { IfOk result (λ found. EndsAsBefore seed tree found) }
{
    // the contract of `len` tells that it is a tree
    let _ = tree.len();
    ordered_by_seed(alloc, tree, seed)
}
