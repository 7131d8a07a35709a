//! Calls `selectors`: the half of a tree that one of two machines runs.

ghost use Rattle.std.specs.Prelude.{◌≡◌, ◌==◌, ◌%◌, IfOk};
ghost use Rattle.selectors.specs.Shards.{picked, AreApart};
ghost use Rattle.selectors.specs.Units.{units};
ghost use Rattle.uses.specs.ShardResults.{EachIsRun, EndsAlike, NoUnitHasAfter};

use descriptor::Tree;
use selectors::{Dealing, Shard, shard_of};
use std::alloc::{AllocError, Global};

/// The first of the tests and factories of a tree, the third, the fifth and so on.
pub fn every_other(alloc: Global, tree: Tree) -> Result<Tree, AllocError>
    ensures { IfOk result (λ half. AreApart tree → units half ≡ picked (λ place _. place % 2 == 0) 0 (units tree)) }
{
    let Some(shard) = Shard::of(1, 2, Dealing::InTurn) else {
        return Err(AllocError);
    };
    shard_of(alloc, tree, &shard)
}

/// The tree of a shard. Each of its nodes is expected to end as in a run of the whole, and each node that is run with
/// all tests and factories is in some shard: so the whole fails just if one of the shards does.
pub fn share_of(alloc: Global, tree: Tree, shard: &Shard) -> Result<Tree, AllocError>
    ensures alike { IfOk result (λ found. NoUnitHasAfter tree → EndsAlike tree shard.now found) }
    ensures each { EachIsRun tree shard.now.count shard.now.dealing }
{
    // the contract of `len` tells that it is a tree
    let _ = tree.len();
    shard_of(alloc, tree, shard)
}
