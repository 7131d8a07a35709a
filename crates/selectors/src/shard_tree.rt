//! The tree of a shard.

ghost use Rattle.std.specs.Prelude.{◌≡◌, ℕ, ◌<◌, ◌↔◌, true, IfOk};
ghost use Rattle.descriptor.specs.Children.{ListsChildren};
ghost use Rattle.descriptor.specs.Nodes.{size, is_spare_at, IsTree};
ghost use Rattle.descriptor.specs.Pruned.{KeepsNodes};
ghost use Rattle.selectors.specs.Covered.{truths};
ghost use Rattle.selectors.specs.Keeping.{is_taken, stays, Stays};
ghost use Rattle.selectors.specs.Shards.{gets, is_unit_of, picked, place_of, shard as shard_in, AreApart, AreDealtOut};
ghost use Rattle.selectors.specs.Units.{is_unit, units};

use crate::kept::kept;
use crate::shard::Shard;
use crate::taken::is_selectable;
use descriptor::{NodeId, Tree};
use std::alloc::{AllocError, Global};

/// Whether the node is a unit.
fn is_unit(tree: &Tree, node: NodeId) -> bool
    requires { node < size tree.now }
    ensures { result ≡ is_unit tree.now node }
{
    is_selectable(tree.kind(node), tree.role(node))
}

/// Whether a spare is taken, which it is where its factory is.
fn is_spare_taken(tree: &Tree, shard: &Shard, before: &[bool], node: NodeId) -> bool
    requires tree { IsTree tree.now }
    requires inside { node < size tree.now }
    requires spare { is_spare_at tree.now node ≡ true }
    requires before { before.now ≡ truths (is_taken tree.now (is_unit_of tree.now shard.now)) node }
    ensures { result ≡ is_taken tree.now (is_unit_of tree.now shard.now) node }
{
    match tree.parent(node) {
        Some(factory) => before[factory.index()],
        None => false,
    }
}

/// Whether the node is taken, where so many units come before it, and this is known of all nodes
/// before it.
fn is_taken(tree: &Tree, shard: &Shard, place: usize, before: &[bool], node: NodeId) -> bool
    requires tree { IsTree tree.now }
    requires inside { node < size tree.now }
    requires place { place ≡ place_of tree.now node }
    requires before { before.now ≡ truths (is_taken tree.now (is_unit_of tree.now shard.now)) node }
    ensures { result ≡ is_taken tree.now (is_unit_of tree.now shard.now) node }
{
    if tree.role(node).is_spare() {
        return is_spare_taken(tree, shard, before, node);
    }
    is_unit(tree, node) && shard.gets(place, tree.node(node))
}

/// For each node whether it is taken: it is a unit that the shard gets, or a spare of such a factory.
fn taken(alloc: Global, tree: &Tree, shard: &Shard) -> Result<Vec<bool>, AllocError>
    requires { IsTree tree.now }
    ensures { IfOk result (λ taken. taken.items ≡ truths (is_taken tree.now (is_unit_of tree.now shard.now))
        (size tree.now)) }
{
    let mut taken = Vec::with_capacity(alloc, tree.len())?;
    let mut place = 0;
    for number in 0..tree.len() {
        let node = NodeId::new(number as u16);
        let here = is_taken(tree, shard, place, taken.as_slice(), node);
        taken.push(here)?;
        if is_unit(tree, node) {
            place += 1;
        }
    }
    Ok(taken)
}

/// The tree of the units that the shard gets of a tree, with the spares of its factories and with all
/// that these are below, its nodes numbered anew, in their order and with their bodies. A shard may
/// have no unit, and is then the plan alone.
pub fn shard_of(alloc: Global, tree: Tree, shard: &Shard) -> Result<Tree, AllocError>
    ensures ok { IfOk result (λ found. found ≡ shard_in tree shard.now) }
    ensures tree { IfOk result (λ found. IsTree found) }
    ensures children { IfOk result (λ found. (n : ℕ) → ListsChildren found n) }
    // A shard's units are those of the tree that it gets, in the tree's order.
    ensures units { AreApart tree → units (shard_in tree shard.now) ≡ picked (gets shard.now) 0 (units tree) }
    // Each node of it is one of the tree, of which all is told as before, below the parent that it had.
    ensures kept { KeepsNodes tree (truths (stays tree (is_unit_of tree shard.now)) (size tree)) (shard_in tree shard.now) }
    // Each unit of the tree is got by one shard of as many, and by no two.
    ensures dealt { AreDealtOut tree shard.now.count shard.now.dealing }
    // What staying comes to.
    ensures stays { (n : ℕ) → n < size tree → (stays tree (is_unit_of tree shard.now) n ≡ true)
        ↔ Stays tree (is_unit_of tree shard.now) n }
{
    // the contract of `len` tells that it is a tree, that of `count` that there is a shard
    let _ = tree.len();
    let _ = shard.count();
    made(alloc, tree, shard)
}

/// Makes the tree of a shard.
fn made(alloc: Global, tree: Tree, shard: &Shard) -> Result<Tree, AllocError>
    requires { IsTree tree }
    ensures ok { IfOk result (λ found. found ≡ shard_in tree shard.now) }
    ensures tree { IfOk result (λ found. IsTree found) }
    ensures children { IfOk result (λ found. (n : ℕ) → ListsChildren found n) }
{
    let taken = taken(alloc, &tree, shard)?;
    let keep = kept(&tree, taken);
    tree.into_pruned(alloc, keep.as_slice())
}
