//! Which node holds the locks that each node declares, and what follows for execution modes.
//!
//! A node's top is the child of an engine that it is at or below. A top is whole where a node at or
//! below it is isolated, or declares the global lock in READ_WRITE: it then holds all that is
//! declared at or below it.

ghost use Rattle.std.specs.Prelude.{◌≡◌, ◌<◌, IfOk, length, cond, ◌&&◌};
ghost use Rattle.descriptor.specs.Nodes.{size, parent_of, locks_of};
ghost use Rattle.descriptor.specs.declared.lock_mode.LockMode.TheVariants.{Read, ReadWrite};
ghost use Rattle.resource_locks.specs.Declarations.{declared_of, global, IsLockTree};
ghost use Rattle.resource_locks.specs.Held.{walk, table, isolates, top_step, holder_step, is_whole, own, held};
ghost use Rattle.resource_locks.specs.Held.{hoisted_mode};
ghost use Rattle.resource_locks.specs.Held.{own as own_at};
ghost use Rattle.resource_locks.specs.Wants.{is_write};
ghost use Rattle.std.specs.List.{list_any};
ghost use Rattle.std.specs.Str.{bytes_eq};

use crate::lock_names::GLOBAL;
use crate::lock_set::{LockSet, is_writing};
use descriptor::{Lock, LockMode, Mode, NodeId, Tree};
use std::alloc::{AllocError, Global};
use unique_id::both;

/// The locks that each node holds.
pub(crate) fn held_sets(alloc: Global, tree: &Tree) -> Result<Vec<LockSet>, AllocError>
    ensures held { IfOk result (λ v. v.items ≡ table (held (declared_of tree.now)) (size tree.now)) }
    ensures len { IfOk result (λ v. length v.items ≡ size tree.now) }
{
    let tops = tops(alloc, tree)?;
    let wholes = wholes(alloc, tree, &tops)?;
    let holders = holders(alloc, tree, &tops, &wholes);
    let (holders, own) = both(holders, own(alloc, tree, &tops, &wholes))?;
    gathered(tree, &holders, own)
}

/// The execution mode of each node, by those that were given and by what is held.
pub(crate) fn hoisted_modes(
    alloc: Global,
    tree: &Tree,
    sets: &[LockSet],
    given: Vec<Mode>,
) -> Result<Vec<Mode>, AllocError>
    requires held { sets.now ≡ table (held (declared_of tree.now)) (size tree.now) }
    requires held_len { length sets.now ≡ size tree.now }
    requires given { length given.items ≡ size tree.now }
    ensures modes { IfOk result (λ v. v.items ≡ table (hoisted_mode (declared_of tree.now) given.items)
        (size tree.now)) }
    ensures len { IfOk result (λ v. length v.items ≡ size tree.now) }
{
    let _ = node_count(tree);
    let mut modes = given;
    // whether a node at or above each holds a key in READ_WRITE
    let mut writers = vec![in alloc; sets[0].writes()]?;
    for node in 1..node_count(tree) {
        let above = writers[parent(tree, node)];
        if above {
            modes[node] = Mode::SameThread;
        }
        writers.push(above || sets[node].writes())?;
    }
    Ok(modes)
}

/// How many nodes there are, the plan included.
fn node_count(tree: &Tree) -> usize
    ensures len { result ≡ size tree.now }
    ensures tree { IsLockTree (declared_of tree.now) }
{
    tree.len()
}

/// The number of a node's parent.
pub(crate) fn parent(tree: &Tree, node: usize) -> usize
    requires above_zero { 0 < node }
    requires inside { node < size tree.now }
    ensures value { result ≡ parent_of tree.now node }
    ensures smaller { result < node }
{
    let _ = tree.len();
    match tree.parent(NodeId::new(node as u16)) {
        Some(parent) => parent.index(),
        None => unreachable!(),
    }
}

/// The locks that a node declares.
fn locks(tree: &Tree, node: usize) -> &[Lock]
    requires { node < size tree.now }
    ensures { result.now ≡ locks_of tree.now node }
{
    let _ = tree.len();
    tree.locks(NodeId::new(node as u16))
}

/// Whether a node is isolated, or declares the global lock in READ_WRITE.
fn isolates(tree: &Tree, node: usize) -> bool
    requires { node < size tree.now }
    ensures { result ≡ isolates (declared_of tree.now) node }
{
    let _ = tree.len();
    let node = NodeId::new(node as u16);
    tree.is_isolated(node) || writes_global(tree.locks(node))
}

fn writes_global(locks: &[Lock]) -> bool
    ensures { result ≡ list_any (λ lock. bytes_eq global lock.key && is_write lock.mode) locks.now }
{
    locks.iter().any(|lock| GLOBAL == lock.key.as_str() && is_writing(lock.mode))
}

/// The top of each node; 0 for the plan and for engines.
fn tops(alloc: Global, tree: &Tree) -> Result<Vec<usize>, AllocError>
    ensures tops { IfOk result (λ v. v.items ≡ walk tree.now (top_step tree.now) 0 (size tree.now)) }
    ensures len { IfOk result (λ v. length v.items ≡ size tree.now) }
{
    let mut tops = vec![in alloc; 0usize]?;
    for node in 1..node_count(tree) {
        let above = tops[parent(tree, node)];
        tops.push(top_of(tree, node, above))?;
    }
    Ok(tops)
}

/// The top of one node, by that of its parent.
fn top_of(tree: &Tree, node: usize, above: usize) -> usize
    requires above_zero { 0 < node }
    requires inside { node < size tree.now }
    ensures { result ≡ top_step tree.now node above }
{
    let engine = parent(tree, node);
    if engine == 0 {
        0
    } else if parent(tree, engine) == 0 {
        node
    } else {
        above
    }
}

/// Whether each node is a top that is whole.
fn wholes(alloc: Global, tree: &Tree, tops: &[usize]) -> Result<Vec<bool>, AllocError>
    requires tops { tops.now ≡ walk tree.now (top_step tree.now) 0 (size tree.now) }
    requires len { length tops.now ≡ size tree.now }
    ensures wholes { IfOk result (λ v. v.items ≡ table (is_whole (declared_of tree.now)) (size tree.now)) }
    ensures len { IfOk result (λ v. length v.items ≡ size tree.now) }
{
    let mut wholes = vec![in alloc; false; node_count(tree)]?;
    for node in 1..node_count(tree) {
        if isolates(tree, node) {
            wholes[tops[node]] = true;
        }
    }
    Ok(wholes)
}

/// The node that holds what each node declares; 0 where there is none.
fn holders(
    alloc: Global,
    tree: &Tree,
    tops: &[usize],
    wholes: &[bool],
) -> Result<Vec<usize>, AllocError>
    requires tops { tops.now ≡ walk tree.now (top_step tree.now) 0 (size tree.now) }
    requires tops_len { length tops.now ≡ size tree.now }
    requires wholes { wholes.now ≡ table (is_whole (declared_of tree.now)) (size tree.now) }
    requires wholes_len { length wholes.now ≡ size tree.now }
    ensures holders { IfOk result (λ v. v.items ≡ walk tree.now (holder_step (declared_of tree.now)) 0
        (size tree.now)) }
    ensures len { IfOk result (λ v. length v.items ≡ size tree.now) }
{
    let mut holders = vec![in alloc; 0usize]?;
    for node in 1..node_count(tree) {
        let above = holders[parent(tree, node)];
        holders.push(holder_of(tree, tops, wholes, node, above))?;
    }
    Ok(holders)
}

/// The node that holds what one node declares, by the one that holds what its parent declares; 0 where there is none.
fn holder_of(tree: &Tree, tops: &[usize], wholes: &[bool], node: usize, above: usize) -> usize
    requires above_zero { 0 < node }
    requires inside { node < size tree.now }
    requires tops { tops.now ≡ walk tree.now (top_step tree.now) 0 (size tree.now) }
    requires tops_len { length tops.now ≡ size tree.now }
    requires wholes { wholes.now ≡ table (is_whole (declared_of tree.now)) (size tree.now) }
    requires wholes_len { length wholes.now ≡ size tree.now }
    ensures { result ≡ holder_step (declared_of tree.now) node above }
{
    // the contract of `node_count` tells that it is a tree
    let _ = node_count(tree);
    let top = tops[node];
    if top == 0 {
        0
    } else if wholes[top] {
        top
    } else if 0 < above {
        above
    } else if 0 < locks(tree, node).len() {
        node
    } else {
        0
    }
}

/// The global lock, for each top.
fn own(
    alloc: Global,
    tree: &Tree,
    tops: &[usize],
    wholes: &[bool],
) -> Result<Vec<LockSet>, AllocError>
    requires tops { tops.now ≡ walk tree.now (top_step tree.now) 0 (size tree.now) }
    requires tops_len { length tops.now ≡ size tree.now }
    requires wholes { wholes.now ≡ table (is_whole (declared_of tree.now)) (size tree.now) }
    requires wholes_len { length wholes.now ≡ size tree.now }
    ensures own { IfOk result (λ v. v.items ≡ table (own (declared_of tree.now)) (size tree.now)) }
    ensures len { IfOk result (λ v. length v.items ≡ size tree.now) }
{
    let mut sets = Vec::with_capacity(alloc, node_count(tree))?;
    for node in 0..node_count(tree) {
        sets.push(own_of(alloc, tree, tops, wholes, node)?)?;
    }
    Ok(sets)
}

/// The global lock if the node is a top, in READ_WRITE if that is whole; else no lock.
fn own_of(
    alloc: Global,
    tree: &Tree,
    tops: &[usize],
    wholes: &[bool],
    node: usize,
) -> Result<LockSet, AllocError>
    requires inside { node < size tree.now }
    requires tops { tops.now ≡ walk tree.now (top_step tree.now) 0 (size tree.now) }
    requires tops_len { length tops.now ≡ size tree.now }
    requires wholes { wholes.now ≡ table (is_whole (declared_of tree.now)) (size tree.now) }
    requires wholes_len { length wholes.now ≡ size tree.now }
    ensures { IfOk result (λ s. s ≡ own (declared_of tree.now) node) }
{
    let mut set = LockSet::new(alloc);
    if 0 < node && tops[node] == node {
        set.put(GLOBAL, global_mode(wholes[node]))?;
    }
    Ok(set)
}

/// How a top holds the global lock.
fn global_mode(whole: bool) -> LockMode
    ensures { result ≡ cond whole ReadWrite Read }
{
    if whole {
        LockMode::ReadWrite
    } else {
        LockMode::Read
    }
}

/// These sets, each joined with what is declared by the nodes that it is held for.
fn gathered(tree: &Tree, holders: &[usize], own: Vec<LockSet>) -> Result<Vec<LockSet>, AllocError>
    requires holders { holders.now ≡ walk tree.now (holder_step (declared_of tree.now)) 0 (size tree.now) }
    requires holders_len { length holders.now ≡ size tree.now }
    requires own { own.items ≡ table (own_at (declared_of tree.now)) (size tree.now) }
    requires own_len { length own.items ≡ size tree.now }
    ensures held { IfOk result (λ v. v.items ≡ table (held (declared_of tree.now)) (size tree.now)) }
    ensures len { IfOk result (λ v. length v.items ≡ size tree.now) }
{
    let mut sets = own;
    for node in 1..node_count(tree) {
        let holder = holders[node];
        if 0 < holder {
            sets[holder].put_all(locks(tree, node))?;
        }
    }
    Ok(sets)
}
