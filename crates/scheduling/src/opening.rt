//! The words of a run at its start.

ghost use Rattle.std.specs.Prelude.{◌≡◌, ◌<◌, IfOk, replicate};
ghost use Rattle.descriptor.specs.Nodes.{size};
ghost use Rattle.resource_locks.specs.Held.{table};
ghost use Rattle.scheduling.specs.Inside.Start.{guard_and_children, free_seat};

use crate::seat::Seat;
use crate::task::Task;
use descriptor::{NodeId, Tree};
use std::alloc::{AllocError, Global};

/// One for a node's own guard, and one for each of its children; a factory's are counted as they are registered.
fn counter_at_start(tree: &Tree, node: NodeId) -> usize
    requires { node < size tree.now }
    ensures { result ≡ guard_and_children tree.now node }
{
    if tree.role(node).is_factory() {
        1
    } else {
        tree.children(node).len() + 1
    }
}

/// The counter of each node.
pub fn counters_at_start(alloc: Global, tree: &Tree) -> Result<Vec<usize>, AllocError>
    ensures { IfOk result (λ v. v.items ≡ table (guard_and_children tree.now) (size tree.now)) }
{
    let mut counters = Vec::with_capacity(alloc, tree.len())?;
    for index in 0..tree.len() {
        counters.push(counter_at_start(tree, NodeId::new(index as u16)))?;
    }
    Ok(counters)
}

/// A seat for each worker, all free.
pub fn seats_at_start(alloc: Global, workers: u8) -> Result<Vec<Seat>, AllocError>
    ensures { IfOk result (λ v. v.items ≡ replicate workers free_seat) }
{
    let free = Seat {
        task: Task::Free,
        hand: None,
    };
    vec![in alloc; free; usize::from(workers)]
}
