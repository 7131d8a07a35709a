//! The keys that a task takes and gives back.

ghost use Rattle.std.specs.Prelude.{◌≡◌, ◌<◌, ℕ, Some, None, IfSome, IfNone};
ghost use Rattle.descriptor.specs.Nodes.{size};
ghost use Rattle.scheduling.specs.Choices.{keys_count};
ghost use Rattle.scheduling.specs.declared.lock_word.LockWord.{LockWord as Word};
ghost use Rattle.scheduling.specs.declared.task.Opening.TheVariants.{Locking, Weighed, Backing};
ghost use Rattle.scheduling.specs.declared.task.Task.TheVariants.{Opens};
ghost use Rattle.scheduling.specs.Due.{back_due, given_seat, tried_task, seated, back_at};

use crate::{Closing, LockWord, Opening, Task, giving, lock_after};
use descriptor::NodeId;
use resource_locks::Plan;

/// The node of a task that looks at a key, and the key's place among those of the node.
pub fn due_weigh(task: Task) -> Option<(NodeId, usize)>
    ensures some { IfSome result (λ k. task ≡ Opens k.0 (Locking k.1)) }
    ensures none { IfNone result ((n i : ℕ) → task ≡ Opens n (Locking i) → ⊥) }
{
    match task {
        Task::Free => None,
        Task::Opens(node, opening) => match opening {
            Opening::Locking(place) => Some((node, place)),
            _ => None,
        },
        Task::Closes(_, _) => None,
    }
}

/// The node of a task that tries to take a key, the key's place, and the status that was seen.
pub fn due_take(task: Task) -> Option<(NodeId, usize, LockWord)>
    ensures some { IfSome result (λ k. task ≡ Opens k.0 (Weighed k.1 k.2)) }
    ensures none { IfNone result ((n i : ℕ) (seen : Word) → task ≡ Opens n (Weighed i seen) → ⊥) }
{
    match task {
        Task::Free => None,
        Task::Opens(node, opening) => match opening {
            Opening::Weighed(place, seen) => Some((node, place, seen)),
            _ => None,
        },
        Task::Closes(_, _) => None,
    }
}

/// The task once the key at this place of those of a node is tried.
pub fn after_try(plan: &Plan, node: NodeId, place: usize, hit: bool) -> Task
    requires node { node < size plan.now.tree }
    requires place { place < keys_count plan.now node }
    ensures { result ≡ tried_task plan.now node place hit }
{
    if hit {
        Task::Opens(node, lock_after(plan, node, place))
    } else {
        Task::Opens(node, Opening::Locking(place))
    }
}

/// The node of a task that gives a key back, and the key's place among those of the node.
pub fn due_back(task: Task) -> Option<(NodeId, usize)>
    ensures some { IfSome result (λ b. back_due task ≡ Some (back_at b.0 b.1)) }
    ensures none { IfNone result (back_due task ≡ None) }
{
    match task {
        Task::Free => None,
        Task::Opens(node, opening) => match opening {
            Opening::Backing(left) if left > 0 => Some((node, left - 1)),
            _ => None,
        },
        Task::Closes(node, closing) => match closing {
            Closing::Giving(left) if left > 0 => Some((node, left - 1)),
            _ => None,
        },
    }
}

/// The task after that.
pub fn after_back(task: Task) -> Task
    ensures { (hand : _) → seated result hand ≡ given_seat (seated task hand) task }
{
    match task {
        Task::Free => Task::Free,
        Task::Opens(node, opening) => match opening {
            Opening::Backing(left) if left > 0 => Task::Opens(node, Opening::Backing(left - 1)),
            _ => Task::Opens(node, opening),
        },
        Task::Closes(node, closing) => match closing {
            Closing::Giving(left) if left > 0 => Task::Closes(node, giving(left - 1)),
            _ => Task::Closes(node, closing),
        },
    }
}

/// The node of a task that offers it again, all keys of which are given back.
pub fn due_give_up(task: Task) -> Option<NodeId>
    ensures some { IfSome result (λ n. task ≡ Opens n (Backing 0)) }
    ensures none { IfNone result ((n : ℕ) → task ≡ Opens n (Backing 0) → ⊥) }
{
    match task {
        Task::Free => None,
        Task::Opens(node, opening) => match opening {
            Opening::Backing(left) => { if left == 0 { Some(node) } else { None } }
            _ => None,
        },
        Task::Closes(_, _) => None,
    }
}
