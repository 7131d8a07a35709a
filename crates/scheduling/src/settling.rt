//! The tasks that settle a node, and look for who takes its next sibling.

ghost use Rattle.std.specs.Prelude.{◌≡◌, ℕ, IfSome, IfNone};
ghost use Rattle.scheduling.specs.declared.task.Closing.TheVariants.{Settling, Looking};
ghost use Rattle.scheduling.specs.declared.task.Task.TheVariants.{Closes};

use crate::{Closing, Task};
use descriptor::NodeId;

/// The node of a task that settles it.
pub fn due_settle(task: Task) -> Option<NodeId>
    ensures some { IfSome result (λ n. task ≡ Closes n Settling) }
    ensures none { IfNone result ((n : ℕ) → task ≡ Closes n Settling → ⊥) }
{
    match task {
        Task::Free => None,
        Task::Opens(_, _) => None,
        Task::Closes(node, closing) => match closing {
            Closing::Settling => Some(node),
            _ => None,
        },
    }
}

/// The node of a task that looks who takes the next sibling, and the sibling.
pub fn due_look(task: Task) -> Option<(NodeId, NodeId)>
    ensures some { IfSome result (λ l. task ≡ Closes l.0 (Looking l.1)) }
    ensures none { IfNone result ((n m : ℕ) → task ≡ Closes n (Looking m) → ⊥) }
{
    match task {
        Task::Free => None,
        Task::Opens(_, _) => None,
        Task::Closes(node, closing) => match closing {
            Closing::Looking(sibling) => Some((node, sibling)),
            _ => None,
        },
    }
}
