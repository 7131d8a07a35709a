//! The tasks that look whether the plan is cancelled, and cancel it.

ghost use Rattle.std.specs.Prelude.{◌≡◌, ℕ, IfSome, IfNone};
ghost use Rattle.scheduling.specs.declared.task.Opening.TheVariants.{Noticing};
ghost use Rattle.scheduling.specs.declared.task.Closing.TheVariants.{Raising};
ghost use Rattle.scheduling.specs.declared.task.Task.TheVariants.{Opens, Closes};

use crate::{Closing, Opening, Task};
use descriptor::NodeId;

/// The node of a task that looks whether the plan is cancelled.
pub fn due_notice(task: Task) -> Option<NodeId>
    ensures some { IfSome result (λ n. task ≡ Opens n Noticing) }
    ensures none { IfNone result ((n : ℕ) → task ≡ Opens n Noticing → ⊥) }
{
    match task {
        Task::Free => None,
        Task::Opens(node, opening) => match opening {
            Opening::Noticing => Some(node),
            _ => None,
        },
        Task::Closes(_, _) => None,
    }
}

/// The node of a task that cancels the plan.
pub fn due_raise(task: Task) -> Option<NodeId>
    ensures some { IfSome result (λ n. task ≡ Closes n Raising) }
    ensures none { IfNone result ((n : ℕ) → task ≡ Closes n Raising → ⊥) }
{
    match task {
        Task::Free => None,
        Task::Opens(_, _) => None,
        Task::Closes(node, closing) => match closing {
            Closing::Raising => Some(node),
            _ => None,
        },
    }
}
