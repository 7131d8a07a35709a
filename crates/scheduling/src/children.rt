//! The next dynamic test of the factory in hand.

ghost use Rattle.std.specs.Prelude.{◌≡◌, ◌<◌, ℕ, true, Some, IfSome, IfNone};
ghost use Rattle.descriptor.specs.Nodes.{size, is_factory_at};
ghost use Rattle.scheduling.specs.declared.seat.Hand.{Hand as HandValue};
ghost use Rattle.scheduling.specs.Due.{IsChildDue};

use crate::{Hand, Task, next_spare};
use descriptor::NodeId;
use resource_locks::Plan;

/// The factory in hand and its next dynamic test, if the task is free and the factory waits for none.
pub fn due_child(plan: &Plan, task: Task, hand: Option<Hand>) -> Option<(Hand, NodeId)>
    requires inside { (h : HandValue) → hand ≡ Some h → h.factory < size plan.now.tree }
    requires factory { (h : HandValue) → hand ≡ Some h → is_factory_at plan.now.tree h.factory ≡ true }
    ensures some { IfSome result (λ c. IsChildDue plan.now task hand c.0 c.1) }
    ensures none { IfNone result ((h : HandValue) (n : ℕ) → IsChildDue plan.now task hand h n → ⊥) }
{
    let (Task::Free, Some(held)) = (task, hand) else {
        return None;
    };
    if held.waiting.is_some() {
        return None;
    }
    let Some(child) = next_spare(plan, held.factory, held.registered) else {
        return None;
    };
    Some((held, child))
}
