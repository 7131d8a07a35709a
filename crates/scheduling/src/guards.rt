//! The guards that a task gives up, a node's own and that of the factory in hand, and the node that it counts off.

ghost use Rattle.std.specs.Prelude.{◌≡◌, ◌<◌, ℕ, true, Some, None, IfSome, IfNone};
ghost use Rattle.descriptor.specs.Nodes.{size, is_factory_at};
ghost use Rattle.scheduling.specs.declared.seat.Hand.{Hand as HandValue};
ghost use Rattle.scheduling.specs.declared.task.Closing.TheVariants.{CountingOff};
ghost use Rattle.scheduling.specs.declared.task.Task.TheVariants.{Closes};
ghost use Rattle.scheduling.specs.Due.{guard_due, hand_guard as hand_guard_of, seated, guard_to, reply_in};

use crate::{Answer, Closing, Hand, Opening, Task, is_pulled, pulled_result};
use descriptor::NodeId;
use plan_events::Status;
use resource_locks::Plan;

/// A guard that is to be given up: of this node, which then has this result, and what is in hand after that.
#[derive(Drop)]
pub struct DueGuard {
    pub node: NodeId,
    pub result: Status,
    pub hand: Option<Hand>,
}

/// The guard of the factory in hand, if it may be given up now.
fn hand_guard(plan: &Plan, hand: Option<Hand>, answer: Option<Answer>) -> Option<DueGuard>
    requires inside { (h : HandValue) → hand ≡ Some h → h.factory < size plan.now.tree }
    requires factory { (h : HandValue) → hand ≡ Some h → is_factory_at plan.now.tree h.factory ≡ true }
    ensures some { IfSome result (λ g. hand_guard_of plan.now hand (reply_in answer) ≡ Some
        (guard_to g.node g.result g.hand)) }
    ensures none { IfNone result (hand_guard_of plan.now hand (reply_in answer) ≡ None) }
{
    let Some(held) = hand else {
        return None;
    };
    let Some(answer) = answer else {
        return None;
    };
    if held.waiting.is_some() {
        return None;
    }
    if !is_pulled(plan, held.factory, held.registered, answer) {
        return None;
    }
    Some(DueGuard {
        node: held.factory,
        result: pulled_result(held.registered, answer),
        hand: None,
    })
}

/// The guard that a task gives up, if it gives one up.
pub fn due_guard(
    plan: &Plan,
    answer: Option<Answer>,
    task: Task,
    hand: Option<Hand>,
) -> Option<DueGuard>
    requires inside { (h : HandValue) → hand ≡ Some h → h.factory < size plan.now.tree }
    requires factory { (h : HandValue) → hand ≡ Some h → is_factory_at plan.now.tree h.factory ≡ true }
    ensures some { IfSome result (λ g. guard_due plan.now (reply_in answer) (seated task hand) task ≡ Some
        (guard_to g.node g.result g.hand)) }
    ensures none { IfNone result (guard_due plan.now (reply_in answer) (seated task hand) task ≡ None) }
{
    match task {
        Task::Free => hand_guard(plan, hand, answer),
        Task::Opens(node, opening) => match opening {
            Opening::Guarding => Some(DueGuard {
                node,
                result: Status::Successful,
                hand,
            }),
            _ => None,
        },
        Task::Closes(_, _) => None,
    }
}

/// The node that a task counts off at its parent, if it counts one off.
pub fn counted_off(task: Task) -> Option<NodeId>
    ensures some { IfSome result (λ n. task ≡ Closes n CountingOff) }
    ensures none { IfNone result ((n : ℕ) → task ≡ Closes n CountingOff → ⊥) }
{
    match task {
        Task::Free => None,
        Task::Opens(_, _) => None,
        Task::Closes(node, closing) => match closing {
            Closing::CountingOff => Some(node),
            _ => None,
        },
    }
}
