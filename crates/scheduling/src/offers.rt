//! The nodes that a task offers.

ghost use Rattle.std.specs.Prelude.{◌≡◌, ◌<◌, ℕ, suc, Some, None, IfSome, IfNone};
ghost use Rattle.descriptor.specs.Nodes.{size, IsChild};
ghost use Rattle.scheduling.specs.LinkLists.{AreTurns};
ghost use Rattle.scheduling.specs.Choices.{admit_from};
ghost use Rattle.scheduling.specs.declared.task.Opening.{Opening as OpeningValue};
ghost use Rattle.scheduling.specs.declared.task.Opening.TheVariants.{Admitting};
ghost use Rattle.scheduling.specs.declared.task.Task.TheVariants.{Opens};
ghost use Rattle.scheduling.specs.Due.{offer_due, admitted_seat, seated, offer_to};

use crate::{Closing, Hand, Opening, Seat, Task, Turns, offered_to, waits_for};
use descriptor::NodeId;
use resource_locks::Plan;

/// The node that a task of the worker at this place offers, if it offers one, and to whom.
pub fn due_offer(plan: &Plan, place: u8, task: Task) -> Option<(NodeId, Option<u8>)>
    requires offers { (n : ℕ) (d : OpeningValue) → task ≡ Opens n d → n < size plan.now.tree }
    requires admits { (n c : ℕ) (d : OpeningValue) → task ≡ Opens n d → d ≡ Admitting c → IsChild plan.now.tree n c }
    ensures some { IfSome result (λ o. offer_due plan.now place task ≡ Some (offer_to o.0 o.1)) }
    ensures none { IfNone result (offer_due plan.now place task ≡ None) }
{
    match task {
        Task::Free => None,
        Task::Opens(node, opening) => match opening {
            Opening::Admitting(child) => Some((child, offered_to(plan, place, child))),
            Opening::Offering => Some((node, offered_to(plan, place, node))),
            _ => None,
        },
        Task::Closes(_, closing) => match closing {
            Closing::Passing(sibling, owner) => Some((sibling, Some(owner))),
            _ => None,
        },
    }
}

/// How a node goes on whose child, this one, is offered.
fn after_child(turns: &Turns, plan: &Plan, node: NodeId, child: NodeId) -> Task
    requires turns { AreTurns plan.now turns.now }
    requires child { IsChild plan.now.tree node child }
    ensures { result ≡ Opens node (admit_from plan.now node (suc child)) }
{
    Task::Opens(node, turns.admit_after(child))
}

/// What the worker has once the node that its task offers is offered.
pub fn after_offer(plan: &Plan, turns: &Turns, task: Task, hand: Option<Hand>) -> Seat
    requires turns { AreTurns plan.now turns.now }
    requires offers { (n : ℕ) (d : OpeningValue) → task ≡ Opens n d → n < size plan.now.tree }
    requires admits { (n c : ℕ) (d : OpeningValue) → task ≡ Opens n d → d ≡ Admitting c → IsChild plan.now.tree n c }
    ensures { result ≡ admitted_seat plan.now (seated task hand) task }
{
    match task {
        Task::Free => Seat { task, hand },
        Task::Opens(node, opening) => match opening {
            Opening::Admitting(child) => Seat {
                task: after_child(turns, plan, node, child),
                hand,
            },
            Opening::Offering => Seat {
                task: Task::Free,
                hand: waits_for(plan, node, hand),
            },
            _ => Seat {
                task: Task::Opens(node, opening),
                hand,
            },
        },
        Task::Closes(node, closing) => match closing {
            Closing::Passing(_, _) => Seat {
                task: Task::Closes(node, Closing::CountingOff),
                hand,
            },
            _ => Seat {
                task: Task::Closes(node, closing),
                hand,
            },
        },
    }
}
