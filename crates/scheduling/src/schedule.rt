//! The steps of the fixed schedule of one worker, by its task and by the factory in its hand.

ghost use Rattle.std.specs.Prelude.{◌≡◌, ◌<◌, true};
ghost use Rattle.descriptor.specs.Nodes.{size, is_factory_at};
ghost use Rattle.scheduling.specs.Answers.{reply_by};
ghost use Rattle.scheduling.specs.Inside.Lowest.{lowest_after as lowest_then, lower as lower_then, offered_closing};
ghost use Rattle.scheduling.specs.declared.task.Task.{Task};
ghost use Rattle.scheduling.specs.Schedule.{is_open as is_open_of, taking as taking_of};
ghost use Rattle.scheduling.specs.Schedule.{hand_action as hand_action_of, opening_action as opening_action_of};
ghost use Rattle.scheduling.specs.Schedule.{closing_action as closing_action_of};

use crate::answer::Answer;
use crate::choices::next_spare;
use crate::seat::Hand;
use crate::status::NodeStatus;
use crate::step::Action;
use crate::task::{Closing, Opening};
use descriptor::NodeId;
use resource_locks::Plan;

/// Whether the only worker may take a node that is there.
pub fn is_open(status: NodeStatus) -> bool
    ensures { result ≡ is_open_of status }
{
    match status {
        NodeStatus::Ready(None) => true,
        NodeStatus::Ready(Some(place)) => place == 0,
        NodeStatus::Hidden | NodeStatus::Claimed(_) | NodeStatus::Settled => false,
    }
}

/// How it takes it.
pub fn taking(status: NodeStatus, node: NodeId) -> Action
    ensures { result ≡ taking_of status node }
{
    match status {
        NodeStatus::Ready(Some(_)) => Action::Own(node),
        _ => Action::Claim(node),
    }
}

/// The one step that a task allows which opens a node and is decided.
pub fn opening_action(opening: &Opening) -> Action
    ensures { result ≡ opening_action_of opening.now }
{
    match opening {
        Opening::Registering | Opening::Beginning(_) => Action::Draw,
        Opening::RegisteredAt(_) | Opening::StartedAt(_) => Action::Show,
        Opening::Offering | Opening::Admitting(_) => Action::Admit,
        Opening::Noticing => Action::Notice,
        Opening::Locking(_) => Action::Weigh,
        Opening::Weighed(_, _) => Action::Take,
        Opening::Backing(0) => Action::GiveUp,
        Opening::Backing(_) => Action::Give,
        Opening::Awaiting => Action::Look,
        Opening::Guarding => Action::Done,
    }
}

/// The one step that a task allows which closes a node and is decided.
pub fn closing_action(closing: &Closing) -> Action
    ensures { result ≡ closing_action_of closing.now }
{
    match closing {
        Closing::Ending(_) => Action::Draw,
        Closing::FinishedAt(_, _) | Closing::SkippedAt(_) => Action::Show,
        Closing::Raising => Action::Raise,
        Closing::Giving(_) => Action::Give,
        Closing::Settling => Action::Settle,
        Closing::AwaitingAfter | Closing::Looking(_) => Action::Look,
        Closing::Passing(_, _) => Action::Admit,
        Closing::CountingOff => Action::Done,
    }
}

/// What a free worker does with a factory in hand.
pub fn hand_action(plan: &Plan, hand: &Hand, answer: Answer) -> Action
    requires inside { hand.now.factory < size plan.now.tree }
    requires factory { is_factory_at plan.now.tree hand.now.factory ≡ true }
    ensures { result ≡ hand_action_of plan.now (reply_by answer) hand.now }
{
    if let Some(child) = hand.waiting {
        return Action::Own(child);
    }
    let more = hand.registered < usize::from(answer.pulls);
    if more && next_spare(plan, hand.factory, hand.registered).is_some() {
        Action::AddChild
    } else {
        Action::Done
    }
}

/// The number after the step of a task which opens a node, where it was `lowest` before. In a run
/// it does not fall, since what is offered stands after the node that was taken last.
pub fn lowest_opening(node: NodeId, opening: &Opening, lowest: usize) -> usize
    ensures { result ≡ lowest_then (Task.Opens node opening.now) lowest }
{
    match opening {
        Opening::Admitting(child) => lowest.min(child.index()),
        Opening::Offering | Opening::Backing(0) => lowest.min(node.index()),
        _ => lowest,
    }
}

/// The number after the step of a task which closes a node, where it was `lowest` before.
pub fn lowest_closing(closing: &Closing, lowest: usize) -> usize
    ensures { result ≡ lower_then (offered_closing closing.now) lowest }
{
    match closing {
        Closing::Passing(sibling, _) => lowest.min(sibling.index()),
        _ => lowest,
    }
}
