//! The next step of the only worker, by its task, by the factory in its hand and by the words of the nodes.

ghost use Rattle.std.specs.Prelude.{◌≡◌, ◌<◌, ◌≤◌, ℕ, true, Some, None, IsTrue, ◌↔◌, length};
ghost use Rattle.descriptor.specs.Nodes.{size, is_factory_at};
ghost use Rattle.plan_events.specs.declared.outcome.Reply.{Reply};
ghost use Rattle.scheduling.specs.Answers.{answer_of, reply_by};
ghost use Rattle.scheduling.specs.Inside.Lowest.{lowest_after as lowest_then};
ghost use Rattle.scheduling.specs.Rows.{row};
ghost use Rattle.scheduling.specs.Schedule.{taking as taking_of, IsFirstOpen, IsNextBy};
ghost use Rattle.scheduling.specs.State.{State};
ghost use Rattle.scheduling.specs.declared.status.NodeStatus.TheVariants.{Settled};
ghost use Rattle.scheduling.specs.declared.seat.Hand.{Hand as HandValue};
ghost use Rattle.sched_core.specs.Statuses.{status_in, NoneOpenIn, IsFirstIn, IsSomeOpen};

use descriptor::NodeId;
use resource_locks::Plan;
use scheduling::{
    Action, Answer, Hand, NodeStatus, Task, closing_action, hand_action, is_open, lowest_closing,
    lowest_opening, opening_action, taking,
};

/// What the worker does next, and a number below which no node is open after that.
pub struct Next {
    pub action: Action,
    pub lowest: usize,
}

/// Whether the plan's node is settled, by the words of the nodes: then no further step is the worker's.
pub fn is_over(statuses: &[NodeStatus]) -> bool
    ensures { IsTrue result ↔ (status_in statuses.now 0 ≡ Settled) }
{
    matches!(statuses.first(), Some(NodeStatus::Settled))
}

/// The number of the first node that is open, where none is below `lowest`.
fn first_open(statuses: &[NodeStatus], lowest: usize) -> usize
    requires none_below { NoneOpenIn statuses.now lowest }
    requires some { IsSomeOpen statuses.now }
    ensures first { IsFirstIn statuses.now result }
    ensures inside { result < length statuses.now }
{
    for index in lowest..statuses.len() {
        if is_open(statuses[index]) {
            return index;
        }
    }
    unreachable!()
}

/// What a free worker does next with nothing in hand: it takes the first node that is open.
fn next_free(statuses: &[NodeStatus], lowest: usize) -> Next
    requires few { length statuses.now ≤ 16384 }
    requires none_below { NoneOpenIn statuses.now lowest }
    requires some { IsSomeOpen statuses.now }
    ensures first { IsFirstIn statuses.now result.lowest }
    ensures action { result.action ≡ taking_of (status_in statuses.now result.lowest) result.lowest }
{
    let lowest = first_open(statuses, lowest);
    let action = taking(statuses[lowest], NodeId::new(lowest as u16));
    Next { action, lowest }
}

/// What a worker does next, free or not, whose task is decided.
fn choice(
    plan: &Plan,
    statuses: &[NodeStatus],
    task: &Task,
    hand: &Option<Hand>,
    answer: Answer,
    lowest: usize,
) -> Next
    requires few { length statuses.now ≤ 16384 }
    requires none_below { NoneOpenIn statuses.now lowest }
    requires inside { (h : HandValue) → hand.now ≡ Some h → h.factory < size plan.now.tree }
    requires factory { (h : HandValue) → hand.now ≡ Some h → is_factory_at plan.now.tree h.factory ≡ true }
    requires some { task.now ≡ Task.Free → hand.now ≡ None → IsSomeOpen statuses.now }
    ensures action { (s : State) → s.statuses ≡ statuses.now →
        IsNextBy plan.now s (reply_by answer) hand.now task.now result.action }
    ensures free { (s : State) → s.statuses ≡ statuses.now → task.now ≡ Task.Free → hand.now ≡ None →
        IsFirstOpen s result.lowest }
    ensures held { (h : HandValue) → task.now ≡ Task.Free → hand.now ≡ Some h → result.lowest ≡ lowest }
    ensures busy { (task.now ≡ Task.Free → ⊥) → result.lowest ≡ lowest_then task.now lowest }
{
    match task {
        Task::Free => match hand {
            Some(hand) => Next {
                action: hand_action(plan, hand, answer),
                lowest,
            },
            None => next_free(statuses, lowest),
        },
        Task::Opens(node, opening) => Next {
            action: opening_action(opening),
            lowest: lowest_opening(*node, opening, lowest),
        },
        Task::Closes(_, closing) => Next {
            action: closing_action(closing),
            lowest: lowest_closing(closing, lowest),
        },
    }
}

/// What the only worker does next, whose task is decided by this answer: the one step that its task allows. Free, it
/// goes on with the factory in its hand, or takes the first node that is open. None below `lowest` is open before.
pub fn next_step(
    plan: &Plan,
    statuses: &[NodeStatus],
    task: &Task,
    hand: &Option<Hand>,
    answer: Answer,
    lowest: usize,
) -> Next
    requires few { length statuses.now ≤ 16384 }
    requires none_below { NoneOpenIn statuses.now lowest }
    requires inside { (h : HandValue) → hand.now ≡ Some h → h.factory < size plan.now.tree }
    requires factory { (h : HandValue) → hand.now ≡ Some h → is_factory_at plan.now.tree h.factory ≡ true }
    requires some { task.now ≡ Task.Free → hand.now ≡ None → IsSomeOpen statuses.now }
    // It is the schedule's in every state with these words, with every reply of which the answer tells.
    ensures action { (s : State) (reply : Reply) → s.statuses ≡ statuses.now → answer_of reply ≡ answer →
        IsNextBy plan.now s reply hand.now task.now result.action }
    ensures none_below { (s t : State) (reply : Reply) → s.statuses ≡ statuses.now →
        row plan.now s 0 (record { task = task.now; hand = hand.now }) reply result.action ≡ Some t →
        NoneOpenIn t.statuses result.lowest }
{
    choice(plan, statuses, task, hand, answer, lowest)
}
