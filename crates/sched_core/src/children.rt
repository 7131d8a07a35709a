//! The steps by which nodes are offered, registered, counted off and settled.

ghost use Rattle.std.specs.Prelude.{◌≡◌, ◌<◌, ℕ, Some, length};
ghost use Rattle.descriptor.specs.Nodes.{size, parent_of, IsChild};
ghost use Rattle.scheduling.specs.Answers.{reply_by};
ghost use Rattle.scheduling.specs.LinkLists.{AreTurns};
ghost use Rattle.scheduling.specs.Rows.{offers, admit_row, add_child_row, guard_given};
ghost use Rattle.scheduling.specs.Rows.{counted_off as counted_off_of, done_row, settle_row, look_found, look_row};
ghost use Rattle.scheduling.specs.State.{status_at};
ghost use Rattle.scheduling.specs.declared.seat.Hand.{Hand as HandValue};
ghost use Rattle.scheduling.specs.declared.task.Opening.{Opening as OpeningValue};
ghost use Rattle.scheduling.specs.declared.task.Opening.TheVariants.{Admitting};
ghost use Rattle.scheduling.specs.declared.task.Closing.{Closing as ClosingValue};
ghost use Rattle.scheduling.specs.declared.task.Closing.TheVariants.{Looking, Passing, CountingOff};
ghost use Rattle.scheduling.specs.declared.task.Task.TheVariants.{Opens, Closes};
ghost use Rattle.sched_core.specs.Inside.Bounds.{IsFactory, HasParent};
ghost use Rattle.sched_core.specs.Inside.Fields.{state_of, seated, IsAnswered, KeepsRoom};

use crate::fault::NotEnabled;
use crate::machine::Machine;
use descriptor::NodeId;
use plan_events::Status;
use resource_locks::Plan;
use scheduling::{
    Answer, Closing, Hand, NodeStatus, Opening, Seat, Task, Turns, after_offer, after_settle,
    counted_off, due_child, due_guard, due_look, due_offer, due_settle, ends_or_free,
    waits_no_more,
};

impl Machine {
    /// A node is offered, to any or to the worker at a place, and the worker goes on.
    fn offer(&mut self, place: u8, seat: Seat, child: NodeId, to: Option<u8>)
        requires place { place < length self.old.seats.items }
        requires inside { child < length self.old.statuses.items }
        ensures state { state_of self.new ≡ offers (state_of self.old) place seat child to }
        ensures room { KeepsRoom self.old self.new }
    {
        self.statuses[child.index()] = NodeStatus::Ready(to);
        self.seats[usize::from(place)] = seat;
    }

    pub(crate) fn admit(
        &mut self,
        plan: &Plan,
        turns: &Turns,
        place: u8,
        task: Task,
        hand: Option<Hand>,
    ) -> Result<(), NotEnabled>
        requires turns { AreTurns plan.now turns.now }
        requires place { place < length self.old.seats.items }
        requires sizes { length self.old.statuses.items ≡ size plan.now.tree }
        requires opens { (n : ℕ) (d : OpeningValue) → task ≡ Opens n d → n < size plan.now.tree }
        requires admits { (n c : ℕ) (d : OpeningValue) → task ≡ Opens n d → d ≡ Admitting c →
            IsChild plan.now.tree n c }
        requires passes { (n m o : ℕ) → task ≡ Closes n (Passing m o) → m < size plan.now.tree }
        ensures { IsAnswered self.old (admit_row plan.now (state_of self.old) place (seated task hand) task) result
            self.new }
    {
        let task = &task;
        let Some((node, to)) = due_offer(plan, place, *task) else {
            return Err(NotEnabled);
        };
        let seat = after_offer(plan, turns, *task, hand);
        self.offer(place, seat, node, to);
        Ok(())
    }

    pub(crate) fn add_child(
        &mut self,
        plan: &Plan,
        place: u8,
        task: Task,
        hand: Option<Hand>,
        answer: Answer,
    ) -> Result<(), NotEnabled>
        requires place { place < length self.old.seats.items }
        requires hand { (h : HandValue) → hand ≡ Some h → IsFactory plan.now self.old h.factory }
        ensures { IsAnswered self.old (add_child_row plan.now (state_of self.old) place (seated task hand)
            (reply_by answer) task) result self.new }
    {
        let hand = &hand;
        let Some((held, child)) = due_child(plan, task, *hand) else {
            return Err(NotEnabled);
        };
        if held.registered >= usize::from(answer.pulls) {
            return Err(NotEnabled);
        }
        self.counters[held.factory.index()] += 1;
        self.go(place, *hand, Task::Opens(child, Opening::Registering));
        Ok(())
    }

    /// A node's own guard is given up, with the node's result.
    fn give_guard(
        &mut self,
        plan: &Plan,
        place: u8,
        hand: Option<Hand>,
        node: NodeId,
        status: Status,
    )
        requires place { place < length self.old.seats.items }
        requires inside { node < size plan.now.tree }
        requires counters { length self.old.counters.items ≡ size plan.now.tree }
        requires results { length self.old.results.items ≡ size plan.now.tree }
        ensures state { state_of self.new ≡ guard_given plan.now (state_of self.old) place hand node status }
        ensures room { KeepsRoom self.old self.new }
    {
        let outstanding = self.counters[node.index()];
        self.counters[node.index()] = outstanding.saturating_sub(1);
        self.results[node.index()] = status;
        self.seats[usize::from(place)] = Seat {
            task: ends_or_free(plan, node, status, outstanding),
            hand,
        };
    }

    /// A child of a node is counted off.
    fn count_off(&mut self, plan: &Plan, place: u8, hand: Option<Hand>, node: NodeId)
        requires place { place < length self.old.seats.items }
        requires inside { node < size plan.now.tree }
        requires counters { length self.old.counters.items ≡ size plan.now.tree }
        requires results { length self.old.results.items ≡ size plan.now.tree }
        ensures state { state_of self.new ≡ counted_off_of plan.now (state_of self.old) place
            (seated Task.Free hand) node }
        ensures room { KeepsRoom self.old self.new }
    {
        let outstanding = self.counters[node.index()];
        let status = self.results[node.index()];
        self.counters[node.index()] = outstanding.saturating_sub(1);
        self.go(place, hand, ends_or_free(plan, node, status, outstanding));
    }

    pub(crate) fn done(
        &mut self,
        plan: &Plan,
        place: u8,
        task: Task,
        hand: Option<Hand>,
        answer: Answer,
    ) -> Result<(), NotEnabled>
        requires place { place < length self.old.seats.items }
        requires hand { (h : HandValue) → hand ≡ Some h → IsFactory plan.now self.old h.factory }
        requires counters { length self.old.counters.items ≡ size plan.now.tree }
        requires results { length self.old.results.items ≡ size plan.now.tree }
        requires opens { (n : ℕ) (d : OpeningValue) → task ≡ Opens n d → n < size plan.now.tree }
        requires counts { (c : ℕ) → task ≡ Closes c CountingOff → HasParent plan.now c }
        ensures { IsAnswered self.old (done_row plan.now (state_of self.old) place (seated task hand)
            (reply_by answer) task) result self.new }
    {
        let task = &task;
        if let Some(child) = counted_off(*task) {
            let Some(node) = plan.tree().parent(child) else {
                unreachable!()
            };
            self.count_off(plan, place, hand, node);
            return Ok(());
        }
        let Some(due) = due_guard(plan, Some(answer), *task, hand) else {
            return Err(NotEnabled);
        };
        self.give_guard(plan, place, due.hand, due.node, due.result);
        Ok(())
    }

    pub(crate) fn settle(
        &mut self,
        plan: &Plan,
        turns: &Turns,
        place: u8,
        task: Task,
        hand: Option<Hand>,
    ) -> Result<(), NotEnabled>
        requires turns { AreTurns plan.now turns.now }
        requires place { place < length self.old.seats.items }
        requires sizes { length self.old.statuses.items ≡ size plan.now.tree }
        requires closes { (n : ℕ) (d : ClosingValue) → task ≡ Closes n d → n < size plan.now.tree }
        ensures { IsAnswered self.old (settle_row plan.now (state_of self.old) place (seated task hand) task) result
            self.new }
    {
        let Some(node) = due_settle(task) else {
            return Err(NotEnabled);
        };
        self.statuses[node.index()] = NodeStatus::Settled;
        self.seats[usize::from(place)] = Seat {
            task: after_settle(plan, turns, node),
            hand: waits_no_more(node, hand),
        };
        Ok(())
    }

    /// The next sibling of a node is to be offered to the worker that claimed their parent.
    fn look_for(
        &mut self,
        plan: &Plan,
        place: u8,
        hand: Option<Hand>,
        node: NodeId,
        sibling: NodeId,
    ) -> Result<(), NotEnabled>
        requires place { place < length self.old.seats.items }
        requires parent { HasParent plan.now node }
        ensures { IsAnswered self.old (look_found (state_of self.old) place (seated Task.Free hand) node sibling
            (status_at (state_of self.old) (parent_of plan.now.tree node))) result self.new }
    {
        let Some(parent) = plan.tree().parent(node) else {
            unreachable!()
        };
        let Some(&NodeStatus::Claimed(owner)) = self.statuses.get(parent.index()) else {
            return Err(NotEnabled);
        };
        self.go(
            place,
            hand,
            Task::Closes(node, Closing::Passing(sibling, owner)),
        );
        Ok(())
    }

    pub(crate) fn look(
        &mut self,
        plan: &Plan,
        place: u8,
        task: Task,
        hand: Option<Hand>,
    ) -> Result<(), NotEnabled>
        requires place { place < length self.old.seats.items }
        requires looks { (n m : ℕ) → task ≡ Closes n (Looking m) → HasParent plan.now n }
        ensures { IsAnswered self.old (look_row plan.now (state_of self.old) place (seated task hand) task) result
            self.new }
    {
        if let Task::Free = task {
            return Ok(());
        }
        let Some((node, sibling)) = due_look(task) else {
            return Err(NotEnabled);
        };
        self.look_for(plan, place, hand, node, sibling)
    }
}
