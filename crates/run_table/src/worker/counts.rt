//! The steps on a node's counter: a settled node is counted off at its parent, a factory registers one more
//! dynamic test, and guards are given up: a node's own, and that of the factory in hand.

ghost use Rattle.std.specs.Prelude.{◌≡◌, ℕ, [], Some, None, IfOk, IfErr, ◌≢◌, ◌<◌, ◌+◌, ◌*◌};
ghost use Rattle.descriptor.specs.Nodes.{parent_of, size};
ghost use Rattle.scheduling.specs.Choices.{next_spare as next_spare_of};
ghost use Rattle.scheduling.specs.Rows.{with_task, ends_or_free as ends_or_free_of};
ghost use Rattle.scheduling.specs.declared.seat.Hand.{Hand as HandValue};
ghost use Rattle.scheduling.specs.declared.task.Opening.TheVariants.{Registering};
ghost use Rattle.scheduling.specs.declared.task.Closing.TheVariants.{AwaitingAfter, CountingOff};
ghost use Rattle.scheduling.specs.declared.task.Task.TheVariants.{Free, Opens, Closes};
ghost use Rattle.scheduling.specs.Due.{IsChildDue};
ghost use Rattle.table_rule.specs.Plays.{outstanding_in, result_in, Guard, ended_seat};
ghost use Rattle.table_rule.specs.Slots.{after_slot, made_of, told_by};
ghost use Rattle.table_rule.specs.declared.view.SlotState.TheVariants.{Unmoved};
ghost use Rattle.run_table.specs.Handles.{guard_due_at, plan_at, worker_at, IsUnchanged};
ghost use Rattle.run_table.specs.Seats.{IsSeatOf, IsMove, SameSeat, seated, IsReadyMove, IsDone, guard_to};
ghost use Rattle.plan_events.specs.declared.status.Status.TheVariants.{Successful};
ghost use Rattle.table_rule.specs.Words.{result_number};

use crate::table::RunTable;
use crate::worker::WorkerSeat;
use descriptor::NodeId;
use plan_events::{Job, Status};
use scheduling::{Hand, Opening, Task, counted_off, due_child, due_guard, ends_or_free};
use table_contents::{NotEnabled, outstanding_from_word, result_from_word};
use table_rule::{AddsChild, CountsOff, GivesGuard};

impl<B: Job> WorkerSeat<B> {
    /// Goes on to the next dynamic test of the factory in its hand, which waits for none. It is for
    /// the caller to do so only where the factory's body, which has not given its reply yet, has
    /// answered that there is one more.
    pub fn add_child(&mut self, table: &RunTable<B>) -> Result<Task, NotEnabled>
        requires table { IsSeatOf table.now.table self.old.seat }
        requires unheard { (h : HandValue) → self.old.hand ≡ Some h →
            told_by (made_of (worker_at self.old.seat).slots h.factory) ≡ [] }
        ensures same { SameSeat self.old.seat self.new.seat }
        ensures done { IfOk result (λ t. (h : HandValue) × (n : ℕ) × (self.old.task ≡ Free) × (self.old.hand ≡ Some h)
            × (h.waiting ≡ None) × (next_spare_of (plan_at self.old.seat) h.factory h.registered ≡ Some n)
            × IsMove self.old.seat self.new.seat
            (with_task (seated self.old.task self.old.hand) (Opens n Registering)) t) }
        ensures refused { IfErr result (λ _. IsUnchanged self.old.seat self.new.seat
            × ((h : HandValue) (n : ℕ) → self.old.task ≡ Free → self.old.hand ≡ Some h → h.waiting ≡ None →
            next_spare_of (plan_at self.old.seat) h.factory h.registered ≡ Some n → ⊥)) }
    {
        let Some((held, child)) = due_child(&table.plan, self.task, self.hand) else {
            return Err(NotEnabled);
        };
        self.add_next(table, &held, child);
        Ok(self.task)
    }

    /// Goes on to the next dynamic test of the factory in its hand, where that is due.
    pub fn add_child_due(&mut self, table: &RunTable<B>)
        requires table { IsSeatOf table.now.table self.old.seat }
        requires due { (h : HandValue) × (n : ℕ)
            × IsChildDue (plan_at self.old.seat) self.old.task self.old.hand h n }
        requires unheard { (h : HandValue) → self.old.hand ≡ Some h →
            told_by (made_of (worker_at self.old.seat).slots h.factory) ≡ [] }
        ensures same { SameSeat self.old.seat self.new.seat }
        ensures done { (h : HandValue) × (n : ℕ)
            × IsChildDue (plan_at self.old.seat) self.old.task self.old.hand h n
            × IsMove self.old.seat self.new.seat
            (with_task (seated self.old.task self.old.hand) (Opens n Registering)) self.new.task }
    {
        let Some((held, child)) = due_child(&table.plan, self.task, self.hand) else {
            unreachable!()
        };
        self.add_next(table, &held, child);
    }

    /// Registers this dynamic test, the next one of the factory in hand.
    fn add_next(&mut self, table: &RunTable<B>, held: &Hand, child: NodeId)
        requires table { IsSeatOf table.now.table self.old.seat }
        requires due { IsChildDue (plan_at self.old.seat) self.old.task self.old.hand held.now child }
        requires unheard { told_by (made_of (worker_at self.old.seat).slots held.now.factory) ≡ [] }
        ensures same { SameSeat self.old.seat self.new.seat }
        ensures done { IsMove self.old.seat self.new.seat
            (with_task (seated self.old.task self.old.hand) (Opens child Registering)) self.new.task }
    {
        table
            .table
            .shared
            .fetch_add::<AddsChild>(&mut self.seat, table.counter_at(held.factory), 1);
        self.task = Task::Opens(child, Opening::Registering);
        self.answer = None;
    }

    /// Counts its node, which is settled, off at its parent, where that is due.
    pub fn count_off_due(&mut self, table: &RunTable<B>)
        requires table { IsSeatOf table.now.table self.old.seat }
        requires due { (n : ℕ) × (self.old.task ≡ Closes n CountingOff) }
        ensures same { SameSeat self.old.seat self.new.seat }
        ensures done { (n word : ℕ) × (self.old.task ≡ Closes n CountingOff) × IsMove self.old.seat self.new.seat
            (with_task (seated self.old.task self.old.hand)
            (ends_or_free_of (plan_at self.old.seat) (parent_of (plan_at self.old.seat).tree n)
            (result_in word) (outstanding_in word))) self.new.task }
        ensures after { (n : ℕ) → self.new.task ≡ Closes n AwaitingAfter → made_of (worker_at self.old.seat).slots
            (after_slot (plan_at self.old.seat) n) ≡ Unmoved }
    {
        let Some(node) = counted_off(self.task) else {
            unreachable!()
        };
        self.count_off(table, node);
    }

    /// Counts this node, which is settled, off at its parent: whoever takes the last one off ends the parent.
    pub(crate) fn count_off(&mut self, table: &RunTable<B>, node: NodeId)
        requires table { IsSeatOf table.now.table self.old.seat }
        requires due { self.old.task ≡ Closes node CountingOff }
        ensures same { SameSeat self.old.seat self.new.seat }
        ensures done { (word : ℕ) × IsMove self.old.seat self.new.seat
            (with_task (seated self.old.task self.old.hand)
            (ends_or_free_of (plan_at self.old.seat) (parent_of (plan_at self.old.seat).tree node)
            (result_in word) (outstanding_in word))) self.new.task }
        ensures after { (n : ℕ) → self.new.task ≡ Closes n AwaitingAfter → made_of (worker_at self.old.seat).slots
            (after_slot (plan_at self.old.seat) n) ≡ Unmoved }
    {
        let Some(parent) = table.plan.tree().parent(node) else {
            unreachable!()
        };
        let word = table
            .table
            .shared
            .fetch_sub::<CountsOff>(&mut self.seat, table.counter_at(parent), 1);
        let result = result_from_word(word);
        self.task = ends_or_free(&table.plan, parent, result, outstanding_from_word(word));
        self.answer = None;
    }
}

impl<B: Job> WorkerSeat<B> {
    /// Gives up this node's guard with the result SUCCESSFUL.
    fn give_good_guard(&mut self, table: &RunTable<B>, node: NodeId, hand: Option<Hand>)
        requires table { IsSeatOf table.now.table self.old.seat }
        requires inside { node < size table.now.plan.tree }
        requires due { guard_due_at self.old.seat ≡ Some (guard_to node Successful hand) }
        ensures same { SameSeat self.old.seat self.new.seat }
        ensures done { (outstanding : ℕ) × IsReadyMove self.old.seat self.new.seat
            (ended_seat (plan_at self.old.seat) (guard_to node Successful hand) outstanding) self.new.task }
        ensures after { (n : ℕ) → self.new.task ≡ Closes n AwaitingAfter → made_of (worker_at self.old.seat).slots
            (after_slot (plan_at self.old.seat) n) ≡ Unmoved }
    {
        let word = table
            .table
            .shared
            .fetch_sub::<GivesGuard>(&mut self.seat, table.counter_at(node), 1);
        let outstanding = outstanding_from_word(word);
        self.task = ends_or_free(&table.plan, node, Status::Successful, outstanding);
        self.hand = hand;
        self.answer = None;
    }

    /// Gives it up with another result, whose number comes into the counter with this addend.
    fn give_bad_guard(
        &mut self,
        table: &RunTable<B>,
        node: NodeId,
        ending: Status,
        hand: Option<Hand>,
        more: u64,
    )
        requires table { IsSeatOf table.now.table self.old.seat }
        requires inside { node < size table.now.plan.tree }
        requires due { guard_due_at self.old.seat ≡ Some (guard_to node ending hand) }
        requires more { more + 1 ≡ 65536 * result_number ending }
        ensures same { SameSeat self.old.seat self.new.seat }
        ensures done { (outstanding : ℕ) × IsReadyMove self.old.seat self.new.seat
            (ended_seat (plan_at self.old.seat) (guard_to node ending hand) outstanding) self.new.task }
        ensures after { (n : ℕ) → self.new.task ≡ Closes n AwaitingAfter → made_of (worker_at self.old.seat).slots
            (after_slot (plan_at self.old.seat) n) ≡ Unmoved }
    {
        let word = table
            .table
            .shared
            .fetch_add::<GivesGuard>(&mut self.seat, table.counter_at(node), more);
        let outstanding = outstanding_from_word(word);
        self.task = ends_or_free(&table.plan, node, ending, outstanding);
        self.hand = hand;
        self.answer = None;
    }

    /// Gives up this guard.
    fn give_guard(&mut self, table: &RunTable<B>, node: NodeId, ending: Status, hand: Option<Hand>)
        requires table { IsSeatOf table.now.table self.old.seat }
        requires inside { node < size table.now.plan.tree }
        requires due { guard_due_at self.old.seat ≡ Some (guard_to node ending hand) }
        ensures same { SameSeat self.old.seat self.new.seat }
        ensures done { (outstanding : ℕ) × IsReadyMove self.old.seat self.new.seat
            (ended_seat (plan_at self.old.seat) (guard_to node ending hand) outstanding) self.new.task }
        ensures after { (n : ℕ) → self.new.task ≡ Closes n AwaitingAfter → made_of (worker_at self.old.seat).slots
            (after_slot (plan_at self.old.seat) n) ≡ Unmoved }
    {
        match ending {
            Status::Successful => self.give_good_guard(table, node, hand),
            Status::Aborted => self.give_bad_guard(table, node, Status::Aborted, hand, 65_535),
            Status::Failed => self.give_bad_guard(table, node, Status::Failed, hand, 131_071),
        }
    }

    /// Gives up the guard that is due.
    pub fn give_guard_due(&mut self, table: &RunTable<B>)
        requires table { IsSeatOf table.now.table self.old.seat }
        requires due { guard_due_at self.old.seat ≢ None }
        ensures same { SameSeat self.old.seat self.new.seat }
        ensures done { (g : Guard) × (outstanding : ℕ)
            × (guard_due_at self.old.seat ≡ Some g)
            × IsReadyMove self.old.seat self.new.seat
            (ended_seat (plan_at self.old.seat) g outstanding) self.new.task }
        ensures after { (n : ℕ) → self.new.task ≡ Closes n AwaitingAfter → made_of (worker_at self.old.seat).slots
            (after_slot (plan_at self.old.seat) n) ≡ Unmoved }
    {
        let Some(due) = due_guard(&table.plan, self.answer, self.ready_task(table), self.hand)
        else {
            unreachable!()
        };
        self.give_guard(table, due.node, due.result, due.hand);
    }

    /// Counts a settled node off at its parent, or gives up the guard that is due: the own one of a
    /// node whose children are all offered, or that of the factory in hand, whose body has answered
    /// that there are no more dynamic tests, or more than there are. Whoever takes the last one off
    /// ends the node, and has not moved the slot of its after-body.
    pub fn done(&mut self, table: &RunTable<B>) -> Result<Task, NotEnabled>
        requires { IsSeatOf table.now.table self.old.seat }
        ensures same { SameSeat self.old.seat self.new.seat }
        ensures done { IfOk result (λ t. IsDone self.old.seat self.new.seat self.old.task self.old.hand t) }
        ensures after { IfOk result (λ t. (n : ℕ) → t ≡ Closes n AwaitingAfter →
            made_of (worker_at self.old.seat).slots (after_slot (plan_at self.old.seat) n) ≡ Unmoved) }
        ensures refused { IfErr result (λ _. IsUnchanged self.old.seat self.new.seat) }
        ensures counts { IfErr result (λ _. (n : ℕ) → self.old.task ≡ Closes n CountingOff → ⊥) }
        ensures guards { IfErr result (λ _. guard_due_at self.old.seat ≡ None) }
    {
        if let Some(node) = counted_off(self.task) {
            self.count_off(table, node);
            return Ok(self.task);
        }
        let Some(due) = due_guard(&table.plan, self.answer, self.ready_task(table), self.hand)
        else {
            return Err(NotEnabled);
        };
        self.give_guard(table, due.node, due.result, due.hand);
        Ok(self.task)
    }
}
