//! The steps by which a worker comes to a node, and to the keys that the node holds.

ghost use Rattle.std.specs.Prelude.{◌≡◌, ◌<◌, ℕ, Some, length, slice_get};
ghost use Rattle.descriptor.specs.Nodes.{size};
ghost use Rattle.scheduling.specs.Choices.{key_at, keys_count};
ghost use Rattle.scheduling.specs.Rows.{claimed, claim_row, own_row, notice_row, weigh_row, take_found, take_row};
ghost use Rattle.scheduling.specs.Rows.{gives_key, give_row, give_up_row};
ghost use Rattle.scheduling.specs.declared.lock_word.LockWord.{LockWord as Word};
ghost use Rattle.scheduling.specs.declared.lock_word.LockWord.TheVariants.{Readers};
ghost use Rattle.scheduling.specs.declared.task.Opening.{Opening as OpeningValue};
ghost use Rattle.scheduling.specs.declared.task.Opening.TheVariants.{Locking, Weighed};
ghost use Rattle.scheduling.specs.declared.task.Task.TheVariants.{Opens};
ghost use Rattle.scheduling.specs.Due.{Back, back_due};
ghost use Rattle.sched_core.specs.Inside.Bounds.{HasKey};
ghost use Rattle.sched_core.specs.Inside.Fields.{state_of, seated, IsAnswered, KeepsRoom};

use crate::fault::NotEnabled;
use crate::machine::Machine;
use descriptor::NodeId;
use resource_locks::Plan;
use scheduling::{
    Hand, LockWord, NodeStatus, Task, after_back, after_try, back_to, begins, claims, due_back,
    due_give_up, due_notice, due_take, due_weigh, given_back, is_of_hand, is_same_word,
    key_at_place, mode_at_place, taken, weighed,
};

impl Machine {
    /// A node becomes the worker's at this place.
    fn take_node(&mut self, plan: &Plan, place: u8, hand: Option<Hand>, node: NodeId)
        requires place { place < length self.old.seats.items }
        requires inside { node < size plan.now.tree }
        requires sizes { length self.old.statuses.items ≡ size plan.now.tree }
        ensures state { state_of self.new ≡ claimed plan.now (state_of self.old) place (seated Task.Free hand) node }
        ensures room { KeepsRoom self.old self.new }
    {
        self.statuses[node.index()] = NodeStatus::Claimed(place);
        self.go(place, hand, Task::Opens(node, claims(plan, node)));
    }

    pub(crate) fn claim(
        &mut self,
        plan: &Plan,
        place: u8,
        task: Task,
        hand: Option<Hand>,
        node: NodeId,
    ) -> Result<(), NotEnabled>
        requires place { place < length self.old.seats.items }
        requires sizes { length self.old.statuses.items ≡ size plan.now.tree }
        ensures { IsAnswered self.old (claim_row plan.now (state_of self.old) place (seated task hand) node) result
            self.new }
    {
        let (Task::Free, None) = (task, hand) else {
            return Err(NotEnabled);
        };
        let Some(NodeStatus::Ready(None)) = self.statuses.get(node.index()) else {
            return Err(NotEnabled);
        };
        self.take_node(plan, place, hand, node);
        Ok(())
    }

    pub(crate) fn own(
        &mut self,
        plan: &Plan,
        place: u8,
        task: Task,
        hand: Option<Hand>,
        node: NodeId,
    ) -> Result<(), NotEnabled>
        requires place { place < length self.old.seats.items }
        requires sizes { length self.old.statuses.items ≡ size plan.now.tree }
        ensures { IsAnswered self.old (own_row plan.now (state_of self.old) place (seated task hand) node) result
            self.new }
    {
        let Task::Free = task else {
            return Err(NotEnabled);
        };
        let Some(&NodeStatus::Ready(Some(owner))) = self.statuses.get(node.index()) else {
            return Err(NotEnabled);
        };
        if owner != place || !is_of_hand(plan, &hand, node) {
            return Err(NotEnabled);
        }
        self.take_node(plan, place, hand, node);
        Ok(())
    }

    pub(crate) fn notice(
        &mut self,
        plan: &Plan,
        place: u8,
        task: Task,
        hand: Option<Hand>,
    ) -> Result<(), NotEnabled>
        requires place { place < length self.old.seats.items }
        requires opens { (n : ℕ) (d : OpeningValue) → task ≡ Opens n d → n < size plan.now.tree }
        ensures { IsAnswered self.old (notice_row plan.now (state_of self.old) place (seated task hand) task) result
            self.new }
    {
        let Some(node) = due_notice(task) else {
            return Err(NotEnabled);
        };
        let is_cancelled = self.cancel > usize::from(plan.tolerated());
        self.go(
            place,
            hand,
            Task::Opens(node, begins(plan, node, is_cancelled)),
        );
        Ok(())
    }

    pub(crate) fn weigh(
        &mut self,
        plan: &Plan,
        place: u8,
        task: Task,
        hand: Option<Hand>,
    ) -> Result<(), NotEnabled>
        requires place { place < length self.old.seats.items }
        requires keys { (n i : ℕ) → task ≡ Opens n (Locking i) → HasKey plan.now n i }
        ensures { IsAnswered self.old (weigh_row plan.now (state_of self.old) place (seated task hand) task) result
            self.new }
    {
        let Some((node, index)) = due_weigh(task) else {
            return Err(NotEnabled);
        };
        let word = self.word(key_at_place(plan, node, index));
        self.go(
            place,
            hand,
            Task::Opens(node, weighed(plan, node, index, word)),
        );
        Ok(())
    }

    /// The key at this place of those of a node is taken, if its word is still the one that was
    /// seen, and the worker goes on.
    fn take_key(
        &mut self,
        plan: &Plan,
        place: u8,
        hand: Option<Hand>,
        node: NodeId,
        index: usize,
        seen: LockWord,
    ) -> Result<(), NotEnabled>
        requires place { place < length self.old.seats.items }
        requires node { node < size plan.now.tree }
        requires key { index < keys_count plan.now node }
        requires few { (k n : ℕ) → slice_get self.old.locks.items k ≡ Some (Readers n) → n < 65535 }
        ensures { IsAnswered self.old (take_found plan.now (state_of self.old) place (seated Task.Free hand) node
            index seen (slice_get self.old.locks.items (key_at plan.now node index))) result self.new }
    {
        let key = key_at_place(plan, node, index);
        let Some(&word) = self.locks.get(key) else {
            return Err(NotEnabled);
        };
        if !is_same_word(word, seen) {
            self.go(place, hand, after_try(plan, node, index, false));
            return Ok(());
        }
        self.locks[key] = taken(mode_at_place(plan, node, index), word);
        self.go(place, hand, after_try(plan, node, index, true));
        Ok(())
    }

    pub(crate) fn take(
        &mut self,
        plan: &Plan,
        place: u8,
        task: Task,
        hand: Option<Hand>,
    ) -> Result<(), NotEnabled>
        requires place { place < length self.old.seats.items }
        requires keys { (n i : ℕ) (seen : Word) → task ≡ Opens n (Weighed i seen) → HasKey plan.now n i }
        requires few { (k n : ℕ) → slice_get self.old.locks.items k ≡ Some (Readers n) → n < 65535 }
        ensures { IsAnswered self.old (take_row plan.now (state_of self.old) place (seated task hand) task) result
            self.new }
    {
        let Some((node, index, seen)) = due_take(task) else {
            return Err(NotEnabled);
        };
        self.take_key(plan, place, hand, node, index, seen)
    }

    /// The key at this place of those of a node is given back, and the worker goes on.
    fn give_key(
        &mut self,
        plan: &Plan,
        place: u8,
        hand: Option<Hand>,
        task: Task,
        node: NodeId,
        index: usize,
    ) -> Result<(), NotEnabled>
        requires place { place < length self.old.seats.items }
        requires node { node < size plan.now.tree }
        requires key { index < keys_count plan.now node }
        ensures { IsAnswered self.old (gives_key plan.now (state_of self.old) place (seated task hand) task node index
            (slice_get self.old.locks.items (key_at plan.now node index))) result self.new }
    {
        let key = key_at_place(plan, node, index);
        let Some(&word) = self.locks.get(key) else {
            return Err(NotEnabled);
        };
        self.locks[key] = given_back(mode_at_place(plan, node, index), word);
        self.go(place, hand, task);
        Ok(())
    }

    pub(crate) fn give(
        &mut self,
        plan: &Plan,
        place: u8,
        task: Task,
        hand: Option<Hand>,
    ) -> Result<(), NotEnabled>
        requires place { place < length self.old.seats.items }
        requires keys { (b : Back) → back_due task ≡ Some b → HasKey plan.now b.node b.place }
        ensures { IsAnswered self.old (give_row plan.now (state_of self.old) place (seated task hand) task) result
            self.new }
    {
        let task = &task;
        let Some((node, index)) = due_back(*task) else {
            return Err(NotEnabled);
        };
        self.give_key(plan, place, hand, after_back(*task), node, index)
    }

    pub(crate) fn give_up(
        &mut self,
        plan: &Plan,
        place: u8,
        task: Task,
        hand: Option<Hand>,
    ) -> Result<(), NotEnabled>
        requires place { place < length self.old.seats.items }
        requires sizes { length self.old.statuses.items ≡ size plan.now.tree }
        requires opens { (n : ℕ) (d : OpeningValue) → task ≡ Opens n d → n < size plan.now.tree }
        ensures { IsAnswered self.old (give_up_row plan.now (state_of self.old) place (seated task hand) task) result
            self.new }
    {
        let Some(node) = due_give_up(task) else {
            return Err(NotEnabled);
        };
        self.statuses[node.index()] = NodeStatus::Ready(back_to(plan, place, node));
        self.go(place, hand, Task::Free);
        Ok(())
    }
}
