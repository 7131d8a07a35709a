//! A fixed schedule of many workers, which take turns.

ghost use Rattle.std.specs.Prelude.{◌≡◌, ◌<◌, ◌↔◌, ℕ, IsTrue, true, false, Some, slice_get, length};
ghost use Rattle.descriptor.specs.Nodes.{size, is_factory_at};
ghost use Rattle.plan_events.specs.declared.outcome.Reply.{Reply};
ghost use Rattle.scheduling.specs.Answers.{answer_of};
ghost use Rattle.scheduling.specs.Choices.{keys_count, key_at, admits_at};
ghost use Rattle.scheduling.specs.LinkLists.{AreTurns};
ghost use Rattle.scheduling.specs.Rows.{read_row};
ghost use Rattle.scheduling.specs.State.{State, status_at, lock_at};
ghost use Rattle.scheduling.specs.declared.seat.Hand.{Hand as HandValue};
ghost use Rattle.scheduling.specs.declared.seat.Seat.{Seat as SeatValue};
ghost use Rattle.termination.specs.Inside.Accounts.{steps_left};
ghost use Rattle.termination.specs.Inside.Turns.{IsTurnOf, IsBetweenTurns};
ghost use Rattle.termination.specs.Turns.{is_offered_to as is_offered_to_of, takes_keys as takes_keys_of};
ghost use Rattle.termination.specs.Turns.{AreFreeFrom, MayTake, NextNode, NextFree, NextInTurn};
ghost use Rattle.sched_core.specs.Runs.{state_or};
ghost use Rattle.sched_core.specs.InTurns.{IsNextInTurn, IsIdle, IsStepInTurn, TakesKeys, IsTurn, IsRound, Rounds};
ghost use Rattle.sched_core.specs.Inside.Fields.{state_of, IsSound};
ghost use Rattle.sched_core.specs.Inside.Rounds.{IsFoundFor, IsQuiet, Leads};

use crate::answers::Answers;
use crate::machine::Machine;
use descriptor::NodeId;
use resource_locks::Plan;
use scheduling::{
    Action, Answer, Hand, NodeStatus, Opening, Step, Task, Turns, admits, awaited, closing_action,
    decided, hand_action, key_at_place, limit_at_place, mode_at_place, opening_action, taking,
};

/// Whether the worker at a place may take a node that is there: it is offered to any, or to it.
fn is_offered_to(place: u8, status: NodeStatus) -> bool
    ensures { result ≡ is_offered_to_of place status }
{
    match status {
        NodeStatus::Ready(None) => true,
        NodeStatus::Ready(Some(owner)) => owner == place,
        NodeStatus::Hidden | NodeStatus::Claimed(_) | NodeStatus::Settled => false,
    }
}

/// Whether a worker with this task takes keys, or is about to.
fn takes_keys(task: &Task) -> bool
    ensures { result ≡ takes_keys_of task.now }
{
    match task {
        Task::Opens(_, opening) => match opening {
            Opening::Noticing
            | Opening::Locking(_)
            | Opening::Weighed(_, _)
            | Opening::Backing(_) => true,
            _ => false,
        },
        Task::Free | Task::Closes(_, _) => false,
    }
}

impl Machine {
    /// Whether the key at this place of a node may be taken.
    fn is_key_free(&self, plan: &Plan, node: NodeId, index: usize) -> bool
        requires node { node < size plan.now.tree }
        requires index { index < keys_count plan.now node }
        ensures { result ≡ admits_at plan.now node index
            (lock_at (state_of self.now) (key_at plan.now node index)) }
    {
        admits(
            limit_at_place(plan, node, index),
            mode_at_place(plan, node, index),
            self.word(key_at_place(plan, node, index)),
        )
    }

    /// Whether all keys of a node may be taken.
    fn are_keys_free(&self, plan: &Plan, node: NodeId) -> bool
        requires { node < size plan.now.tree }
        ensures { IsTrue result ↔ AreFreeFrom plan.now (state_of self.now) node 0 }
    {
        for index in 0..plan.held(node).locks().len() {
            if !self.is_key_free(plan, node, index) {
                return false;
            }
        }
        true
    }

    /// Whether the worker at a place may take a node with all its keys.
    fn may_take(&self, plan: &Plan, place: u8, node: NodeId) -> bool
        requires node { node < size plan.now.tree }
        requires sizes { length self.now.statuses.items ≡ size plan.now.tree }
        ensures { IsTrue result ↔ MayTake plan.now (state_of self.now) place node }
    {
        is_offered_to(place, self.statuses[node.index()]) && self.are_keys_free(plan, node)
    }

    /// The first node that the worker at a place may take with all its keys.
    fn found_for(&self, plan: &Plan, place: u8) -> Option<NodeId>
        requires sizes { length self.now.statuses.items ≡ size plan.now.tree }
        ensures { IsFoundFor plan.now (state_of self.now) place result }
    {
        for index in 0..plan.tree().len() {
            let node = NodeId::new(index as u16);
            if self.may_take(plan, place, node) {
                return Some(node);
            }
        }
        None
    }

    /// What a free worker does with nothing in hand, if anything: it takes the first node that it may.
    fn next_node(&self, plan: &Plan, place: u8) -> Option<Action>
        requires sizes { length self.now.statuses.items ≡ size plan.now.tree }
        ensures { NextNode plan.now (state_of self.now) place result }
    {
        match self.found_for(plan, place) {
            Some(node) => Some(taking(self.statuses[node.index()], node)),
            None => None,
        }
    }

    /// What a free worker does with a factory in hand, if anything: it takes the dynamic test that this waits for, or
    /// goes on with it.
    fn next_of_hand(&self, plan: &Plan, hand: &Hand, answer: Answer) -> Option<Action>
        requires inside { hand.now.factory < size plan.now.tree }
        requires factory { is_factory_at plan.now.tree hand.now.factory ≡ true }
        requires waiting { (c : ℕ) → hand.now.waiting ≡ Some c → c < size plan.now.tree }
        ensures { (place : ℕ) (reply : Reply) → answer_of reply ≡ answer →
            NextFree plan.now (state_of self.now) place reply (Some hand.now) result }
    {
        match hand.waiting {
            Some(child) => {
                if self.are_keys_free(plan, child) {
                    Some(Action::Own(child))
                } else {
                    None
                }
            }
            None => Some(hand_action(plan, hand, answer)),
        }
    }

    /// What the worker at a place does whose task is decided, if anything.
    fn next_by(
        &self,
        plan: &Plan,
        place: u8,
        task: &Task,
        hand: &Option<Hand>,
        answer: Answer,
    ) -> Option<Action>
        requires sizes { length self.now.statuses.items ≡ size plan.now.tree }
        requires inside { (h : HandValue) → hand.now ≡ Some h → h.factory < size plan.now.tree }
        requires factory { (h : HandValue) → hand.now ≡ Some h → is_factory_at plan.now.tree h.factory ≡ true }
        requires waiting { (h : HandValue) (c : ℕ) → hand.now ≡ Some h → h.waiting ≡ Some c → c < size plan.now.tree }
        ensures { (reply : Reply) → answer_of reply ≡ answer →
            NextInTurn plan.now (state_of self.now) place reply hand.now task.now result }
    {
        match task {
            Task::Free => match hand {
                Some(hand) => self.next_of_hand(plan, hand, answer),
                None => self.next_node(plan, place),
            },
            Task::Opens(_, opening) => Some(opening_action(opening)),
            Task::Closes(_, closing) => Some(closing_action(closing)),
        }
    }

    /// What the worker at a place does in its turn, if anything.
    fn next_in_turn(
        &self,
        plan: &Plan,
        turns: &Turns,
        answers: &Answers,
        place: u8,
    ) -> Option<Action>
        requires turns { AreTurns plan.now turns.now }
        requires sound { IsSound plan.now answers.now self.now }
        requires place { place < length self.now.seats.items }
        ensures { (seat : SeatValue) → slice_get self.now.seats.items place ≡ Some seat →
            IsNextInTurn plan.now answers.now (state_of self.now) place seat result }
    {
        let seat = &self.seats[usize::from(place)];
        let answer = answers.answer(awaited(plan, seat));
        let task = decided(plan, turns, answer, seat.task);
        let hand = seat.hand;
        self.next_by(plan, place, &task, &hand, answer)
    }

    /// A step of the worker whose turn it is. Says whether it has one.
    fn works(&mut self, plan: &Plan, turns: &Turns, answers: &Answers, place: u8) -> bool
        requires turns { AreTurns plan.now turns.now }
        requires sound { IsSound plan.now answers.now self.old }
        requires place { place < length self.old.seats.items }
        requires turn { IsTurnOf plan.now (state_of self.old) place }
        ensures sound { IsSound plan.now answers.now self.new }
        ensures workers { self.new.workers ≡ self.old.workers }
        ensures turn { IsTurnOf plan.now (state_of self.new) place }
        ensures step { result ≡ true → IsStepInTurn plan.now answers.now place (state_of self.old) (state_of self.new) }
        ensures leads { Leads plan.now answers.now (state_of self.old) (state_of self.new) }
        ensures less { result ≡ true → steps_left plan.now (state_of self.new) < steps_left plan.now
            (state_of self.old) }
        ensures idle { result ≡ false → (self.new ≡ self.old)
            × IsIdle plan.now answers.now (state_of self.old) place }
    {
        let Some(action) = self.next_in_turn(plan, turns, answers, place) else {
            return false;
        };
        self.step(plan, turns, answers, Step::Worker(place + 1, action))
            .is_ok()
    }

    /// A further step of the worker whose turn it is, if it takes keys. Says whether it did.
    fn takes_more(&mut self, plan: &Plan, turns: &Turns, answers: &Answers, place: u8) -> bool
        requires turns { AreTurns plan.now turns.now }
        requires sound { IsSound plan.now answers.now self.old }
        requires place { place < length self.old.seats.items }
        requires turn { IsTurnOf plan.now (state_of self.old) place }
        ensures sound { IsSound plan.now answers.now self.new }
        ensures workers { self.new.workers ≡ self.old.workers }
        ensures turn { IsTurnOf plan.now (state_of self.new) place }
        ensures more { result ≡ true → (t : State) → TakesKeys plan.now answers.now place (state_of self.new) t →
            TakesKeys plan.now answers.now place (state_of self.old) t }
        ensures done { result ≡ false → TakesKeys plan.now answers.now place (state_of self.old) (state_of self.new) }
        ensures leads { Leads plan.now answers.now (state_of self.old) (state_of self.new) }
        ensures less { result ≡ true → steps_left plan.now (state_of self.new) < steps_left plan.now
            (state_of self.old) }
        ensures over { result ≡ false → IsBetweenTurns (state_of self.new) }
    {
        if !takes_keys(&self.seats[usize::from(place)].task) {
            return false;
        }
        self.works(plan, turns, answers, place)
    }

    /// The turn of the worker at a place: one step, and where it takes a node, all its keys. Says whether it has one.
    fn turn(&mut self, plan: &Plan, turns: &Turns, answers: &Answers, place: u8) -> bool
        requires turns { AreTurns plan.now turns.now }
        requires sound { IsSound plan.now answers.now self.old }
        requires place { place < length self.old.seats.items }
        requires between { IsBetweenTurns (state_of self.old) }
        ensures sound { IsSound plan.now answers.now self.new }
        ensures workers { self.new.workers ≡ self.old.workers }
        ensures between { IsBetweenTurns (state_of self.new) }
        ensures turn { IsTurn plan.now answers.now place (state_of self.old) (state_of self.new) }
        ensures leads { Leads plan.now answers.now (state_of self.old) (state_of self.new) }
        ensures less { result ≡ true → steps_left plan.now (state_of self.new) < steps_left plan.now
            (state_of self.old) }
        ensures idle { result ≡ false → (self.new ≡ self.old)
            × IsIdle plan.now answers.now (state_of self.old) place }
    {
        if !self.works(plan, turns, answers, place) {
            return false;
        }
        'keys: loop {
            if !self.takes_more(plan, turns, answers, place) {
                break 'keys;
            }
        }
        true
    }

    /// The dispatcher gives the next event, if it is shown, and the worker at a place has its turn. Says whether
    /// either did something.
    fn serve(&mut self, plan: &Plan, turns: &Turns, answers: &Answers, place: u8) -> bool
        requires turns { AreTurns plan.now turns.now }
        requires sound { IsSound plan.now answers.now self.old }
        requires place { place < length self.old.seats.items }
        requires between { IsBetweenTurns (state_of self.old) }
        ensures sound { IsSound plan.now answers.now self.new }
        ensures workers { self.new.workers ≡ self.old.workers }
        ensures between { IsBetweenTurns (state_of self.new) }
        ensures turn { IsTurn plan.now answers.now place
            (state_or (state_of self.old) (read_row (state_of self.old))) (state_of self.new) }
        ensures leads { Leads plan.now answers.now (state_of self.old) (state_of self.new) }
        ensures less { result ≡ true → steps_left plan.now (state_of self.new) < steps_left plan.now
            (state_of self.old) }
        ensures quiet { result ≡ false → (self.new ≡ self.old)
            × IsQuiet plan.now answers.now (state_of self.old) place }
    {
        let read = self.reads(plan, turns, answers);
        let worked = self.turn(plan, turns, answers, place);
        read || worked
    }

    /// A turn of each worker. Says whether anything was done.
    fn round(&mut self, plan: &Plan, turns: &Turns, answers: &Answers) -> bool
        requires turns { AreTurns plan.now turns.now }
        requires sound { IsSound plan.now answers.now self.old }
        requires between { IsBetweenTurns (state_of self.old) }
        ensures sound { IsSound plan.now answers.now self.new }
        ensures workers { self.new.workers ≡ self.old.workers }
        ensures between { IsBetweenTurns (state_of self.new) }
        ensures round { IsRound plan.now answers.now self.old.workers (state_of self.old) (state_of self.new) }
        ensures same { result ≡ false → self.new ≡ self.old }
        ensures leads { Leads plan.now answers.now (state_of self.old) (state_of self.new) }
        ensures less { result ≡ true → steps_left plan.now (state_of self.new) < steps_left plan.now
            (state_of self.old) }
        ensures quiet { result ≡ false → (v : ℕ) → v < self.old.workers →
            IsQuiet plan.now answers.now (state_of self.new) v }
    {
        let workers = self.workers;
        let mut went_on = false;
        for place in 0..workers {
            if self.serve(plan, turns, answers, place) {
                went_on = true;
            }
        }
        went_on
    }

    /// Round after round, until nothing is left to be done.
    pub(crate) fn drive_rounds(&mut self, plan: &Plan, turns: &Turns, answers: &Answers)
        requires turns { AreTurns plan.now turns.now }
        requires sound { IsSound plan.now answers.now self.old }
        requires between { IsBetweenTurns (state_of self.old) }
        ensures sound { IsSound plan.now answers.now self.new }
        ensures workers { self.new.workers ≡ self.old.workers }
        ensures rounds { Rounds plan.now answers.now self.old.workers (state_of self.old) (state_of self.new) }
        ensures leads { Leads plan.now answers.now (state_of self.old) (state_of self.new) }
        ensures quiet { (v : ℕ) → v < self.old.workers → IsQuiet plan.now answers.now (state_of self.new) v }
    {
        'rounds: loop {
            if !self.round(plan, turns, answers) {
                break 'rounds;
            }
        }
    }
}
