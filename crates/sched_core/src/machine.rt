//! The words of a run, and its steps.

ghost use Rattle.std.specs.Prelude.{◌≡◌, ◌≤◌, ◌<◌, ℕ, List, [], None, IfOk, false, length, slice_index_or};
ghost use Rattle.std.specs.Prelude.{replicate, set, vec_capacity};
ghost use Rattle.descriptor.specs.Nodes.{size};
ghost use Rattle.resource_locks.specs.Held.{table};
ghost use Rattle.resource_locks.specs.Plans.{IsPlan, most_events};
ghost use Rattle.scheduling.specs.Inside.Start.{guard_and_children};
ghost use Rattle.plan_events.specs.declared.outcome.Reply.{Reply};
ghost use Rattle.scheduling.specs.Answers.{reply_by};
ghost use Rattle.scheduling.specs.LinkLists.{AreTurns};
ghost use Rattle.scheduling.specs.Rows.{row, goes, read_row};
ghost use Rattle.scheduling.specs.Runs.{opening};
ghost use Rattle.scheduling.specs.Shown.{IsPlaced, IsShown};
ghost use Rattle.scheduling.specs.State.{lock_at};
ghost use Rattle.sched_core.specs.Inside.Bounds.{InBounds};
ghost use Rattle.sched_core.specs.Inside.Fields.{state_of, seated, IsSound, IsAnswered, KeepsRoom};
ghost use Rattle.sched_core.specs.Steps.{after_step, worker_step};

use crate::answers::Answers;
use crate::fault::NotEnabled;
use plan_events::{Event, Status};
use resource_locks::Plan;
use scheduling::{
    Action, Answer, Hand, LockWord, NodeStatus, Seat, Step, Task, Turns, awaited,
    counters_at_start, decided, seats_at_start,
};
use std::alloc::{AllocError, Global};

/// The words of a run. The worker with number k stands at place k - 1 of the seats.
pub(crate) struct Machine {
    pub(crate) workers: u8,
    pub(crate) statuses: Vec<NodeStatus>,
    pub(crate) counters: Vec<usize>,
    pub(crate) results: Vec<Status>,
    pub(crate) locks: Vec<LockWord>,
    // how many failures were raised
    pub(crate) cancel: usize,
    pub(crate) seats: Vec<Seat>,
    pub(crate) published: Vec<Event>,
    pub(crate) shown: Vec<bool>,
    pub(crate) given: usize,
}

impl Drop for Machine {
    fn drop(self) {
        let Machine {
            workers: _,
            statuses: _,
            counters: _,
            results: _,
            locks: _,
            cancel: _,
            seats: _,
            published: _,
            shown: _,
            given: _,
        } = self;
    }
}

/// The words of the nodes at the start: their statuses, their counters and their results.
fn node_words(
    alloc: Global,
    plan: &Plan,
) -> Result<(Vec<NodeStatus>, Vec<usize>, Vec<Status>), AllocError>
    ensures plan { IfOk result (λ _. IsPlan plan.now) }
    ensures statuses { IfOk result (λ w. w.0.items ≡ set (replicate (size plan.now.tree) NodeStatus.Hidden) 0
        (NodeStatus.Ready None)) }
    ensures counters { IfOk result (λ w. w.1.items ≡ table (guard_and_children plan.now.tree) (size plan.now.tree)) }
    ensures results { IfOk result (λ w. w.2.items ≡ replicate (size plan.now.tree) Status.Successful) }
{
    let nodes = plan.tree().len();
    let mut statuses = vec![in alloc; NodeStatus::Hidden; nodes]?;
    statuses[0] = NodeStatus::Ready(None);
    let counters = counters_at_start(alloc, plan.tree())?;
    let results = vec![in alloc; Status::Successful; nodes]?;
    Ok((statuses, counters, results))
}

/// Room for every event of the plan, and for whether it is shown.
fn history_room(alloc: Global, plan: &Plan) -> Result<(Vec<Event>, Vec<bool>), AllocError>
    ensures published { IfOk result (λ r. r.0.items ≡ []) }
    ensures shown { IfOk result (λ r. r.1.items ≡ []) }
    ensures published_room { IfOk result (λ r. most_events plan.now ≤ vec_capacity r.0) }
    ensures shown_room { IfOk result (λ r. most_events plan.now ≤ vec_capacity r.1) }
{
    let most = plan.most_events();
    let published = Vec::with_capacity(alloc, most)?;
    let shown = Vec::with_capacity(alloc, most)?;
    Ok((published, shown))
}

impl Machine {
    /// The opening state, with room for every event of the plan.
    pub(crate) fn new(alloc: Global, plan: &Plan, workers: u8) -> Result<Machine, AllocError>
        requires some { 0 < workers }
        requires few { workers ≤ 64 }
        ensures opening { IfOk result (λ m. state_of m ≡ opening plan.now workers) }
        ensures workers { IfOk result (λ m. m.workers ≡ workers) }
        ensures sound { IfOk result (λ m. (answers : List (ℕ × Reply)) → IsSound plan.now answers m) }
    {
        let (statuses, counters, results) = node_words(alloc, plan)?;
        let (published, shown) = history_room(alloc, plan)?;
        Ok(Machine {
            workers,
            statuses,
            counters,
            results,
            locks: vec![in alloc; LockWord::Readers(0); plan.key_count()]?,
            cancel: 0,
            seats: seats_at_start(alloc, workers)?,
            published,
            shown,
            given: 0,
        })
    }

    /// The word of a key.
    pub(crate) fn word(&self, key: usize) -> LockWord
        ensures { result ≡ lock_at (state_of self.now) key }
    {
        self.locks.get(key).copied().unwrap_or(LockWord::Readers(0))
    }

    /// The worker at this place goes on with a task, and with what it has in hand.
    pub(crate) fn go(&mut self, place: u8, hand: Option<Hand>, task: Task)
        requires { place < length self.old.seats.items }
        ensures state { state_of self.new ≡ goes (state_of self.old) place (seated task hand) task }
        ensures room { KeepsRoom self.old self.new }
    {
        self.seats[usize::from(place)] = Seat { task, hand };
    }

    /// The step of the worker at this place, whose task is decided.
    pub(crate) fn act(
        &mut self,
        plan: &Plan,
        turns: &Turns,
        place: u8,
        task: Task,
        hand: Option<Hand>,
        answer: Answer,
        action: Action,
    ) -> Result<(), NotEnabled>
        requires turns { AreTurns plan.now turns.now }
        requires bounds { InBounds plan.now self.old place (seated task hand) }
        ensures { IsAnswered self.old (row plan.now (state_of self.old) place (seated task hand) (reply_by answer)
            action) result self.new }
    {
        match action {
            Action::Claim(node) => self.claim(plan, place, task, hand, node),
            Action::Own(node) => self.own(plan, place, task, hand, node),
            Action::Notice => self.notice(plan, place, task, hand),
            Action::Weigh => self.weigh(plan, place, task, hand),
            Action::Take => self.take(plan, place, task, hand),
            Action::Give => self.give(plan, place, task, hand),
            Action::GiveUp => self.give_up(plan, place, task, hand),
            Action::Draw => self.draw(place, task, hand),
            Action::Show => self.show(plan, place, task, hand),
            Action::Admit => self.admit(plan, turns, place, task, hand),
            Action::AddChild => self.add_child(plan, place, task, hand, answer),
            Action::Done => self.done(plan, place, task, hand, answer),
            Action::Settle => self.settle(plan, turns, place, task, hand),
            Action::Look => self.look(plan, place, task, hand),
            Action::Raise => self.raise(plan, place, task, hand),
        }
    }

    /// One step of the worker with this number, from 1.
    fn work(
        &mut self,
        plan: &Plan,
        turns: &Turns,
        answers: &Answers,
        worker: u8,
        action: Action,
    ) -> Result<(), NotEnabled>
        requires turns { AreTurns plan.now turns.now }
        requires sound { IsSound plan.now answers.now self.old }
        ensures { IsAnswered self.old (worker_step plan.now answers.now (state_of self.old) worker action) result
            self.new }
    {
        if worker == 0 {
            return Err(NotEnabled);
        }
        let place = worker - 1;
        let Some(seat) = self.seats.get(usize::from(place)) else {
            return Err(NotEnabled);
        };
        let answer = answers.answer(awaited(plan, seat));
        let task = decided(plan, turns, answer, seat.task);
        let hand = seat.hand;
        self.act(plan, turns, place, task, hand, answer, action)
    }

    /// Whether the event at the next place is shown.
    fn is_next_shown(&self) -> bool
        ensures { result ≡ slice_index_or self.now.shown.items self.now.given false }
    {
        self.shown.get(self.given).copied().unwrap_or(false)
    }

    /// Gives the next event, where it is shown.
    fn read(&mut self) -> Result<(), NotEnabled>
        requires given { self.old.given ≤ length self.old.published.items }
        requires placed { IsPlaced (state_of self.old) }
        ensures answered { IsAnswered self.old (read_row (state_of self.old)) result self.new }
        ensures shown { IsShown (state_of self.old) (state_of self.old).given →
            IsShown (state_of self.new) (state_of self.new).given }
    {
        if self.given == self.published.len() || !self.is_next_shown() {
            return Err(NotEnabled);
        }
        self.given += 1;
        Ok(())
    }

    /// One step. Where it is not possible now it is refused, and nothing changes.
    pub(crate) fn step(
        &mut self,
        plan: &Plan,
        turns: &Turns,
        answers: &Answers,
        step: Step,
    ) -> Result<(), NotEnabled>
        requires turns { AreTurns plan.now turns.now }
        requires sound { IsSound plan.now answers.now self.old }
        ensures answered { IsAnswered self.old (after_step plan.now answers.now (state_of self.old) step) result
            self.new }
        ensures sound { IsSound plan.now answers.now self.new }
        ensures workers { self.new.workers ≡ self.old.workers }
    {
        match step {
            Step::Worker(worker, action) => self.work(plan, turns, answers, worker, action),
            Step::Read => self.read(),
        }
    }
}
