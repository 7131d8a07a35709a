//! What a worker does from its event on.

use crate::facts::{child_at, child_count, has_turn, is_spare, opens, pulls, raises};
use crate::search::Search;
use plan_events::{Event, EventKind, Status};
use resource_locks::Plan;
use sched_core::Answers;
use scheduling::{Action, Step};

impl Search {
    /// A worker draws its event and shows it, and it is given.
    fn tell(&mut self, worker: u8) {
        self.push(worker, Action::Draw);
        self.push(worker, Action::Show);
        if self.steps.push(Step::Read).is_err() {
            self.is_incomplete = true;
        }
    }

    /// A worker offers the child of a node at a place, if its node offers it itself, and answers
    /// whether a child with a turn has been offered.
    fn offer_child(&mut self, plan: &Plan, worker: u8, child: u16, had_turn: bool) -> bool {
        let takes_turn = has_turn(plan, child);
        if !is_spare(plan, child) && !(takes_turn && had_turn) {
            self.push(worker, Action::Admit);
            self.offer(child);
        }
        had_turn || takes_turn
    }

    /// A worker offers the children of a node.
    fn offer_children(&mut self, plan: &Plan, worker: u8, node: u16) {
        let mut had_turn = false;
        for place in 0..child_count(plan, node) {
            if let Some(child) = child_at(plan, node, place) {
                had_turn = self.offer_child(plan, worker, child, had_turn);
            }
        }
    }

    /// What a worker does whose node has started.
    fn go_inside(&mut self, plan: &Plan, answers: &Answers, worker: u8, node: u16) {
        let mut found = self.worker(worker);
        if pulls(plan, node) {
            found.hand = Some(node);
        } else if opens(plan, answers, node) {
            self.offer_children(plan, worker, node);
            found.counting = Some(node);
        }
        self.set_worker(worker, found);
    }

    /// What a worker does whose node has finished.
    fn leave(&mut self, plan: &Plan, worker: u8, node: u16, status: Option<Status>) {
        if !raises(plan, status) {
            self.close(plan, worker, node);
            return;
        }
        let mut found = self.worker(worker);
        found.raising = Some(node);
        self.set_worker(worker, found);
        // who starts a node later starts it before more have raised than are tolerated
        if self.is_cancelled || found.next < found.starts_end {
            self.raise(plan, worker);
        }
    }

    /// The steps after an event.
    fn go_on(&mut self, plan: &Plan, answers: &Answers, event: &Event) {
        let worker = event.worker;
        let node = event.node.number();
        match event.kind {
            EventKind::Started => self.go_inside(plan, answers, worker, node),
            EventKind::Skipped => self.settle(plan, worker, node),
            EventKind::Finished => self.leave(plan, worker, node, event.status),
            EventKind::Registered => {
                self.push(worker, Action::Admit);
                self.offer(node);
            }
        }
    }

    /// The steps of an event, at this place of the history.
    pub(crate) fn follow(
        &mut self,
        plan: &Plan,
        answers: &Answers,
        history: &[Event],
        place: usize,
    ) {
        let Some(event) = history.get(place) else {
            return;
        };
        self.come_before(plan, history, event);
        self.tell(event.worker);
        let mut found = self.worker(event.worker);
        found.is_ahead = false;
        if let Some(next) = self.follows.get(place) {
            found.next = *next;
        }
        self.set_worker(event.worker, found);
        self.go_on(plan, answers, event);
    }
}
