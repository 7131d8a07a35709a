//! The steps that need no event, a worker's alone.

use crate::facts::{is_same_thread, key_at, key_count, notices, parent_of};
use crate::search::Search;
use descriptor::NodeId;
use resource_locks::Plan;
use scheduling::Action;

impl Search {
    /// A worker takes one off the counter off which it is to take one.
    pub(crate) fn count_off(&mut self, worker: u8) {
        let mut found = self.worker(worker);
        if found.counting.is_some() {
            self.push(worker, Action::Done);
            found.counting = None;
            self.set_worker(worker, found);
        }
    }

    /// A worker has registered all dynamic tests of the factory in its hand.
    pub(crate) fn lay_down(&mut self, worker: u8) {
        let mut found = self.worker(worker);
        if found.hand.is_some() {
            self.push(worker, Action::Done);
            found.hand = None;
            self.set_worker(worker, found);
        }
    }

    /// A worker settles its node, and passes its turn on.
    pub(crate) fn settle(&mut self, plan: &Plan, worker: u8, node: u16) {
        self.push(worker, Action::Settle);
        if let Some(sibling) = self.turn_after(node) {
            self.push(worker, Action::Look);
            self.push(worker, Action::Admit);
            self.offer(sibling);
        }
        let mut found = self.worker(worker);
        found.counting = parent_of(plan, node);
        self.set_worker(worker, found);
    }

    /// A worker gives the keys of its node back, and settles it.
    pub(crate) fn close(&mut self, plan: &Plan, worker: u8, node: u16) {
        for place in 0..key_count(plan, node) {
            self.push(worker, Action::Give);
            if let Some(key) = key_at(plan, node, place) {
                self.let_go(key);
            }
        }
        self.settle(plan, worker, node);
    }

    /// A worker raises its failure, if it is to, and closes its node.
    pub(crate) fn raise(&mut self, plan: &Plan, worker: u8) {
        let mut found = self.worker(worker);
        let Some(node) = found.raising else {
            return;
        };
        found.raising = None;
        self.set_worker(worker, found);
        self.raised = self.raised.saturating_add(1);
        self.push(worker, Action::Raise);
        self.close(plan, worker, node);
    }

    /// A worker becomes free for a node, and takes it.
    fn take(&mut self, plan: &Plan, worker: u8, node: u16) {
        self.count_off(worker);
        let is_same = node > 0 && is_same_thread(plan, node);
        let hand = self.worker(worker).hand;
        if !(is_same && hand == parent_of(plan, node)) {
            self.lay_down(worker);
        }
        if is_same {
            self.push(worker, Action::Own(NodeId::new(node)));
        } else {
            self.push(worker, Action::Claim(NodeId::new(node)));
        }
    }

    /// A worker takes a node, and looks whether the plan is cancelled, if it has not done so ahead.
    pub(crate) fn come_to(&mut self, plan: &Plan, worker: u8, node: u16) {
        if self.worker(worker).is_ahead {
            return;
        }
        self.take(plan, worker, node);
        if notices(plan, node) {
            self.push(worker, Action::Notice);
        }
        let mut found = self.worker(worker);
        found.is_ahead = true;
        self.set_worker(worker, found);
    }
}
