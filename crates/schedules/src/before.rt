//! What a worker does until it draws an event.

use crate::facts::{key_at, key_count};
use crate::search::Search;
use plan_events::{Event, EventKind};
use resource_locks::Plan;
use scheduling::Action;

impl Search {
    /// A worker takes a node, whose start is the next event, and the node's keys.
    fn begin(&mut self, plan: &Plan, worker: u8, node: u16) {
        self.come_to(plan, worker, node);
        for place in 0..key_count(plan, node) {
            self.push(worker, Action::Weigh);
            self.push(worker, Action::Take);
            if let Some(key) = key_at(plan, node, place) {
                self.hold(key);
            }
        }
    }

    /// A worker takes off a node's counter what it is to take off.
    fn count_at(&mut self, worker: u8, node: u16) {
        if self.worker(worker).counting == Some(node) {
            self.count_off(worker);
        }
        if self.worker(worker).hand == Some(node) {
            self.lay_down(worker);
        }
    }

    /// A worker takes the last one off a node's counter, whose finish is the next event, unless its
    /// body has ended the node.
    fn end(&mut self, worker: u8, node: u16) {
        let found = self.worker(worker);
        if found.counting != Some(node) && found.hand != Some(node) {
            return;
        }
        for other in 1..=self.last {
            if other != worker {
                self.count_at(other, node);
            }
        }
        self.count_at(worker, node);
    }

    /// A worker goes on to the next dynamic test of the factory in its hand.
    fn add(&mut self, worker: u8) {
        self.count_off(worker);
        self.push(worker, Action::AddChild);
    }

    /// The steps before an event.
    pub(crate) fn come_before(&mut self, plan: &Plan, history: &[Event], event: &Event) {
        self.raise_before(plan, history, event);
        let node = event.node.number();
        match event.kind {
            EventKind::Started => self.begin(plan, event.worker, node),
            EventKind::Skipped => self.come_to(plan, event.worker, node),
            EventKind::Finished => self.end(event.worker, node),
            EventKind::Registered => self.add(event.worker),
        }
    }
}
