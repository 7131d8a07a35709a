//! When failures are raised, and when the plan is cancelled by them.

use crate::facts::{holds, keep_apart, key_at, key_count, notices, parent_of};
use crate::search::Search;
use plan_events::{Event, EventKind};
use resource_locks::Plan;

impl Search {
    /// Whether an event can only stand behind the end of a node that failed, and is finished: it
    /// needs the node's keys or its turn, or the node has to be counted off, or the plan has to be
    /// cancelled, for which each failure counts.
    fn waits_for(&self, plan: &Plan, event: &Event, failed: u16) -> bool {
        let node = event.node.number();
        match event.kind {
            EventKind::Started => {
                keep_apart(plan, failed, node)
                    || self.wants_full_key(plan, failed, node)
                    || self.turn_after(failed) == Some(node)
            }
            EventKind::Skipped => notices(plan, node) || self.turn_after(failed) == Some(node),
            EventKind::Finished => parent_of(plan, failed) == Some(node),
            EventKind::Registered => false,
        }
    }

    /// Whether a node wants a limited key that as many nodes hold as may, the node that failed among them.
    fn wants_full_key(&self, plan: &Plan, failed: u16, node: u16) -> bool {
        for place in 0..key_count(plan, node) {
            if let Some(key) = key_at(plan, node, place)
                && holds(plan, failed, key)
                && self.is_full(plan, key)
            {
                return true;
            }
        }
        false
    }

    /// Whether a worker has to raise its failure before an event.
    fn has_to_raise(&self, plan: &Plan, event: &Event, worker: u8) -> bool {
        match self.worker(worker).raising {
            Some(failed) => worker == event.worker || self.waits_for(plan, event, failed),
            None => false,
        }
    }

    /// How many failures were raised once those are that have to be before an event, if there are any.
    fn raised_before(&self, plan: &Plan, event: &Event) -> Option<usize> {
        let mut raised = self.raised;
        for worker in 1..=self.last {
            if self.has_to_raise(plan, event, worker) {
                raised = raised.saturating_add(1);
            }
        }
        if raised == self.raised {
            None
        } else {
            Some(raised)
        }
    }

    /// The failures are raised that have to be before an event. If these are more than the plan
    /// tolerates, it is cancelled.
    pub(crate) fn raise_before(&mut self, plan: &Plan, history: &[Event], event: &Event) {
        // then no worker puts it off
        if self.is_cancelled || !plan.fail_fast() {
            return;
        }
        let Some(raised) = self.raised_before(plan, event) else {
            return;
        };
        if raised > usize::from(plan.tolerated()) {
            self.cancel(plan, history);
            return;
        }
        for worker in 1..=self.last {
            if self.has_to_raise(plan, event, worker) {
                self.raise(plan, worker);
            }
        }
    }

    /// A worker takes the node that it starts next, if it can, and finds that the plan is not cancelled.
    fn go_ahead(&mut self, plan: &Plan, history: &[Event], worker: u8) {
        let found = self.worker(worker);
        let Some(event) = history.get(found.next) else {
            return;
        };
        let node = event.node.number();
        if event.kind != EventKind::Started || found.raising.is_some() || !self.is_offered(node) {
            return;
        }
        self.come_to(plan, worker, node);
    }

    /// The plan is cancelled: all raise who are to. Before that the others go ahead, who could not
    /// start their nodes after it.
    fn cancel(&mut self, plan: &Plan, history: &[Event]) {
        for worker in 1..=self.last {
            self.go_ahead(plan, history, worker);
        }
        self.is_cancelled = true;
        for worker in 1..=self.last {
            self.raise(plan, worker);
        }
    }
}
