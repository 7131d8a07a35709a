//! The search for steps that lead to a history, event by event.
//!
//! A worker takes at once what needs no event, but for three steps that it puts off: to raise a
//! failure, to take one off a node's counter, and to claim a node. It raises a failure at once if it
//! starts a node later, and else once the next event cannot stand before. If the failures are then more
//! than the plan tolerates, which cancels it, each other worker first claims the node that it starts
//! next, and looks whether the plan is cancelled. It takes one off a counter once it goes on, or once
//! another worker takes the last one off, who then finishes the node.

use crate::order::{Places, next_in_turn, places_of, starts_ends};
use plan_events::{Event, worker_count};
use resource_locks::Plan;
use sched_core::Answers;
use scheduling::{Action, Step};
use std::alloc::{AllocError, Global};

/// What a worker has to do yet that needs no event, and what it has.
#[derive(Clone, Copy)]
pub(crate) struct Worker {
    /// Its node that failed and is finished: it is to raise the failure, and then to close the node.
    pub(crate) raising: Option<u16>,
    /// The node off whose counter it is to take one.
    pub(crate) counting: Option<u16>,
    /// The factory in its hand.
    pub(crate) hand: Option<u16>,
    /// Whether it has claimed the node that it starts next, and has looked whether the plan is cancelled.
    pub(crate) is_ahead: bool,
    /// The place of its next event.
    pub(crate) next: usize,
    /// The place from which on it starts no node.
    pub(crate) starts_end: usize,
}

/// A worker that has nothing to do yet, whose next event stands at this place, and that starts no node
/// from this place on.
fn free_worker(next: usize, starts_end: usize) -> Worker {
    Worker {
        raising: None,
        counting: None,
        hand: None,
        is_ahead: false,
        next,
        starts_end,
    }
}

/// The steps so far, and what they have made.
pub(crate) struct Search {
    pub(crate) steps: Vec<Step>,
    /// The greatest number of a worker.
    pub(crate) last: u8,
    /// The worker of number k stands at k.
    pub(crate) workers: Vec<Worker>,
    /// Of each event the place of the next one of its worker.
    pub(crate) follows: Vec<usize>,
    /// For each node the number of the sibling whose turn is next.
    pub(crate) turns: Vec<Option<u16>>,
    /// For each node whether it was offered.
    pub(crate) offered: Vec<bool>,
    /// Of each key how many nodes hold it.
    pub(crate) holders: Vec<u16>,
    /// How many failures were raised.
    pub(crate) raised: usize,
    pub(crate) is_cancelled: bool,
    /// Whether there was no memory for a step.
    pub(crate) is_incomplete: bool,
}

impl Drop for Search {
    fn drop(self) {
        let Search {
            steps: _,
            last: _,
            workers: _,
            follows: _,
            turns: _,
            offered: _,
            holders: _,
            raised: _,
            is_cancelled: _,
            is_incomplete: _,
        } = self;
    }
}

/// Workers whose next events stand at these places, and that start no node from these ends on.
fn workers_at(alloc: Global, places: &[usize], ends: &[usize]) -> Result<Vec<Worker>, AllocError> {
    let mut workers = Vec::new(alloc);
    for (place, end) in places.iter().zip(ends.iter()) {
        workers.push(free_worker(*place, *end))?;
    }
    Ok(workers)
}

/// Of so many nodes none is offered but the root.
fn root_offered(alloc: Global, nodes: usize) -> Result<Vec<bool>, AllocError> {
    let mut offered = vec![in alloc; false; nodes]?;
    if let Some(root) = offered.get_mut(0) {
        *root = true;
    }
    Ok(offered)
}

impl Search {
    /// The steps that were found.
    fn into_steps(self) -> Vec<Step> {
        let Search {
            steps,
            last: _,
            workers: _,
            follows: _,
            turns: _,
            offered: _,
            holders: _,
            raised: _,
            is_cancelled: _,
            is_incomplete: _,
        } = self;
        steps
    }

    /// No step so far.
    fn new(alloc: Global, plan: &Plan, last: u8, history: &[Event]) -> Result<Search, AllocError> {
        let turns = next_in_turn(alloc, plan)?;
        let offered = root_offered(alloc, plan.tree().len())?;
        // no worker has number 0
        let count = 1 + usize::from(last);
        let ends = starts_ends(alloc, count, history)?;
        let holders = vec![in alloc; 0u16; plan.key_count()]?;
        let Places { first, next } = places_of(alloc, count, history)?;
        let workers = workers_at(alloc, first.as_slice(), ends.as_slice())?;
        Ok(Search {
            steps: Vec::new(alloc),
            last,
            workers,
            follows: next,
            turns,
            offered,
            holders,
            raised: 0,
            is_cancelled: false,
            is_incomplete: false,
        })
    }

    /// One more step of a worker. That there is no memory for it is kept until the event is done, so that no step in
    /// between has to ask.
    pub(crate) fn push(&mut self, worker: u8, action: Action) {
        if self.steps.push(Step::Worker(worker, action)).is_err() {
            self.is_incomplete = true;
        }
    }

    /// The worker of this number.
    pub(crate) fn worker(&self, worker: u8) -> Worker {
        match self.workers.get(usize::from(worker)) {
            Some(found) => *found,
            None => free_worker(usize::MAX, 0),
        }
    }

    /// What the worker of this number has from now on.
    pub(crate) fn set_worker(&mut self, worker: u8, becomes: Worker) {
        if let Some(found) = self.workers.get_mut(usize::from(worker)) {
            *found = becomes;
        }
    }

    /// A node was offered.
    pub(crate) fn offer(&mut self, node: u16) {
        if let Some(offered) = self.offered.get_mut(usize::from(node)) {
            *offered = true;
        }
    }

    /// Whether a node was offered.
    pub(crate) fn is_offered(&self, node: u16) -> bool {
        self.offered
            .get(usize::from(node))
            .copied()
            .unwrap_or(false)
    }

    /// A key has one holder more.
    pub(crate) fn hold(&mut self, key: usize) {
        if let Some(holders) = self.holders.get_mut(key) {
            *holders = holders.saturating_add(1);
        }
    }

    /// A key has one holder less.
    pub(crate) fn let_go(&mut self, key: usize) {
        if let Some(holders) = self.holders.get_mut(key) {
            *holders = holders.saturating_sub(1);
        }
    }

    /// Whether as many nodes hold a key as may.
    pub(crate) fn is_full(&self, plan: &Plan, key: usize) -> bool {
        let limit = u16::from(plan.limit(key));
        limit > 0 && self.holders.get(key).copied().unwrap_or(0) >= limit
    }

    /// The sibling whose turn is after that of a node.
    pub(crate) fn turn_after(&self, node: u16) -> Option<u16> {
        self.turns.get(usize::from(node)).copied().unwrap_or(None)
    }
}

/// Steps which, taken by so many workers of the plan, may publish this history and give all of it.
/// That they do is not proved here.
pub(crate) fn steps_toward(
    alloc: Global,
    plan: &Plan,
    answers: &Answers,
    workers: u32,
    history: &[Event],
) -> Result<Vec<Step>, AllocError> {
    let Ok(last) = worker_count(workers) else {
        return Ok(Vec::new(alloc));
    };
    let mut search = Search::new(alloc, plan, last, history)?;
    for place in 0..history.len() {
        search.follow(plan, answers, history, place);
        if search.is_incomplete {
            return Err(AllocError);
        }
    }
    Ok(search.into_steps())
}
