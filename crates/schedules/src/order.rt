//! What follows what: the next sibling in its turn, the next event of the same worker, and where a
//! worker starts nothing more.

use crate::facts::{has_turn, parent_of};
use plan_events::{Event, EventKind};
use resource_locks::Plan;
use std::alloc::{AllocError, Global};

/// For each node with a turn the number of the sibling whose turn is next.
pub(crate) fn next_in_turn(alloc: Global, plan: &Plan) -> Result<Vec<Option<u16>>, AllocError> {
    let nodes = plan.tree().len();
    let mut next = vec![in alloc; None; nodes]?;
    // of each node's children the last so far that has a turn
    let mut last = vec![in alloc; None; nodes]?;
    for index in 0..nodes {
        let number = index as u16;
        if has_turn(plan, number) {
            link(plan, &mut next, &mut last, number);
        }
    }
    Ok(next)
}

/// A node is the next behind the last of its elder siblings.
fn link(plan: &Plan, next: &mut [Option<u16>], last: &mut [Option<u16>], number: u16) {
    let Some(parent) = parent_of(plan, number) else {
        return;
    };
    let Some(last) = last.get_mut(usize::from(parent)) else {
        return;
    };
    if let Some(elder) = *last
        && let Some(next) = next.get_mut(usize::from(elder))
    {
        *next = Some(number);
    }
    *last = Some(number);
}

/// The places of the events, by their workers.
#[derive(Drop)]
pub(crate) struct Places {
    /// Of each worker the place of its first event; that of worker k stands at k.
    pub(crate) first: Vec<usize>,
    /// Of each event the place of the next one of its worker.
    pub(crate) next: Vec<usize>,
}

/// The places of these events by so many workers. A place behind all of them is that of no event.
pub(crate) fn places_of(
    alloc: Global,
    workers: usize,
    history: &[Event],
) -> Result<Places, AllocError> {
    let none = history.len();
    let mut places = Places {
        first: vec![in alloc; none; workers]?,
        next: vec![in alloc; none; none]?,
    };
    let mut last = vec![in alloc; none; workers]?;
    for place in 0..none {
        let worker = usize::from(history[place].worker);
        places.put(&mut last, worker, place);
    }
    Ok(places)
}

impl Places {
    /// One more event of a worker.
    fn put(&mut self, last: &mut [usize], worker: usize, place: usize) {
        let Some(last) = last.get_mut(worker) else {
            return;
        };
        if let Some(next) = self.next.get_mut(*last) {
            *next = place;
        } else if let Some(first) = self.first.get_mut(worker) {
            *first = place;
        }
        *last = place;
    }
}

/// Of so many workers the places from which on they start no node of these events; that of worker k
/// stands at k.
pub(crate) fn starts_ends(
    alloc: Global,
    workers: usize,
    history: &[Event],
) -> Result<Vec<usize>, AllocError> {
    let mut ends = vec![in alloc; 0usize; workers]?;
    for place in 0..history.len() {
        let event = &history[place];
        if event.kind == EventKind::Started
            && let Some(end) = ends.get_mut(usize::from(event.worker))
        {
            *end = place + 1;
        }
    }
    Ok(ends)
}
