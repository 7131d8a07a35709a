//! What a run leaves.

ghost use Rattle.std.specs.Prelude.{◌≡◌, ◌≤◌, ◌++◌, ◌∷◌, [], ℕ, IfOk, OnOk, List, length};
ghost use Rattle.plan_events.specs.declared.event.Event.{Event};
ghost use Rattle.sched_core.specs.Inside.Fields.{state_of, parts_upto};
ghost use Rattle.sched_core.specs.Traces.{IsTraceOf, lists_of};

use crate::machine::Machine;
use plan_events::Event;
use std::alloc::{AllocError, Global};

/// What a run leaves.
#[derive(Drop)]
pub struct Trace {
    /// Every event that was drawn, in the order of their places from 0.
    pub published: Vec<Event>,
    /// The first of them, which the dispatcher gave.
    pub given: Vec<Event>,
    /// The published events of each worker: those of worker k at place k - 1.
    pub mine: Vec<Vec<Event>>,
    /// How many steps were not possible when their turn came.
    pub passed_over: usize,
}

/// An empty list for each of so many workers.
fn empty_lists(alloc: Global, workers: u8) -> Result<Vec<Vec<Event>>, AllocError>
    ensures { IfOk result (λ v. lists_of v ≡ parts_upto workers []) }
{
    let mut lists = Vec::new(alloc);
    for _worker in 0..workers {
        lists.push(Vec::new(alloc))?;
    }
    Ok(lists)
}

/// Puts one more event last in its worker's list. An event of a worker without a list changes none.
fn put(lists: &mut Vec<Vec<Event>>, event: Event) -> Result<(), AllocError>
    ensures { OnOk result ((n : ℕ) (h : List Event) → lists_of lists.old ≡ parts_upto n h →
        lists_of lists.new ≡ parts_upto n (h ++ event ∷ [])) }
{
    if event.worker == 0 {
        return Ok(());
    }
    if let Some(list) = lists.get_mut(usize::from(event.worker - 1)) {
        list.push(event)?;
    }
    Ok(())
}

/// The lists of so many workers.
fn parts(alloc: Global, events: &[Event], workers: u8) -> Result<Vec<Vec<Event>>, AllocError>
    ensures { IfOk result (λ v. lists_of v ≡ parts_upto workers events.now) }
{
    let mut lists = empty_lists(alloc, workers)?;
    for event in events {
        put(&mut lists, *event)?;
    }
    Ok(lists)
}

impl Machine {
    /// What the run has left so far.
    pub(crate) fn trace(&self, alloc: Global, passed_over: usize) -> Result<Trace, AllocError>
        requires given { self.now.given ≤ length self.now.published.items }
        requires workers { length self.now.seats.items ≡ self.now.workers }
        ensures { IfOk result (λ t. IsTraceOf (state_of self.now) passed_over t) }
    {
        Ok(Trace {
            published: self.published.as_slice().to_vec(alloc)?,
            given: self.published[..self.given].to_vec(alloc)?,
            mine: parts(alloc, self.published.as_slice(), self.workers)?,
            passed_over,
        })
    }
}
