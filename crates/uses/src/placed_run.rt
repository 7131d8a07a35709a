//! Calls `run_placed` of `worker_pool`: two threads run a plan with two jobs of one's own at places of one's own, which come
//! back as those that came.

ghost use Rattle.std.specs.Prelude.{IfSome};
ghost use Rattle.std.proofs.Common.{rules};
ghost use Rattle.event_history.specs.History.{IsComplete};
ghost use Rattle.workers.specs.Leading.{AreLedFrom};
ghost use Rattle.uses.specs.Counting.{counts_on};

use crate::threaded_run::{Passing, two_jobs};
use descriptor::{BodyId, NodeId};
use plan_events::{Event, Job, Outcome};
use resource_locks::Plan;
use std::alloc::Global;
use std::marker::Brand;
use std::sync::Wait;
use std::thread::Threads;
use worker_pool::run_placed;
use workers::{Place, PlacesBrand, lend_places, take_back};

/// A place that counts the jobs that it was asked for.
#[derive(Drop)]
pub struct Counter {
    pub asked: u64,
}

impl<B: Job> Place<B> for Counter {
    ghost led = { counts_on };

    ghost unasked = { Prim.search rules };

    fn run(&mut self, _node: NodeId, job: &mut B) -> Outcome {
        self.asked = self.asked.saturating_add(1);
        job.run()
    }

    fn is_open(&self) -> bool {
        true
    }
}

/// Lends these places, of this brand, to a run of this plan, and takes them back.
fn run_at<M: PlacesBrand<Counter> + Send + Sync, R: Threads + Wait + Sync>(
    rt: &R,
    alloc: Global,
    plan: Plan,
    first: BodyId,
    second: BodyId,
    places: &mut [Option<Counter>],
) -> Option<Vec<Event>>
    requires came { AreLedFrom counts_on M.came places.old }
    ensures complete { IfSome result (λ events. IsComplete plan events.items) }
    ensures back { AreLedFrom counts_on M.came places.new }
{
    let Ok(jobs) = two_jobs(alloc, first, second) else {
        return None;
    };
    let Ok(lent) = lend_places::<Passing, Counter, M>(alloc, places) else {
        return None;
    };
    let ran = run_placed(rt, alloc, plan, jobs, 2, 1024, lent.as_slice(), &mut ());
    take_back(places, lent);
    match ran {
        Ok(report) => Some(report.events),
        Err(_) => None,
    }
}

/// What happens where two threads run this plan, whose only bodies are these two, each at a place of its own; or None, if it
/// is not run. Each place that comes back is the one that came there, and has counted on.
pub fn run_two_placed<R: Threads + Wait + Sync>(
    rt: &R,
    alloc: Global,
    plan: Plan,
    first: BodyId,
    second: BodyId,
    places: &mut [Option<Counter>],
) -> Option<Vec<Event>>
    ensures complete { IfSome result (λ events. IsComplete plan events.items) }
    ensures back { AreLedFrom counts_on places.old places.new }
{
    run_at::<Brand, R>(rt, alloc, plan, first, second, places)
}
