//! Calls `worker_pool`: four threads run a plan with two jobs of one's own, and two listeners are told what happens.

ghost use Rattle.std.specs.Prelude.{◌≡◌, IfOk, IfSome};
ghost use Rattle.uses.specs.Passing.{gives_passing, passes, says_passing, AllPass};
ghost use Rattle.event_history.specs.Exclusion.{IsExclusive};
ghost use Rattle.event_history.specs.History.{IsComplete};

use descriptor::BodyId;
use listeners::{Audience, Listener, Recorder};
use plan_events::{Event, Job, Outcome, Pull, Status};
use resource_locks::Plan;
use run_table::Jobs;
use std::alloc::{AllocError, Global};
use std::sync::Wait;
use std::thread::Threads;
use unique_id::Text;
use worker_pool::run_plan;

/// A job that passes.
#[derive(Drop)]
pub(crate) struct Passing {
    pub(crate) is_done: bool,
}

impl Job for Passing {
    ghost answers = { passes };

    ghost gives = { gives_passing };

    ghost says = { says_passing };

    fn next(&mut self) -> Pull {
        Pull::End
    }

    fn run(&mut self) -> Outcome {
        self.is_done = true;
        Outcome {
            status: Status::Successful,
            text: Text::empty(),
        }
    }
}

/// A job for each of these bodies.
pub(crate) fn two_jobs(
    alloc: Global,
    first: BodyId,
    second: BodyId,
) -> Result<Jobs<Passing>, AllocError>
    ensures { IfOk result (λ jobs. AllPass jobs.items) }
{
    let mut jobs: Jobs<Passing> = Vec::new(alloc);
    jobs.push((first, Passing { is_done: false }))?;
    jobs.push((second, Passing { is_done: false }))?;
    Ok(jobs)
}

/// What happens where four threads run this plan, whose only bodies are these two; or None, if it is not run.
pub fn run_two<R: Threads + Wait + Sync>(
    rt: &R,
    alloc: Global,
    plan: Plan,
    first: BodyId,
    second: BodyId,
) -> Option<Vec<Event>>
    ensures complete { IfSome result (λ events. IsComplete plan events.items) }
    ensures exclusive { IfSome result (λ events. IsExclusive plan events.items) }
{
    let Ok(jobs) = two_jobs(alloc, first, second) else {
        return None;
    };
    let mut listeners: Vec<Box<dyn Listener>> = Vec::new(alloc);
    for _listener in 0..2 {
        let recorder = Box::new(alloc, Recorder::new(alloc)).ok()?;
        listeners.push(recorder).ok()?;
    }
    let Ok(mut audience) = Audience::new(listeners) else {
        return None;
    };
    if !audience.fresh() {
        return None;
    }
    match run_plan(rt, alloc, plan, jobs, 4, 1024, &mut audience) {
        Ok(report) => Some(report.events),
        Err(_) => None,
    }
}
