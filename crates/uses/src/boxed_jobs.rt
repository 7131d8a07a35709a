//! Calls `worker_pool` with jobs of two kinds, each in a box: one passes, and the other fails.

ghost use Rattle.std.specs.Prelude.{◌≡◌, ◌∷◌, [], IfOk, IfSome};
ghost use Rattle.event_history.specs.Exclusion.{IsExclusive};
ghost use Rattle.event_history.specs.History.{IsComplete};
ghost use Rattle.uses.specs.Ending.{failing, fails as failing_replies, gives_failing, says_failing, AllEnd};
ghost use Rattle.uses.specs.Passing.{passing};

use crate::threaded_run::Passing;
use descriptor::BodyId;
use plan_events::{Event, Job, Outcome, Pull, Status};
use resource_locks::Plan;
use run_table::Jobs;
use std::alloc::{AllocError, Global};
use std::sync::Wait;
use std::thread::Threads;
use unique_id::Text;
use worker_pool::run_watched;

/// A job that fails.
#[derive(Drop)]
struct Failing {
    is_done: bool,
}

impl Job for Failing {
    ghost answers = { failing_replies };

    ghost gives = { gives_failing };

    ghost says = { says_failing };

    fn next(&mut self) -> Pull {
        Pull::End
    }

    fn run(&mut self) -> Outcome {
        self.is_done = true;
        Outcome {
            status: Status::Failed,
            text: Text::empty(),
        }
    }
}

/// These jobs, each for its body.
fn two_boxed(
    alloc: Global,
    good: BodyId,
    passes: Box<dyn Job + Send>,
    bad: BodyId,
    fails: Box<dyn Job + Send>,
) -> Result<Jobs<Box<dyn Job + Send>>, AllocError>
    requires good { answers passes ≡ passing ∷ [] }
    requires bad { answers fails ≡ failing ∷ [] }
    ensures { IfOk result (λ jobs. AllEnd (λ b. answers b) jobs.items) }
{
    let mut jobs = Vec::new(alloc);
    jobs.push((good, passes))?;
    jobs.push((bad, fails))?;
    Ok(jobs)
}

/// What happens where four threads run this plan, whose only bodies are a good one and a bad one; or None, if it is
/// not run.
pub fn run_each<R: Threads + Wait + Sync>(
    rt: &R,
    alloc: Global,
    plan: Plan,
    good: BodyId,
    bad: BodyId,
) -> Option<Vec<Event>>
    ensures complete { IfSome result (λ events. IsComplete plan events.items) }
    ensures exclusive { IfSome result (λ events. IsExclusive plan events.items) }
{
    let Ok(passes) = Box::new(alloc, Passing { is_done: false }) else {
        return None;
    };
    let Ok(fails) = Box::new(alloc, Failing { is_done: false }) else {
        return None;
    };
    let Ok(jobs) = two_boxed(alloc, good, passes, bad, fails) else {
        return None;
    };
    match run_watched(rt, alloc, plan, jobs, 4, 1024, &mut ()) {
        Ok(report) => Some(report.events),
        Err(_) => None,
    }
}
