//! Calls `schedules`: the steps of a history are found, and the run is made again by them.

ghost use Rattle.std.specs.Prelude.{◌≡◌, IfSome};

use plan_events::Event;
use resource_locks::Plan;
use sched_core::{Answers, Trace, run_steps};
use schedules::schedule_of;
use std::alloc::Global;

/// What the same plan publishes once more, which is this history; or None, if no steps of it were found.
pub fn history_again(
    alloc: Global,
    plan: &Plan,
    answers: &Answers,
    workers: u32,
    history: &[Event],
) -> Option<Vec<Event>>
    ensures { IfSome result (λ again. again.items ≡ history.now) }
{
    let found = schedule_of(alloc, plan, answers, workers, history).ok()?;
    let steps = found?;
    let ran = run_steps(alloc, plan, answers, workers, steps.as_slice());
    let Trace { published, .. } = ran.ok()?;
    Some(published)
}
